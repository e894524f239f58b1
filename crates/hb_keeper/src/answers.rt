//! The first row of a table that answers a question. Each table is in the order of its keys, so it is the
//! row with the least key.
ghost use Rattle.std.specs.Prelude.{◌≡◌, ◌&&◌, not};
ghost use Rattle.std.specs.List.{find};
ghost use Rattle.std.specs.Option.{option_copied};
ghost use Rattle.hb_text.specs.Names.{project_of};
ghost use Rattle.hb_model.specs.Words.{same_text, same_digest, among};
ghost use Rattle.hb_model.specs.Jobs.{same_kind};
ghost use Rattle.hb_keeper.specs.Answers.{is_finished, needs};

use hb_records::{Artifact, Assoc, JobKind, JobRow, Phase};
use hb_text::{Digest, Name, ProjectName};

fn has_digest(digests: &[Digest], digest: &Digest) -> bool
    ensures { result ≡ among digest.now digests.now }
{
    digests.iter().any(|other| digest.cmp(other).is_eq())
}

fn is_same_kind(kind: &JobKind, other: &JobKind) -> bool
    ensures { result ≡ same_kind kind.now other.now }
{
    match (kind, other) {
        (JobKind::Collect { .. }, JobKind::Collect { .. }) => true,
        (JobKind::Retain { project }, JobKind::Retain { project: other }) => {
            project.cmp(other).is_eq()
        }
        _ => false,
    }
}

fn is_finished(phase: Phase) -> bool
    ensures { result ≡ is_finished phase }
{
    match phase {
        Phase::Finished => true,
        Phase::Queued | Phase::Claimed | Phase::Marking | Phase::Sweeping | Phase::Turning => false,
    }
}

/// The first job of this kind and project that isn't finished.
pub fn first_unfinished<'a>(jobs: &'a [JobRow], kind: &JobKind) -> Option<&'a JobRow>
    ensures { option_copied result ≡ find (λ row. same_kind kind.now row.kind && not (is_finished row.phase)) jobs.now }
{
    for row in jobs {
        if is_same_kind(kind, &row.kind) && !is_finished(row.phase) {
            return Some(row);
        }
    }
    None
}

fn needs(row: &Artifact, digest: &Digest) -> bool
    ensures { result ≡ needs row.now digest.now }
{
    digest.cmp(&row.digest).is_eq() || has_digest(row.refs.as_slice(), digest)
}

fn is_of_project(row: &Artifact, project: &ProjectName) -> bool
    ensures { result ≡ same_text project.now (project_of row.now.name) }
{
    project.bytes().cmp(row.name.project()).is_eq()
}

/// The first artifact of the project that needs the digest.
pub fn first_needing<'a>(
    artifacts: &'a [Artifact],
    project: &ProjectName,
    digest: &Digest,
) -> Option<&'a Artifact>
    ensures { option_copied result ≡ find (λ row. same_text project.now (project_of row.name) && needs row digest.now) artifacts.now }
{
    for row in artifacts {
        if is_of_project(row, project) && needs(row, digest) {
            return Some(row);
        }
    }
    None
}

/// The first pair with the digest.
pub fn first_owning<'a>(pairs: &'a [Assoc], digest: &Digest) -> Option<&'a Assoc>
    ensures { option_copied result ≡ find (λ row. same_digest digest.now row.digest) pairs.now }
{
    for row in pairs {
        if digest.cmp(&row.digest).is_eq() {
            return Some(row);
        }
    }
    None
}

/// The first artifact of the repository that lists the child.
pub fn first_parent<'a>(
    artifacts: &'a [Artifact],
    name: &Name,
    child: &Digest,
) -> Option<&'a Artifact>
    ensures { option_copied result ≡ find (λ row. same_text name.now row.name && among child.now row.children) artifacts.now }
{
    for row in artifacts {
        if name.cmp(&row.name).is_eq() && has_digest(row.children.as_slice(), child) {
            return Some(row);
        }
    }
    None
}
