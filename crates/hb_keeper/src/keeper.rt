ghost use Rattle.std.specs.Prelude.{◌≡◌, ◌≤◌, ℕ, IfOk, IfSome};
ghost use Rattle.std.specs.declared.option.Option.{Option};
ghost use Rattle.std.specs.Option.{option_copied};
ghost use Rattle.hb_rows.specs.Tables.{Tables, AreTables, project_at, blob_at, pair_at, artifact_at, tag_at, upload_at, job_at, candidate_at, snap_at};
ghost use Rattle.hb_rows.specs.Pages.{page_of};
ghost use Rattle.hb_keeper.specs.Keeps.{after_commit, KeepCause, Reads};
ghost use Rattle.hb_keeper.specs.Answers.{meta_of, unfinished_of, needing, owner_of, parent_of};
ghost use Rattle.hb_keeper.specs.PageKeys.{IsPageBehind};
ghost use Rattle.hb_keeper.specs.declared.keeper.KeepFault.TheVariants.{Memory};

use hb_records::{
    Artifact, ArtifactKey, Assoc, Batch, Blob, Candidate, JobKind, JobRow, Key, Memory, Meta, Page,
    Project, SnapTag, Table, TagRow, Upload,
};
use hb_text::{Digest, Name, ProjectName, Tag};
use std::alloc::AllocError;
use std::error::Error;
use std::fmt;

/// Why a call of a keeper failed.
#[derive(Clone, Copy, Debug, PartialEq, Eq, Hash)]
pub enum KeepFault {
    /// The device failed: it comes only where the keeper's count of faults rose.
    Failed,
    /// Memory was wanting.
    Memory,
}

impl fmt::Display for KeepFault {
    fn fmt<W: fmt::Write>(&self, f: &mut fmt::Formatter<W>) -> fmt::Result {
        match self {
            KeepFault::Failed => write!(f, "keeper failed"),
            KeepFault::Memory => write!(f, "out of memory"),
        }
    }
}

impl Error for KeepFault {}

impl From<Memory> for KeepFault {
    ghost from_gives = { λ _ fault. fault ≡ Memory };

    fn from(_fault: Memory) -> KeepFault {
        KeepFault::Memory
    }
}

impl From<AllocError> for KeepFault {
    ghost from_gives = { λ _ fault. fault ≡ Memory };

    fn from(_fault: AllocError) -> KeepFault {
        KeepFault::Memory
    }
}

/// Where the rows of a registry are kept.
///
/// A commit is the only call that changes rows, and it is all or nothing. Each read tells the rows as they
/// are: the row of a key, the least key that answers a question, or the next rows of a table. A call that
/// answers a fault has no effect.
pub trait Keeper {
    /// Its rows, where it tells them.
    ghost rows: { Self → Option Tables };

    /// How often a call of it has failed. It never falls.
    ghost faults: { Self → ℕ };

    /// Makes the batch's changes and adds its entry, all of it or nothing.
    fn commit(&mut self, batch: &Batch) -> Result<(), KeepFault>
        ensures rows { rows self.new ≡ after_commit (rows self.old) batch.now result }
        ensures cause { KeepCause (faults self.old) (faults self.new) result };

    /// How many entries the audit has, and its latest moment.
    fn meta(&mut self) -> Result<Meta, KeepFault>
        ensures told { Reads (rows self.old) result meta_of }
        ensures rows { rows self.new ≡ rows self.old }
        ensures cause { KeepCause (faults self.old) (faults self.new) result };

    /// The project's row.
    fn project(&mut self, name: &ProjectName) -> Result<Option<Project>, KeepFault>
        ensures told { Reads (rows self.old) result (λ t. project_at t name.now) }
        ensures rows { rows self.new ≡ rows self.old }
        ensures cause { KeepCause (faults self.old) (faults self.new) result };

    /// The blob's row.
    fn blob(&mut self, digest: &Digest) -> Result<Option<Blob>, KeepFault>
        ensures told { Reads (rows self.old) result (λ t. blob_at t digest.now) }
        ensures rows { rows self.new ≡ rows self.old }
        ensures cause { KeepCause (faults self.old) (faults self.new) result };

    /// The row of the project's having the digest.
    fn pair(&mut self, project: &ProjectName, digest: &Digest) -> Result<Option<Assoc>, KeepFault>
        ensures told { Reads (rows self.old) result (λ t. pair_at t project.now digest.now) }
        ensures rows { rows self.new ≡ rows self.old }
        ensures cause { KeepCause (faults self.old) (faults self.new) result };

    /// The artifact's row.
    fn artifact(&mut self, name: &Name, digest: &Digest) -> Result<Option<Artifact>, KeepFault>
        ensures told { Reads (rows self.old) result (λ t. artifact_at t name.now digest.now) }
        ensures rows { rows self.new ≡ rows self.old }
        ensures cause { KeepCause (faults self.old) (faults self.new) result };

    /// The tag's row.
    fn tag(&mut self, name: &Name, tag: &Tag) -> Result<Option<TagRow>, KeepFault>
        ensures told { Reads (rows self.old) result (λ t. tag_at t name.now tag.now) }
        ensures rows { rows self.new ≡ rows self.old }
        ensures cause { KeepCause (faults self.old) (faults self.new) result };

    /// The row of the upload with this id.
    fn upload(&mut self, id: u64) -> Result<Option<Upload>, KeepFault>
        ensures told { Reads (rows self.old) result (λ t. upload_at t id) }
        ensures rows { rows self.new ≡ rows self.old }
        ensures cause { KeepCause (faults self.old) (faults self.new) result };

    /// The row of the job with this number.
    fn job(&mut self, number: u64) -> Result<Option<JobRow>, KeepFault>
        ensures told { Reads (rows self.old) result (λ t. job_at t number) }
        ensures rows { rows self.new ≡ rows self.old }
        ensures cause { KeepCause (faults self.old) (faults self.new) result };

    /// The least unfinished job of this kind and project. The flag `untagged` isn't compared.
    fn unfinished(&mut self, kind: &JobKind) -> Result<Option<JobRow>, KeepFault>
        ensures told { Reads (rows self.old) result (λ t. unfinished_of t kind.now) }
        ensures rows { rows self.new ≡ rows self.old }
        ensures cause { KeepCause (faults self.old) (faults self.new) result };

    /// The row of the job's candidate.
    fn candidate(&mut self, job: u64, digest: &Digest) -> Result<Option<Candidate>, KeepFault>
        ensures told { Reads (rows self.old) result (λ t. candidate_at t job digest.now) }
        ensures rows { rows self.new ≡ rows self.old }
        ensures cause { KeepCause (faults self.old) (faults self.new) result };

    /// The row of the tag in the job's snapshot.
    fn snap(&mut self, job: u64, name: &Name, tag: &Tag) -> Result<Option<SnapTag>, KeepFault>
        ensures told { Reads (rows self.old) result (λ t. snap_at t job name.now tag.now) }
        ensures rows { rows self.new ≡ rows self.old }
        ensures cause { KeepCause (faults self.old) (faults self.new) result };

    /// The least artifact of the project that needs the digest: it is the digest's own, or refers to it.
    fn needed(
        &mut self,
        project: &ProjectName,
        digest: &Digest,
    ) -> Result<Option<ArtifactKey>, KeepFault>
        ensures told { Reads (rows self.old) result (λ t. needing t project.now digest.now) }
        ensures rows { rows self.new ≡ rows self.old }
        ensures cause { KeepCause (faults self.old) (faults self.new) result };

    /// The least project that has the digest.
    fn owner(&mut self, digest: &Digest) -> Result<Option<ProjectName>, KeepFault>
        ensures told { Reads (rows self.old) result (λ t. owner_of t digest.now) }
        ensures rows { rows self.new ≡ rows self.old }
        ensures cause { KeepCause (faults self.old) (faults self.new) result };

    /// The least artifact of that name that lists the child.
    fn parent(&mut self, name: &Name, child: &Digest) -> Result<Option<Digest>, KeepFault>
        ensures told { Reads (rows self.old) result (λ t. parent_of t name.now child.now) }
        ensures rows { rows self.new ≡ rows self.old }
        ensures cause { KeepCause (faults self.old) (faults self.new) result };

    /// The next rows of the table, those with keys above `after`, at most [`hb_records::MOST_ROWS`] of
    /// them. Fewer mean that there are no more.
    ///
    /// That the rows are of this table, and that their keys rise and are above `after`, holds of every
    /// keeper, also of one that doesn't tell its rows; so whoever reads page after page comes to an end.
    fn page(&mut self, table: Table, after: Option<&Key>) -> Result<Page, KeepFault>
        ensures told { Reads (rows self.old) result (λ t. page_of t table (option_copied after.entry)) }
        ensures behind { IfOk result (IsPageBehind table (option_copied after.entry)) }
        ensures tables { IfSome (rows self.old) AreTables }
        ensures rows { rows self.new ≡ rows self.old }
        ensures cause { KeepCause (faults self.old) (faults self.new) result };
}
