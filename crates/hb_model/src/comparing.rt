//! Whether two rows are the same, and where two tables first differ.
ghost use Rattle.std.specs.Prelude.{◌≡◌, ◌↔◌, IsTrue, IfSome, IfNone};
ghost use Rattle.hb_model.specs.Fit.{DifferAt};

use hb_records::{
    Artifact, Assoc, Blob, Candidate, ImmuteRule, JobRow, Project, RetainRule, Rules, Selector,
    SnapTag, TagRow, Upload,
};
use hb_text::Digest;

/// Rows that can be compared whole.
pub trait Same {
    /// Whether the two are the same in each field.
    fn same(&self, other: &Self) -> bool
        ensures { IsTrue result ↔ (self.now ≡ other.now) };
}

/// The first place, counted from 1, at which two tables differ. Where one of them ends there, it is the place
/// behind its last row.
pub fn first_difference<T: Same>(rows: &[T], others: &[T]) -> Option<u64>
    ensures none { IfNone result (rows.now ≡ others.now) }
    ensures some { IfSome result (λ place. DifferAt place rows.now others.now) }
{
    let mut place = 0;
    while place < rows.len() && place < others.len() {
        if !rows[place].same(&others[place]) {
            return Some(place as u64 + 1);
        }
        place += 1;
    }
    if rows.len() == others.len() {
        None
    } else {
        Some(place as u64 + 1)
    }
}

fn same_all<T: Same>(rows: &[T], others: &[T]) -> bool
    ensures { IsTrue result ↔ (rows.now ≡ others.now) }
{
    first_difference(rows, others).is_none()
}

impl Same for Digest {
    fn same(&self, other: &Digest) -> bool {
        self == other
    }
}

impl Same for Selector {
    fn same(&self, other: &Selector) -> bool {
        self.exclude == other.exclude && self.pattern == other.pattern
    }
}

impl Same for ImmuteRule {
    fn same(&self, other: &ImmuteRule) -> bool {
        self.repo.same(&other.repo) && self.tag.same(&other.tag)
    }
}

impl Same for RetainRule {
    fn same(&self, other: &RetainRule) -> bool {
        self.template == other.template && self.repo.same(&other.repo) && self.tag.same(&other.tag)
    }
}

impl Same for Rules {
    fn same(&self, other: &Rules) -> bool {
        same_all(self.immutes.as_slice(), other.immutes.as_slice())
            && same_all(self.retains.as_slice(), other.retains.as_slice())
    }
}

impl Same for Project {
    fn same(&self, other: &Project) -> bool {
        self.name == other.name
            && self.limit == other.limit
            && self.used == other.used
            && self.rules.same(&other.rules)
            && self.version == other.version
    }
}

impl Same for Blob {
    fn same(&self, other: &Blob) -> bool {
        self == other
    }
}

impl Same for Assoc {
    fn same(&self, other: &Assoc) -> bool {
        self.project == other.project
            && self.digest == other.digest
            && self.size == other.size
            && self.touched == other.touched
    }
}

// Whether the manifests of two artifacts say the same.
fn same_manifest(one: &Artifact, other: &Artifact) -> bool
    ensures { IsTrue result ↔ ((one.now.size ≡ other.now.size) × (one.now.media ≡ other.now.media) × (one.now.refs ≡ other.now.refs) × (one.now.children ≡ other.now.children)) }
{
    one.size == other.size
        && one.media == other.media
        && same_all(one.refs.as_slice(), other.refs.as_slice())
        && same_all(one.children.as_slice(), other.children.as_slice())
}

impl Same for Artifact {
    fn same(&self, other: &Artifact) -> bool {
        self.name == other.name
            && self.digest == other.digest
            && same_manifest(self, other)
            && self.pushed == other.pushed
            && self.pulled == other.pulled
            && self.version == other.version
    }
}

impl Same for TagRow {
    fn same(&self, other: &TagRow) -> bool {
        self.name == other.name
            && self.tag == other.tag
            && self.digest == other.digest
            && self.pushed == other.pushed
            && self.version == other.version
    }
}

impl Same for Upload {
    fn same(&self, other: &Upload) -> bool {
        self.id == other.id
            && self.name == other.name
            && self.offset == other.offset
            && self.touched == other.touched
            && self.version == other.version
    }
}

impl Same for JobRow {
    fn same(&self, other: &JobRow) -> bool {
        self.number == other.number
            && self.kind == other.kind
            && self.phase == other.phase
            && self.cursor == other.cursor
            && self.claimed == other.claimed
            && self.barred == other.barred
            && self.version == other.version
    }
}

impl Same for Candidate {
    fn same(&self, other: &Candidate) -> bool {
        self == other
    }
}

impl Same for SnapTag {
    fn same(&self, other: &SnapTag) -> bool {
        self.job == other.job
            && self.name == other.name
            && self.tag == other.tag
            && self.digest == other.digest
            && self.version == other.version
            && self.pushed == other.pushed
            && self.pulled == other.pulled
            && self.verdict == other.verdict
    }
}
