ghost use Rattle.std.specs.Prelude.{◌≡◌, IfOk};

use hb_base::Listed;
use hb_text::{Digest, Duplicate, Memory, Name, ProjectName, Tag};
use std::alloc::Global;

/// Jobs, as a page has them.
pub type JobList = Listed<JobRow>;

/// Candidates, as a page has them.
pub type CandidateList = Listed<Candidate>;

/// The tags of snapshots, as a page has them.
pub type SnapList = Listed<SnapTag>;

/// What a job does.
#[derive(Debug, PartialEq, Eq, Drop)]
pub enum JobKind {
    /// Collects the blobs that no project has. Where `untagged`, it drops artifacts without a tag first.
    Collect { untagged: bool },
    /// Drops the tags of a project that its rules of retention don't keep.
    Retain { project: ProjectName },
}

impl Duplicate for JobKind {
    fn copy(&self, alloc: Global) -> Result<JobKind, Memory> {
        match self {
            JobKind::Collect { untagged } => Ok(JobKind::Collect {
                untagged: *untagged,
            }),
            JobKind::Retain { project } => Ok(JobKind::Retain {
                project: project.copy(alloc)?,
            }),
        }
    }
}

/// How far a job is.
#[derive(Clone, Copy, Debug, PartialEq, Eq)]
pub enum Phase {
    /// Nobody claimed it yet.
    Queued,
    Claimed,
    /// A collection marks, page by page.
    Marking,
    /// A collection has marked all, and gives each candidate its turn.
    Sweeping,
    /// Retention has its snapshot, and gives each tag that isn't kept its turn.
    Turning,
    Finished,
}

/// A job.
#[derive(Drop)]
pub struct JobRow {
    /// The number of the entry that queued it.
    pub number: u64,
    pub kind: JobKind,
    pub phase: Phase,
    /// The last digest that a collection has looked at to mark it.
    pub cursor: Option<Digest>,
    /// The number of the entry that last claimed it, or 0.
    pub claimed: u64,
    /// How many digests it didn't mark for the only reason that a removal of them may still take effect.
    pub barred: u64,
    /// The number of the entry that last changed this row.
    pub version: u64,
}

impl Duplicate for JobRow {
    fn copy(&self, alloc: Global) -> Result<JobRow, Memory> {
        Ok(JobRow {
            number: self.number,
            kind: self.kind.copy(alloc)?,
            phase: self.phase,
            cursor: self.cursor,
            claimed: self.claimed,
            barred: self.barred,
            version: self.version,
        })
    }
}

/// What became of a candidate.
#[derive(Clone, Copy, Debug, PartialEq, Eq)]
pub enum Verdict {
    /// It hasn't had its turn.
    Pending,
    /// Its content was removed.
    Collected,
    /// It was pushed or named since the mark, so it stays.
    Touched,
    /// Its removal came too late to be sent.
    Barred,
    /// Its removal failed.
    Failed,
}

/// A digest that a collection marked.
#[derive(Clone, Copy, Debug, PartialEq, Eq)]
pub struct Candidate {
    pub job: u64,
    pub digest: Digest,
    /// In bytes.
    pub size: u64,
    /// The number of the entry that marked it.
    pub version: u64,
    pub verdict: Verdict,
}

impl Duplicate for Candidate {
    fn copy(&self, _alloc: Global) -> Result<Candidate, Memory> {
        Ok(*self)
    }
}

/// What becomes of a tag of a snapshot.
#[derive(Clone, Copy, Debug, PartialEq, Eq)]
pub enum TagVerdict {
    /// The rules keep it.
    Kept,
    /// The rules don't keep it, and it hasn't had its turn.
    Pending,
    Dropped,
    /// It couldn't be dropped, since it was immutable.
    Immutable,
    /// It was pushed or dropped since the snapshot, so it was left.
    Changed,
}

/// A tag as retention found it when the job began.
#[derive(Drop)]
pub struct SnapTag {
    pub job: u64,
    pub name: Name,
    pub tag: Tag,
    pub digest: Digest,
    /// The version that the tag had.
    pub version: u64,
    /// The moment of the push that had set the tag.
    pub pushed: u64,
    /// The moment of the last pull of its artifact, or 0 where there was none.
    pub pulled: u64,
    pub verdict: TagVerdict,
}

impl Duplicate for SnapTag {
    fn copy(&self, alloc: Global) -> Result<SnapTag, Memory> {
        Ok(SnapTag {
            job: self.job,
            name: self.name.copy(alloc)?,
            tag: self.tag.copy(alloc)?,
            digest: self.digest,
            version: self.version,
            pushed: self.pushed,
            pulled: self.pulled,
            verdict: self.verdict,
        })
    }
}
