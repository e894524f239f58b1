ghost use Rattle.std.specs.Prelude.{◌≡◌, IfOk};

use crate::entries::Entry;
use crate::jobs::{Candidate, JobRow, SnapTag};
use crate::keys::Key;
use crate::records::{Artifact, Assoc, Blob, Project, TagRow, Upload};
use hb_base::Listed;
use hb_text::{Duplicate, Memory};
use std::alloc::Global;

/// Changes, in the order in which they are made.
pub type ChangeList = Listed<Change>;

/// A row of one of the tables.
#[derive(Drop)]
pub enum Row {
    Project(Project),
    Blob(Blob),
    Pair(Assoc),
    Artifact(Artifact),
    Tag(TagRow),
    Upload(Upload),
    Job(JobRow),
    Candidate(Candidate),
    Snap(SnapTag),
    Entry(Entry),
}

impl Duplicate for Row {
    fn copy(&self, alloc: Global) -> Result<Row, Memory> {
        match self {
            Row::Project(row) => Ok(Row::Project(row.copy(alloc)?)),
            Row::Blob(row) => Ok(Row::Blob(row.copy(alloc)?)),
            Row::Pair(row) => Ok(Row::Pair(row.copy(alloc)?)),
            Row::Artifact(row) => Ok(Row::Artifact(row.copy(alloc)?)),
            Row::Tag(row) => Ok(Row::Tag(row.copy(alloc)?)),
            Row::Upload(row) => Ok(Row::Upload(row.copy(alloc)?)),
            Row::Job(row) => Ok(Row::Job(row.copy(alloc)?)),
            Row::Candidate(row) => Ok(Row::Candidate(row.copy(alloc)?)),
            Row::Snap(row) => Ok(Row::Snap(row.copy(alloc)?)),
            Row::Entry(row) => Ok(Row::Entry(row.copy(alloc)?)),
        }
    }
}

/// One change of the tables.
#[derive(Drop)]
pub enum Change {
    /// Sets the row, in place of the one that has its key where there is one.
    Set(Row),
    /// Drops the row of this key. Where there is none it does nothing.
    Drop(Key),
}

impl Duplicate for Change {
    fn copy(&self, alloc: Global) -> Result<Change, Memory> {
        match self {
            Change::Set(row) => Ok(Change::Set(row.copy(alloc)?)),
            Change::Drop(key) => Ok(Change::Drop(key.copy(alloc)?)),
        }
    }
}

/// What one commit does: its changes in order, and then the entry of the audit that says what was done.
#[derive(Drop)]
pub struct Batch {
    pub changes: ChangeList,
    pub entry: Entry,
}

impl Duplicate for Batch {
    fn copy(&self, alloc: Global) -> Result<Batch, Memory> {
        Ok(Batch {
            changes: self.changes.copy(alloc)?,
            entry: self.entry.copy(alloc)?,
        })
    }
}
