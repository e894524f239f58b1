//! Rows as those of all tables.
ghost use Rattle.std.specs.Prelude.{◌≡◌, IfOk};
ghost use Rattle.hb_world.specs.Reading.{key_of_row};

use hb_records::{
    Artifact, Assoc, Blob, Candidate, Duplicate, Entry, JobRow, Key, Memory, Project, Row, SnapTag,
    TagRow, Upload,
};
use std::alloc::Global;

/// A row of one of the tables.
pub trait TableRow: Drop {
    ghost use Rattle.hb_records.specs.declared.batches.Row.{Row};

    /// It as one of the rows of all tables.
    ghost as_row: { Self → Row };

    /// A copy of its key.
    fn key(&self, alloc: Global) -> Result<Key, Memory>
        ensures { IfOk result (λ key. key ≡ key_of_row (Self.as_row self.now)) };

    /// It as one of the rows of all tables.
    fn into_row(self) -> Row
        ensures { result ≡ Self.as_row self };
}

impl TableRow for Project {
    ghost use Rattle.hb_records.specs.declared.batches.Row.TheVariants as variant;

    ghost as_row = { λ row. variant.Project row };

    fn key(&self, alloc: Global) -> Result<Key, Memory> {
        Ok(Key::Project {
            name: self.name.copy(alloc)?,
        })
    }

    fn into_row(self) -> Row {
        Row::Project(self)
    }
}

impl TableRow for Blob {
    ghost use Rattle.hb_records.specs.declared.batches.Row.TheVariants as variant;

    ghost as_row = { λ row. variant.Blob row };

    fn key(&self, _alloc: Global) -> Result<Key, Memory> {
        Ok(Key::Blob {
            digest: self.digest,
        })
    }

    fn into_row(self) -> Row {
        Row::Blob(self)
    }
}

impl TableRow for Assoc {
    ghost use Rattle.hb_records.specs.declared.batches.Row.TheVariants as variant;

    ghost as_row = { λ row. variant.Pair row };

    fn key(&self, alloc: Global) -> Result<Key, Memory> {
        Ok(Key::Pair {
            project: self.project.copy(alloc)?,
            digest: self.digest,
        })
    }

    fn into_row(self) -> Row {
        Row::Pair(self)
    }
}

impl TableRow for Artifact {
    ghost use Rattle.hb_records.specs.declared.batches.Row.TheVariants as variant;

    ghost as_row = { λ row. variant.Artifact row };

    fn key(&self, alloc: Global) -> Result<Key, Memory> {
        Ok(Key::Artifact {
            name: self.name.copy(alloc)?,
            digest: self.digest,
        })
    }

    fn into_row(self) -> Row {
        Row::Artifact(self)
    }
}

impl TableRow for TagRow {
    ghost use Rattle.hb_records.specs.declared.batches.Row.TheVariants as variant;

    ghost as_row = { λ row. variant.Tag row };

    fn key(&self, alloc: Global) -> Result<Key, Memory> {
        Ok(Key::Tag {
            name: self.name.copy(alloc)?,
            tag: self.tag.copy(alloc)?,
        })
    }

    fn into_row(self) -> Row {
        Row::Tag(self)
    }
}

impl TableRow for Upload {
    ghost use Rattle.hb_records.specs.declared.batches.Row.TheVariants as variant;

    ghost as_row = { λ row. variant.Upload row };

    fn key(&self, _alloc: Global) -> Result<Key, Memory> {
        Ok(Key::Upload { id: self.id })
    }

    fn into_row(self) -> Row {
        Row::Upload(self)
    }
}

impl TableRow for JobRow {
    ghost use Rattle.hb_records.specs.declared.batches.Row.TheVariants as variant;

    ghost as_row = { λ row. variant.Job row };

    fn key(&self, _alloc: Global) -> Result<Key, Memory> {
        Ok(Key::Job {
            number: self.number,
        })
    }

    fn into_row(self) -> Row {
        Row::Job(self)
    }
}

impl TableRow for Candidate {
    ghost use Rattle.hb_records.specs.declared.batches.Row.TheVariants as variant;

    ghost as_row = { λ row. variant.Candidate row };

    fn key(&self, _alloc: Global) -> Result<Key, Memory> {
        Ok(Key::Candidate {
            job: self.job,
            digest: self.digest,
        })
    }

    fn into_row(self) -> Row {
        Row::Candidate(self)
    }
}

impl TableRow for SnapTag {
    ghost use Rattle.hb_records.specs.declared.batches.Row.TheVariants as variant;

    ghost as_row = { λ row. variant.Snap row };

    fn key(&self, alloc: Global) -> Result<Key, Memory> {
        Ok(Key::Snap {
            job: self.job,
            name: self.name.copy(alloc)?,
            tag: self.tag.copy(alloc)?,
        })
    }

    fn into_row(self) -> Row {
        Row::Snap(self)
    }
}

impl TableRow for Entry {
    ghost use Rattle.hb_records.specs.declared.batches.Row.TheVariants as variant;

    ghost as_row = { λ row. variant.Entry row };

    fn key(&self, _alloc: Global) -> Result<Key, Memory> {
        Ok(Key::Entry {
            number: self.number,
        })
    }

    fn into_row(self) -> Row {
        Row::Entry(self)
    }
}
