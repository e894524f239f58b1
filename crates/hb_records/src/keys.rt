ghost use Rattle.std.specs.Prelude.{◌≡◌, IfOk};
ghost use Rattle.hb_records.specs.Keys.{table_of};

use hb_text::{Digest, Duplicate, Memory, Name, ProjectName, Tag};
use std::alloc::Global;

/// The tables, in the order of their keys.
#[derive(Clone, Copy, Debug, PartialEq, Eq, PartialOrd, Ord)]
pub enum Table {
    Project,
    Blob,
    Pair,
    Artifact,
    Tag,
    Upload,
    Job,
    Candidate,
    Snap,
    Entry,
}

/// The key of a row. Keys of one table are ordered field by field, texts and digests by their bytes; keys
/// of two tables as the tables are.
#[derive(Debug, PartialEq, Eq, PartialOrd, Ord, Drop)]
pub enum Key {
    Project {
        name: ProjectName,
    },
    Blob {
        digest: Digest,
    },
    Pair {
        project: ProjectName,
        digest: Digest,
    },
    Artifact {
        name: Name,
        digest: Digest,
    },
    Tag {
        name: Name,
        tag: Tag,
    },
    Upload {
        id: u64,
    },
    Job {
        number: u64,
    },
    Candidate {
        job: u64,
        digest: Digest,
    },
    Snap {
        job: u64,
        name: Name,
        tag: Tag,
    },
    Entry {
        number: u64,
    },
}

impl Key {
    /// The table whose row it is for.
    pub fn table(&self) -> Table
        ensures { result ≡ table_of self.now }
    {
        match self {
            Key::Project { .. } => Table::Project,
            Key::Blob { .. } => Table::Blob,
            Key::Pair { .. } => Table::Pair,
            Key::Artifact { .. } => Table::Artifact,
            Key::Tag { .. } => Table::Tag,
            Key::Upload { .. } => Table::Upload,
            Key::Job { .. } => Table::Job,
            Key::Candidate { .. } => Table::Candidate,
            Key::Snap { .. } => Table::Snap,
            Key::Entry { .. } => Table::Entry,
        }
    }
}

impl Duplicate for Key {
    fn copy(&self, alloc: Global) -> Result<Key, Memory> {
        match self {
            Key::Project { name } => Ok(Key::Project {
                name: name.copy(alloc)?,
            }),
            Key::Blob { digest } => Ok(Key::Blob { digest: *digest }),
            Key::Pair { project, digest } => Ok(Key::Pair {
                project: project.copy(alloc)?,
                digest: *digest,
            }),
            Key::Artifact { name, digest } => Ok(Key::Artifact {
                name: name.copy(alloc)?,
                digest: *digest,
            }),
            Key::Tag { name, tag } => Ok(Key::Tag {
                name: name.copy(alloc)?,
                tag: tag.copy(alloc)?,
            }),
            Key::Upload { id } => Ok(Key::Upload { id: *id }),
            Key::Job { number } => Ok(Key::Job { number: *number }),
            Key::Candidate { job, digest } => Ok(Key::Candidate {
                job: *job,
                digest: *digest,
            }),
            Key::Snap { job, name, tag } => Ok(Key::Snap {
                job: *job,
                name: name.copy(alloc)?,
                tag: tag.copy(alloc)?,
            }),
            Key::Entry { number } => Ok(Key::Entry { number: *number }),
        }
    }
}

/// The key of an artifact by itself, for calls that name one.
#[derive(Debug, PartialEq, Eq, PartialOrd, Ord, Drop)]
pub struct ArtifactKey {
    pub name: Name,
    pub digest: Digest,
}

impl Duplicate for ArtifactKey {
    fn copy(&self, alloc: Global) -> Result<ArtifactKey, Memory> {
        Ok(ArtifactKey {
            name: self.name.copy(alloc)?,
            digest: self.digest,
        })
    }
}
