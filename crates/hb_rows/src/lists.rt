//! The tables as vectors, and the changes that are made to them.
ghost use Rattle.std.specs.Prelude.{◌≡◌, ℕ, ◌+◌, ◌≤◌, length, OnOk};
ghost use Rattle.hb_rows.specs.Tables.{empty_tables};
ghost use Rattle.hb_rows.specs.Batches.{set_row, drop_key, after_change, after_changes};
ghost use Rattle.hb_rows.specs.Lists.{tables_of, HasRoom};

use crate::sought::{
    ArtifactKey, BlobKey, CandidateKey, Number, PairKey, ProjectKey, SnapKey, TagKey,
};
use hb_base::{put, remove};
use hb_records::{
    Artifact, Assoc, Blob, Candidate, Change, Entry, JobRow, Key, Memory, Project, Row, SnapTag,
    TagRow, Upload,
};
use std::alloc::Global;

// Each table in the order of its keys, and the entries, too, by their numbers.
#[derive(Drop)]
pub struct Lists {
    pub projects: Vec<Project>,
    pub blobs: Vec<Blob>,
    pub pairs: Vec<Assoc>,
    pub artifacts: Vec<Artifact>,
    pub tags: Vec<TagRow>,
    pub uploads: Vec<Upload>,
    pub jobs: Vec<JobRow>,
    pub candidates: Vec<Candidate>,
    pub snaps: Vec<SnapTag>,
    pub entries: Vec<Entry>,
}

impl Lists {
    /// Tables without a row, as before the first start. No list asks for
    /// memory until its first row.
    pub fn new(alloc: Global) -> Lists
        ensures { tables_of result ≡ empty_tables }
    {
        Lists {
            projects: Vec::new(alloc),
            blobs: Vec::new(alloc),
            pairs: Vec::new(alloc),
            artifacts: Vec::new(alloc),
            tags: Vec::new(alloc),
            uploads: Vec::new(alloc),
            jobs: Vec::new(alloc),
            candidates: Vec::new(alloc),
            snaps: Vec::new(alloc),
            entries: Vec::new(alloc),
        }
    }
}

/// Makes room for so many rows more in each table. The rows stay as they are.
pub fn reserve(lists: &mut Lists, more: usize) -> Result<(), Memory>
    ensures same { tables_of lists.new ≡ tables_of lists.old }
    ensures room { OnOk result (HasRoom more lists.new) }
{
    lists.projects.reserve(more)?;
    lists.blobs.reserve(more)?;
    lists.pairs.reserve(more)?;
    lists.artifacts.reserve(more)?;
    lists.tags.reserve(more)?;
    lists.uploads.reserve(more)?;
    lists.jobs.reserve(more)?;
    lists.candidates.reserve(more)?;
    lists.snaps.reserve(more)?;
    lists.entries.reserve(more)?;
    Ok(())
}

/// Sets a row. It takes no memory, since there is room for it.
pub fn set(lists: &mut Lists, row: Row)
    requires { HasRoom 1 lists.old }
    ensures tables { tables_of lists.new ≡ set_row (tables_of lists.old) row }
    ensures room { (n : ℕ) → HasRoom (n + 1) lists.old → HasRoom n lists.new }
{
    match row {
        Row::Project(row) => put(&mut lists.projects, row),
        Row::Blob(row) => put(&mut lists.blobs, row),
        Row::Pair(row) => put(&mut lists.pairs, row),
        Row::Artifact(row) => put(&mut lists.artifacts, row),
        Row::Tag(row) => put(&mut lists.tags, row),
        Row::Upload(row) => put(&mut lists.uploads, row),
        Row::Job(row) => put(&mut lists.jobs, row),
        Row::Candidate(row) => put(&mut lists.candidates, row),
        Row::Snap(row) => put(&mut lists.snaps, row),
        Row::Entry(row) => put(&mut lists.entries, row),
    }
}

/// Drops the row of a key. It takes no memory.
pub fn drop_row(lists: &mut Lists, key: &Key)
    ensures tables { tables_of lists.new ≡ drop_key (tables_of lists.old) key.now }
    ensures room { (n : ℕ) → HasRoom n lists.old → HasRoom n lists.new }
{
    match key {
        Key::Project { name } => remove(&mut lists.projects, &ProjectKey { name }),
        Key::Blob { digest } => remove(&mut lists.blobs, &BlobKey { digest }),
        Key::Pair { project, digest } => remove(&mut lists.pairs, &PairKey { project, digest }),
        Key::Artifact { name, digest } => remove(
            &mut lists.artifacts,
            &ArtifactKey { name, digest },
        ),
        Key::Tag { name, tag } => remove(&mut lists.tags, &TagKey { name, tag }),
        Key::Upload { id } => remove(&mut lists.uploads, &Number(*id)),
        Key::Job { number } => remove(&mut lists.jobs, &Number(*number)),
        Key::Candidate { job, digest } => remove(
            &mut lists.candidates,
            &CandidateKey { job: *job, digest },
        ),
        Key::Snap { job, name, tag } => remove(
            &mut lists.snaps,
            &SnapKey {
                job: *job,
                name,
                tag,
            },
        ),
        Key::Entry { number } => remove(&mut lists.entries, &Number(*number)),
    }
}

fn change_one(lists: &mut Lists, change: Change)
    requires { HasRoom 1 lists.old }
    ensures tables { tables_of lists.new ≡ after_change (tables_of lists.old) change }
    ensures room { (n : ℕ) → HasRoom (n + 1) lists.old → HasRoom n lists.new }
{
    match change {
        Change::Set(row) => set(lists, row),
        Change::Drop(key) => drop_row(lists, &key),
    }
}

/// Makes the changes in order. It takes no memory, and leaves room for a row more.
pub fn change_all(lists: &mut Lists, mut changes: Vec<Change>)
    requires { HasRoom (length changes.items + 1) lists.old }
    ensures tables { tables_of lists.new ≡ after_changes (tables_of lists.old) changes.items }
    ensures room { HasRoom 1 lists.new }
{
    changes.reverse();
    while let Some(change) = changes.pop() {
        change_one(lists, change);
    }
}
