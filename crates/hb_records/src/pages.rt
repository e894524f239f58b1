ghost use Rattle.std.specs.Prelude.{◌≡◌, IfOk};

use crate::entries::EntryList;
use crate::jobs::{CandidateList, JobList, SnapList};
use crate::records::{ArtifactList, AssocList, BlobList, ProjectList, TagRowList, UploadList};
use hb_text::{Duplicate, Memory};
use std::alloc::Global;

/// The most rows of a page.
pub const MOST_ROWS: usize = 256;

/// Rows of one table in the order of their keys, at most [`MOST_ROWS`] of them.
#[derive(Drop)]
pub enum Page {
    Project(ProjectList),
    Blob(BlobList),
    Pair(AssocList),
    Artifact(ArtifactList),
    Tag(TagRowList),
    Upload(UploadList),
    Job(JobList),
    Candidate(CandidateList),
    Snap(SnapList),
    Entry(EntryList),
}

impl Duplicate for Page {
    fn copy(&self, alloc: Global) -> Result<Page, Memory> {
        match self {
            Page::Project(rows) => Ok(Page::Project(rows.copy(alloc)?)),
            Page::Blob(rows) => Ok(Page::Blob(rows.copy(alloc)?)),
            Page::Pair(rows) => Ok(Page::Pair(rows.copy(alloc)?)),
            Page::Artifact(rows) => Ok(Page::Artifact(rows.copy(alloc)?)),
            Page::Tag(rows) => Ok(Page::Tag(rows.copy(alloc)?)),
            Page::Upload(rows) => Ok(Page::Upload(rows.copy(alloc)?)),
            Page::Job(rows) => Ok(Page::Job(rows.copy(alloc)?)),
            Page::Candidate(rows) => Ok(Page::Candidate(rows.copy(alloc)?)),
            Page::Snap(rows) => Ok(Page::Snap(rows.copy(alloc)?)),
            Page::Entry(rows) => Ok(Page::Entry(rows.copy(alloc)?)),
        }
    }
}
