ghost use Rattle.std.specs.Prelude.{◌≡◌, reverse, IfOk, OnOk, OnErr};
ghost use Rattle.std.specs.Option.{option_copied};
ghost use Rattle.hb_rows.specs.Tables.{AreTables, empty_tables, entries, project_at, blob_at, pair_at, artifact_at, tag_at, upload_at, job_at, candidate_at, snap_at, entry_at};
ghost use Rattle.hb_rows.specs.Batches.{set_row, after_batch};
ghost use Rattle.hb_rows.specs.Pages.{page_of};

use crate::keyed::rows_behind;
use crate::lists::{Lists, change_all, reserve, set};
use crate::sought::{
    ArtifactKey, BlobKey, CandidateKey, Number, PairKey, ProjectKey, SnapKey, TagKey,
};
use hb_base::find;
use hb_records::{
    Artifact, Assoc, Batch, Blob, Candidate, Digest, Duplicate, Entry, JobRow, Key, Memory, Name,
    Page, Project, ProjectName, Row, SnapTag, Table, Tag, TagRow, Upload,
};
use std::alloc::Global;
use std::marker::Model;

/// The ten tables, in memory. Contracts see the record `Tables` of their rows, each table in the order of
/// its keys, and the audit with its newest entry first.
#[derive(Drop)]
pub struct Rows {
    lists: Lists,
}

impl Model for Rows {
    ghost use Rattle.hb_rows.specs.Tables.{Tables, AreTables};
    ghost use Rattle.hb_rows.specs.Lists.{tables_of};

    ghost Value = { Tables };

    ghost view = { λ rows. tables_of rows.lists };

    ghost invariant = { λ rows. AreTables (tables_of rows.lists) };
}

impl Rows {
    /// Tables without a row. It takes no memory.
    pub fn new(alloc: Global) -> Rows
        ensures { result ≡ empty_tables }
    {
        Rows {
            lists: Lists::new(alloc),
        }
    }

    /// Makes the changes of the batch in order, and then sets its entry. After `Memory` the rows are as
    /// before.
    pub fn apply(&mut self, alloc: Global, batch: &Batch) -> Result<(), Memory>
        ensures ok { OnOk result (self.new ≡ after_batch self.old batch.now) }
        ensures err { OnErr result (self.new ≡ self.old) }
    {
        let changes = batch.changes.copy(alloc)?;
        let entry = batch.entry.copy(alloc)?;
        let Some(more) = changes.len().checked_add(1) else {
            return Err(Memory);
        };
        reserve(&mut self.lists, more)?;
        change_all(&mut self.lists, changes.into_vec());
        set(&mut self.lists, Row::Entry(entry));
        Ok(())
    }

    /// Sets one row, in place of the one that has its key where there is one. After `Memory` the rows are
    /// as before, and the row is given up.
    pub fn set(&mut self, row: Row) -> Result<(), Memory>
        ensures ok { OnOk result (self.new ≡ set_row self.old row) }
        ensures err { OnErr result (self.new ≡ self.old) }
    {
        reserve(&mut self.lists, 1)?;
        set(&mut self.lists, row);
        Ok(())
    }

    /// A copy of the first rows of a table with keys above `after`, at most
    /// [`MOST_ROWS`](hb_records::MOST_ROWS), in the order of their keys: of the first rows at all where
    /// `after` is `None`. Fewer rows mean that there are no more. A key of another table is above or below
    /// all keys of this one.
    pub fn page(&self, alloc: Global, table: Table, after: Option<&Key>) -> Result<Page, Memory>
        ensures { IfOk result (λ page. page ≡ page_of self.now table (option_copied after.entry)) }
    {
        let lists = &self.lists;
        match table {
            Table::Project => Ok(Page::Project(rows_behind(
                alloc,
                lists.projects.as_slice(),
                after,
            )?)),
            Table::Blob => Ok(Page::Blob(rows_behind(alloc, lists.blobs.as_slice(), after)?)),
            Table::Pair => Ok(Page::Pair(rows_behind(alloc, lists.pairs.as_slice(), after)?)),
            Table::Artifact => Ok(Page::Artifact(rows_behind(
                alloc,
                lists.artifacts.as_slice(),
                after,
            )?)),
            Table::Tag => Ok(Page::Tag(rows_behind(alloc, lists.tags.as_slice(), after)?)),
            Table::Upload => Ok(Page::Upload(rows_behind(alloc, lists.uploads.as_slice(), after)?)),
            Table::Job => Ok(Page::Job(rows_behind(alloc, lists.jobs.as_slice(), after)?)),
            Table::Candidate => Ok(Page::Candidate(rows_behind(
                alloc,
                lists.candidates.as_slice(),
                after,
            )?)),
            Table::Snap => Ok(Page::Snap(rows_behind(alloc, lists.snaps.as_slice(), after)?)),
            Table::Entry => Ok(Page::Entry(rows_behind(alloc, lists.entries.as_slice(), after)?)),
        }
    }

    /// The project of this name.
    pub fn project(&self, name: &ProjectName) -> Option<&Project>
        ensures { option_copied result ≡ project_at self.now name.now }
    {
        find(self.lists.projects.as_slice(), &ProjectKey { name })
    }

    /// The blob of this digest.
    pub fn blob(&self, digest: &Digest) -> Option<&Blob>
        ensures { option_copied result ≡ blob_at self.now digest.now }
    {
        find(self.lists.blobs.as_slice(), &BlobKey { digest })
    }

    /// The pair of this project and this digest.
    pub fn pair(&self, project: &ProjectName, digest: &Digest) -> Option<&Assoc>
        ensures { option_copied result ≡ pair_at self.now project.now digest.now }
    {
        find(self.lists.pairs.as_slice(), &PairKey { project, digest })
    }

    /// The artifact of this digest in this repository.
    pub fn artifact(&self, name: &Name, digest: &Digest) -> Option<&Artifact>
        ensures { option_copied result ≡ artifact_at self.now name.now digest.now }
    {
        find(
            self.lists.artifacts.as_slice(),
            &ArtifactKey { name, digest },
        )
    }

    /// The tag of this repository.
    pub fn tag(&self, name: &Name, tag: &Tag) -> Option<&TagRow>
        ensures { option_copied result ≡ tag_at self.now name.now tag.now }
    {
        find(self.lists.tags.as_slice(), &TagKey { name, tag })
    }

    /// The upload of this id.
    pub fn upload(&self, id: u64) -> Option<&Upload>
        ensures { option_copied result ≡ upload_at self.now id }
    {
        find(self.lists.uploads.as_slice(), &Number(id))
    }

    /// The job of this number.
    pub fn job(&self, number: u64) -> Option<&JobRow>
        ensures { option_copied result ≡ job_at self.now number }
    {
        find(self.lists.jobs.as_slice(), &Number(number))
    }

    /// The candidate of this job with this digest.
    pub fn candidate(&self, job: u64, digest: &Digest) -> Option<&Candidate>
        ensures { option_copied result ≡ candidate_at self.now job digest.now }
    {
        find(
            self.lists.candidates.as_slice(),
            &CandidateKey { job, digest },
        )
    }

    /// The tag in the snapshot of this job.
    pub fn snap(&self, job: u64, name: &Name, tag: &Tag) -> Option<&SnapTag>
        ensures { option_copied result ≡ snap_at self.now job name.now tag.now }
    {
        find(self.lists.snaps.as_slice(), &SnapKey { job, name, tag })
    }

    /// The entry of this number.
    pub fn entry(&self, number: u64) -> Option<&Entry>
        ensures { option_copied result ≡ entry_at self.now number }
    {
        find(self.lists.entries.as_slice(), &Number(number))
    }

    /// The projects, by name.
    pub fn projects(&self) -> &[Project]
        ensures { result.now ≡ self.now.projects }
    {
        self.lists.projects.as_slice()
    }

    /// The blobs, by digest.
    pub fn blobs(&self) -> &[Blob]
        ensures { result.now ≡ self.now.blobs }
    {
        self.lists.blobs.as_slice()
    }

    /// The pairs, by project and digest.
    pub fn pairs(&self) -> &[Assoc]
        ensures { result.now ≡ self.now.pairs }
    {
        self.lists.pairs.as_slice()
    }

    /// The artifacts, by repository and digest.
    pub fn artifacts(&self) -> &[Artifact]
        ensures { result.now ≡ self.now.artifacts }
    {
        self.lists.artifacts.as_slice()
    }

    /// The tags, by repository and tag.
    pub fn tags(&self) -> &[TagRow]
        ensures { result.now ≡ self.now.tags }
    {
        self.lists.tags.as_slice()
    }

    /// The uploads, by id.
    pub fn uploads(&self) -> &[Upload]
        ensures { result.now ≡ self.now.uploads }
    {
        self.lists.uploads.as_slice()
    }

    /// The jobs, by number.
    pub fn jobs(&self) -> &[JobRow]
        ensures { result.now ≡ self.now.jobs }
    {
        self.lists.jobs.as_slice()
    }

    /// The candidates, by job and digest.
    pub fn candidates(&self) -> &[Candidate]
        ensures { result.now ≡ self.now.candidates }
    {
        self.lists.candidates.as_slice()
    }

    /// The tags of snapshots, by job, repository and tag.
    pub fn snaps(&self) -> &[SnapTag]
        ensures { result.now ≡ self.now.snaps }
    {
        self.lists.snaps.as_slice()
    }

    /// The entries, by number.
    pub fn entries(&self) -> &[Entry]
        ensures { result.now ≡ entries self.now }
    {
        self.lists.entries.as_slice()
    }

    /// The keys of each table rise. It does nothing, and its contract is this law.
    pub fn keys_rise(&self)
        ensures { AreTables self.now }
    {
        let _lists = &self.lists;
    }
}
