ghost use Rattle.std.specs.Prelude.{◌≡◌, ◌↔◌, ◌<◌, ◌⊎◌, true, false, length, Some, IfOk, IfSome, IsErrOf, IsTrue};
ghost use Rattle.std.specs.Option.{option_copied};
ghost use Rattle.hb_outside.specs.Scripts.{IsNext};
ghost use Rattle.hb_records.specs.Entries.{MOST_ENTRIES};
ghost use Rattle.hb_rows.specs.Tables.{AreTables, empty_tables, project_at, blob_at, pair_at, artifact_at, tag_at, upload_at, job_at, candidate_at, snap_at};
ghost use Rattle.hb_rows.specs.Pages.{page_of};
ghost use Rattle.hb_keeper.specs.Keeps.{after_commit, KeepCause, Reads};
ghost use Rattle.hb_keeper.specs.Answers.{meta_of, unfinished_of, needing, owner_of, parent_of};
ghost use Rattle.hb_keeper.specs.PageKeys.{IsPageBehind};
ghost use Rattle.hb_keeper.specs.Counts.{Counted, IsScripted};

use crate::answers::{first_needing, first_owning, first_parent, first_unfinished};
use crate::copies::{copied, meta_of, page_behind};
use crate::keeper::{KeepFault, Keeper};
use hb_outside::Script;
use hb_records::{
    Artifact, ArtifactKey, Assoc, Batch, Blob, Candidate, JobKind, JobRow, Key, Meta, Page,
    Project, SnapTag, Table, TagRow, Upload,
};
use hb_rows::Rows;
use hb_text::{Digest, Duplicate, Name, ProjectName, Tag};
use std::alloc::Global;
use std::mem::replace;

/// A keeper in memory.
#[derive(Drop)]
pub struct MemKeeper {
    /// Its calls. One that the script names fails, and so does the commit behind
    /// [`fail_next`](MemKeeper::fail_next), and `meta` where the audit is longer than a [`Meta`] can say. No
    /// other fails.
    pub script: Script,
    alloc: Global,
    rows: Rows,
    fails_next_commit: bool,
}

impl MemKeeper {
    /// A keeper without a row. Its calls whose numbers, counted from 1, stand in `fails` fail. It takes no
    /// memory.
    pub fn new(alloc: Global, fails: Vec<u64>) -> MemKeeper
        ensures rows { result.rows ≡ empty_tables }
        ensures script { result.script ≡ record { calls = 0; faults = 0; fails = fails.items } }
        ensures next { result.fails_next_commit ≡ false }
    {
        MemKeeper::of(alloc, Rows::new(alloc), fails)
    }

    /// A keeper of these rows, whose calls fail as those of `new`. It takes no memory.
    pub fn of(alloc: Global, rows: Rows, fails: Vec<u64>) -> MemKeeper
        ensures rows { result.rows ≡ rows }
        ensures script { result.script ≡ record { calls = 0; faults = 0; fails = fails.items } }
        ensures next { result.fails_next_commit ≡ false }
    {
        MemKeeper {
            script: Script::new(fails),
            alloc,
            rows,
            fails_next_commit: false,
        }
    }

    /// Its rows.
    pub fn rows(&self) -> &Rows
        ensures { result.now ≡ self.now.rows }
    {
        &self.rows
    }

    /// Its rows. It takes no memory.
    pub fn into_rows(self) -> Rows
        ensures { result ≡ self.rows }
    {
        self.rows
    }

    /// Its next commit fails, whatever the script says. It is no call, and takes no memory.
    pub fn fail_next(&mut self)
        ensures next { self.new.fails_next_commit ≡ true }
        ensures rows { self.new.rows ≡ self.old.rows }
        ensures script { self.new.script ≡ self.old.script }
    {
        self.fails_next_commit = true;
    }
}

impl Keeper for MemKeeper {
    ghost rows = { λ k. Some k.rows };

    ghost faults = { λ k. k.script.faults };

    fn commit(&mut self, batch: &Batch) -> Result<(), KeepFault>
        ensures rows { Some self.new.rows ≡ after_commit (Some self.old.rows) batch.now result }
        ensures cause { KeepCause self.old.script.faults self.new.script.faults result }

        // It fails exactly where the script says, or behind `fail_next`.
        ensures failed { IsErrOf result KeepFault.Failed ↔ (IsNext self.old.script ⊎ IsTrue self.old.fails_next_commit) }
        ensures counted { Counted self.old.script self.new.script result }
        ensures next { self.new.fails_next_commit ≡ false }
    {
        let fails = replace(&mut self.fails_next_commit, false);
        if self.script.begin() {
            return Err(KeepFault::Failed);
        }
        if fails {
            self.script.fault();
            return Err(KeepFault::Failed);
        }
        self.rows.apply(self.alloc, batch)?;
        Ok(())
    }

    fn meta(&mut self) -> Result<Meta, KeepFault>
        ensures told { Reads (Some self.old.rows) result meta_of }
        ensures rows { Some self.new.rows ≡ Some self.old.rows }
        ensures cause { KeepCause self.old.script.faults self.new.script.faults result }

        // It fails exactly where the script says, or the audit is too long to be said.
        ensures failed { IsErrOf result KeepFault.Failed ↔ (IsNext self.old.script ⊎ (MOST_ENTRIES < length self.old.rows.audit)) }
        ensures counted { Counted self.old.script self.new.script result }
        ensures next { self.new.fails_next_commit ≡ self.old.fails_next_commit }
    {
        if self.script.begin() {
            return Err(KeepFault::Failed);
        }
        match meta_of(&self.rows) {
            Some(meta) => Ok(meta),
            None => {
                self.script.fault();
                Err(KeepFault::Failed)
            }
        }
    }

    fn project(&mut self, name: &ProjectName) -> Result<Option<Project>, KeepFault>
        ensures told { Reads (Some self.old.rows) result (λ t. project_at t name.now) }
        ensures rows { Some self.new.rows ≡ Some self.old.rows }
        ensures cause { KeepCause self.old.script.faults self.new.script.faults result }
        ensures scripted { IsScripted self.old self.new result }
    {
        if self.script.begin() {
            return Err(KeepFault::Failed);
        }
        Ok(copied(self.alloc, self.rows.project(name))?)
    }

    fn blob(&mut self, digest: &Digest) -> Result<Option<Blob>, KeepFault>
        ensures told { Reads (Some self.old.rows) result (λ t. blob_at t digest.now) }
        ensures rows { Some self.new.rows ≡ Some self.old.rows }
        ensures cause { KeepCause self.old.script.faults self.new.script.faults result }
        ensures scripted { IsScripted self.old self.new result }
    {
        if self.script.begin() {
            return Err(KeepFault::Failed);
        }
        Ok(copied(self.alloc, self.rows.blob(digest))?)
    }

    fn pair(&mut self, project: &ProjectName, digest: &Digest) -> Result<Option<Assoc>, KeepFault>
        ensures told { Reads (Some self.old.rows) result (λ t. pair_at t project.now digest.now) }
        ensures rows { Some self.new.rows ≡ Some self.old.rows }
        ensures cause { KeepCause self.old.script.faults self.new.script.faults result }
        ensures scripted { IsScripted self.old self.new result }
    {
        if self.script.begin() {
            return Err(KeepFault::Failed);
        }
        Ok(copied(self.alloc, self.rows.pair(project, digest))?)
    }

    fn artifact(&mut self, name: &Name, digest: &Digest) -> Result<Option<Artifact>, KeepFault>
        ensures told { Reads (Some self.old.rows) result (λ t. artifact_at t name.now digest.now) }
        ensures rows { Some self.new.rows ≡ Some self.old.rows }
        ensures cause { KeepCause self.old.script.faults self.new.script.faults result }
        ensures scripted { IsScripted self.old self.new result }
    {
        if self.script.begin() {
            return Err(KeepFault::Failed);
        }
        Ok(copied(self.alloc, self.rows.artifact(name, digest))?)
    }

    fn tag(&mut self, name: &Name, tag: &Tag) -> Result<Option<TagRow>, KeepFault>
        ensures told { Reads (Some self.old.rows) result (λ t. tag_at t name.now tag.now) }
        ensures rows { Some self.new.rows ≡ Some self.old.rows }
        ensures cause { KeepCause self.old.script.faults self.new.script.faults result }
        ensures scripted { IsScripted self.old self.new result }
    {
        if self.script.begin() {
            return Err(KeepFault::Failed);
        }
        Ok(copied(self.alloc, self.rows.tag(name, tag))?)
    }

    fn upload(&mut self, id: u64) -> Result<Option<Upload>, KeepFault>
        ensures told { Reads (Some self.old.rows) result (λ t. upload_at t id) }
        ensures rows { Some self.new.rows ≡ Some self.old.rows }
        ensures cause { KeepCause self.old.script.faults self.new.script.faults result }
        ensures scripted { IsScripted self.old self.new result }
    {
        if self.script.begin() {
            return Err(KeepFault::Failed);
        }
        Ok(copied(self.alloc, self.rows.upload(id))?)
    }

    fn job(&mut self, number: u64) -> Result<Option<JobRow>, KeepFault>
        ensures told { Reads (Some self.old.rows) result (λ t. job_at t number) }
        ensures rows { Some self.new.rows ≡ Some self.old.rows }
        ensures cause { KeepCause self.old.script.faults self.new.script.faults result }
        ensures scripted { IsScripted self.old self.new result }
    {
        if self.script.begin() {
            return Err(KeepFault::Failed);
        }
        Ok(copied(self.alloc, self.rows.job(number))?)
    }

    fn unfinished(&mut self, kind: &JobKind) -> Result<Option<JobRow>, KeepFault>
        ensures told { Reads (Some self.old.rows) result (λ t. unfinished_of t kind.now) }
        ensures rows { Some self.new.rows ≡ Some self.old.rows }
        ensures cause { KeepCause self.old.script.faults self.new.script.faults result }
        ensures scripted { IsScripted self.old self.new result }
    {
        if self.script.begin() {
            return Err(KeepFault::Failed);
        }
        Ok(copied(self.alloc, first_unfinished(self.rows.jobs(), kind))?)
    }

    fn candidate(&mut self, job: u64, digest: &Digest) -> Result<Option<Candidate>, KeepFault>
        ensures told { Reads (Some self.old.rows) result (λ t. candidate_at t job digest.now) }
        ensures rows { Some self.new.rows ≡ Some self.old.rows }
        ensures cause { KeepCause self.old.script.faults self.new.script.faults result }
        ensures scripted { IsScripted self.old self.new result }
    {
        if self.script.begin() {
            return Err(KeepFault::Failed);
        }
        Ok(copied(self.alloc, self.rows.candidate(job, digest))?)
    }

    fn snap(&mut self, job: u64, name: &Name, tag: &Tag) -> Result<Option<SnapTag>, KeepFault>
        ensures told { Reads (Some self.old.rows) result (λ t. snap_at t job name.now tag.now) }
        ensures rows { Some self.new.rows ≡ Some self.old.rows }
        ensures cause { KeepCause self.old.script.faults self.new.script.faults result }
        ensures scripted { IsScripted self.old self.new result }
    {
        if self.script.begin() {
            return Err(KeepFault::Failed);
        }
        Ok(copied(self.alloc, self.rows.snap(job, name, tag))?)
    }

    fn needed(
        &mut self,
        project: &ProjectName,
        digest: &Digest,
    ) -> Result<Option<ArtifactKey>, KeepFault>
        ensures told { Reads (Some self.old.rows) result (λ t. needing t project.now digest.now) }
        ensures rows { Some self.new.rows ≡ Some self.old.rows }
        ensures cause { KeepCause self.old.script.faults self.new.script.faults result }
        ensures scripted { IsScripted self.old self.new result }
    {
        if self.script.begin() {
            return Err(KeepFault::Failed);
        }
        match first_needing(self.rows.artifacts(), project, digest) {
            Some(row) => Ok(Some(ArtifactKey {
                name: row.name.copy(self.alloc)?,
                digest: row.digest,
            })),
            None => Ok(None),
        }
    }

    fn owner(&mut self, digest: &Digest) -> Result<Option<ProjectName>, KeepFault>
        ensures told { Reads (Some self.old.rows) result (λ t. owner_of t digest.now) }
        ensures rows { Some self.new.rows ≡ Some self.old.rows }
        ensures cause { KeepCause self.old.script.faults self.new.script.faults result }
        ensures scripted { IsScripted self.old self.new result }
    {
        if self.script.begin() {
            return Err(KeepFault::Failed);
        }
        match first_owning(self.rows.pairs(), digest) {
            Some(row) => Ok(Some(row.project.copy(self.alloc)?)),
            None => Ok(None),
        }
    }

    fn parent(&mut self, name: &Name, child: &Digest) -> Result<Option<Digest>, KeepFault>
        ensures told { Reads (Some self.old.rows) result (λ t. parent_of t name.now child.now) }
        ensures rows { Some self.new.rows ≡ Some self.old.rows }
        ensures cause { KeepCause self.old.script.faults self.new.script.faults result }
        ensures scripted { IsScripted self.old self.new result }
    {
        if self.script.begin() {
            return Err(KeepFault::Failed);
        }
        Ok(first_parent(self.rows.artifacts(), name, child).map(|row| row.digest))
    }

    fn page(&mut self, table: Table, after: Option<&Key>) -> Result<Page, KeepFault>
        ensures told { Reads (Some self.old.rows) result (λ t. page_of t table (option_copied after.entry)) }
        ensures behind { IfOk result (IsPageBehind table (option_copied after.entry)) }
        ensures tables { IfSome (Some self.old.rows) AreTables }
        ensures rows { Some self.new.rows ≡ Some self.old.rows }
        ensures cause { KeepCause self.old.script.faults self.new.script.faults result }
        ensures scripted { IsScripted self.old self.new result }
    {
        // For the clause `tables`, which stands after a failure too.
        self.rows.keys_rise();
        if self.script.begin() {
            return Err(KeepFault::Failed);
        }
        Ok(page_behind(self.alloc, &self.rows, table, after)?)
    }
}
