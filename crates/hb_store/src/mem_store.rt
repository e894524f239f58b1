ghost use Rattle.std.specs.Prelude.{◌≡◌, ◌≤◌, ◌+◌, ◌<◌, ◌↔◌, ◌⊎◌, ◌∷◌, ℕ, [], length, take, Some, IfOk, OnOk, OnErr, IsErr, IsErrOf, IsNone, IfSome, IfNone};
ghost use Rattle.hb_base.specs.Tables.{with_row};
ghost use Rattle.std.specs.Ordering.{nat_cmp};
ghost use Rattle.std.specs.Option.{option_copied};
ghost use Rattle.hb_outside.specs.Scripts.{IsNext, Begun};
ghost use Rattle.hb_store.specs.Contents.{digest_cmp, held_key, stage_key, staged_in, staged_bytes, bytes_of, held_in, at_moment, counting};
ghost use Rattle.hb_store.specs.Calls.{Becomes, Unchanged, Staging, Placing, Dropping, Stages, Fetches};
ghost use Rattle.hb_store.specs.Causes.{StoreCause};
ghost use Rattle.hb_store.specs.Counts.{Counted};

use crate::mem_reader::MemReader;
use crate::mem_stage::MemStage;
use crate::rows::{HeldBlob, Lapsing, Placed, StagedBytes};
use crate::store::{Stage, Store, StoreFault};
use hb_base::{Memory, find, put, remove};
use hb_outside::Script;
use hb_text::{Digest, Text};
use std::alloc::Global;

/// A store in memory.
#[derive(Drop)]
pub struct MemStore {
    /// Its calls. One that the script names fails and changes nothing but the clock, where a `place`
    /// still counts its content as placed. A stage of fewer bytes than are asked for and a digest that
    /// isn't held are counted faults too. No other fails.
    pub script: Script,
    alloc: Global,
    stages: Vec<StagedBytes>,
    held: Vec<HeldBlob>,
    lapsing: Vec<Lapsing>,
    clock: u64,
    placed: Vec<Placed>,
    stage_fails: Vec<u64>,
    reader_fails: Vec<u64>,
}

impl MemStore {
    ghost use Rattle.hb_store.specs.MemStores.{contents_of, empty_contents};

    /// An empty store. Its calls whose numbers, counted from 1, stand in `fails` fail.
    pub fn new(alloc: Global, fails: Vec<u64>) -> MemStore
        ensures empty { contents_of result ≡ empty_contents }
        ensures script { result.script ≡ record { calls = 0; faults = 0; fails = fails.items } }
        ensures stage_fails { result.stage_fails.items ≡ [] }
        ensures reader_fails { result.reader_fails.items ≡ [] }
    {
        MemStore::with_scripts(alloc, fails, Vec::new(alloc), Vec::new(alloc))
    }

    /// An empty store whose calls fail as those of `new`, and whose every stage and every reader fails at
    /// its own calls that the other two lists name.
    pub fn with_scripts(
        alloc: Global,
        fails: Vec<u64>,
        stage_fails: Vec<u64>,
        reader_fails: Vec<u64>,
    ) -> MemStore
        ensures empty { contents_of result ≡ empty_contents }
        ensures script { result.script ≡ record { calls = 0; faults = 0; fails = fails.items } }
        ensures stage_fails { result.stage_fails.items ≡ stage_fails.items }
        ensures reader_fails { result.reader_fails.items ≡ reader_fails.items }
    {
        MemStore {
            script: Script::new(fails),
            alloc,
            stages: Vec::new(alloc),
            held: Vec::new(alloc),
            lapsing: Vec::new(alloc),
            clock: 0,
            placed: Vec::new(alloc),
            stage_fails,
            reader_fails,
        }
    }
}

// The bytes of an upload's stage, none where it has no stage.
fn bytes_staged<'a>(stages: &'a [StagedBytes], id: u64) -> &'a [u8]
    ensures { result.now ≡ staged_in id stages.now }
{
    match find(stages, &id) {
        Some(row) => row.bytes.bytes(),
        None => &[],
    }
}

// The first bytes of an upload's stage, or none where there are fewer.
fn first_bytes<'a>(stages: &'a [StagedBytes], id: u64, keep: u64) -> Option<&'a [u8]>
    ensures some { IfSome result (λ kept. kept.now ≡ take keep (staged_in id stages.now)) }
    ensures enough { IfSome result (λ _. keep ≤ length (staged_in id stages.now)) }
    ensures short { IfNone result (length (staged_in id stages.now) < keep) }
{
    let bytes = bytes_staged(stages, id);
    if keep <= bytes.len() as u64 {
        Some(&bytes[..keep as usize])
    } else {
        None
    }
}

// Makes these bytes the upload's stage, and gives a stage of them with a script of its own. After
// `Memory` the table is as before.
fn restage(
    alloc: Global,
    stages: &mut Vec<StagedBytes>,
    id: u64,
    kept: Text,
    fails: &Vec<u64>,
) -> Result<MemStage, Memory>
    ensures ok { OnOk result (stages.new.items ≡ with_row nat_cmp stage_key (record { id = id; bytes = kept }) stages.old.items) }
    ensures stage { IfOk result (λ s. (s.upload ≡ id) × (s.bytes.items ≡ kept)) }
    ensures script { IfOk result (λ s. s.script ≡ record { calls = 0; faults = 0; fails = fails.now.items }) }
    ensures err { OnErr result (stages.new.items ≡ stages.old.items) }
{
    let bytes = Vec::from_slice(alloc, kept.bytes())?;
    let fails = fails.clone()?;
    stages.reserve(1)?;
    put(stages, StagedBytes { id, bytes: kept });
    Ok(MemStage::new(id, bytes, fails))
}

// Counts a content as placed. After `Memory` the list is as before.
fn count_placed(placed: &mut Vec<Placed>, digest: &Digest, size: u64) -> Result<(), Memory>
    ensures ok { OnOk result (placed.new.items ≡ record { digest = digest.now; size = size } ∷ placed.old.items) }
    ensures err { OnErr result (placed.new.items ≡ placed.old.items) }
{
    placed.insert(
        0,
        Placed {
            digest: *digest,
            size,
        },
    )?;
    Ok(())
}

// Holds these bytes under the digest, and counts them as placed. After `Memory` both tables are as
// before.
fn hold(
    held: &mut Vec<HeldBlob>,
    placed: &mut Vec<Placed>,
    digest: &Digest,
    bytes: Text,
) -> Result<(), Memory>
    ensures held { OnOk result (held.new.items ≡ with_row digest_cmp held_key (record { digest = digest.now; bytes = bytes }) held.old.items) }
    ensures placed { OnOk result (placed.new.items ≡ record { digest = digest.now; size = length bytes } ∷ placed.old.items) }
    ensures err { OnErr result ((held.new.items ≡ held.old.items) × (placed.new.items ≡ placed.old.items)) }
{
    held.reserve(1)?;
    count_placed(placed, digest, bytes.bytes().len() as u64)?;
    put(
        held,
        HeldBlob {
            digest: *digest,
            bytes,
        },
    );
    Ok(())
}

// The bytes held under a digest.
fn bytes_held<'a>(held: &'a [HeldBlob], digest: &Digest) -> Option<&'a [u8]>
    ensures { option_copied result ≡ held_in digest.now held.now }
{
    match find(held, digest) {
        Some(row) => Some(row.bytes.bytes()),
        None => None,
    }
}

impl Store for MemStore {
    ghost use Rattle.hb_store.specs.MemReaders.{bytes_left};
    ghost use Rattle.hb_store.specs.MemStores.{contents_of, SameScripts};

    type Stage = MemStage;

    type Reader = MemReader;

    ghost contents = { λ s. Some (contents_of s) };

    ghost faults = { λ s. s.script.faults };

    fn stage(&mut self, id: u64, keep: u64, now: u64) -> Result<MemStage, StoreFault>
        ensures contents { Becomes (Some (contents_of self.old)) now (Staging id keep result) (Some (contents_of self.new)) }
        ensures made { IfOk result (λ s. (s.upload ≡ id) × (length s.bytes.items ≡ keep)) }
        ensures told { IfOk result (λ s. Stages (Some (contents_of self.new)) id keep (Some s.bytes.items)) }
        ensures cause { StoreCause self.old.script.faults self.new.script.faults result }

        // It fails exactly where the script says, or too few bytes are there, and changes the clock alone.
        ensures failed { IsErrOf result StoreFault.Failed ↔ (IsNext self.old.script ⊎ (length (staged_bytes (contents_of self.old) id) < keep)) }
        ensures unchanged { OnErr result (contents_of self.new ≡ at_moment now (contents_of self.old)) }
        ensures counted { Counted self.old.script self.new.script result }
        ensures scripts { SameScripts self.old self.new }
        ensures script { IfOk result (λ s. s.script ≡ record { calls = 0; faults = 0; fails = self.old.stage_fails.items }) }
    {
        self.clock = self.clock.max(now);
        if self.script.begin() {
            return Err(StoreFault::Failed);
        }
        let Some(kept) = first_bytes(&self.stages, id, keep) else {
            self.script.fault();
            return Err(StoreFault::Failed);
        };
        let kept = Text::new(self.alloc, kept)?;
        let stage = restage(self.alloc, &mut self.stages, id, kept, &self.stage_fails)?;
        Ok(stage)
    }

    fn place(
        &mut self,
        id: u64,
        stage: MemStage,
        digest: &Digest,
        now: u64,
    ) -> Result<(), StoreFault>
        ensures contents { Becomes (Some (contents_of self.old)) now (Placing id (Some stage.bytes.items) digest.now result) (Some (contents_of self.new)) }
        ensures cause { StoreCause self.old.script.faults self.new.script.faults result }

        // It fails where the script says and nowhere else, and then only counts the content as placed,
        // which may want memory.
        ensures scripted { IsNext self.old.script → IsErr result }
        ensures failed { IsErrOf result StoreFault.Failed → IsNext self.old.script }
        ensures unheld { IsErrOf result StoreFault.Failed → contents_of self.new ≡ counting digest.now stage.bytes.items (at_moment now (contents_of self.old)) }
        ensures unchanged { IsErrOf result StoreFault.Memory → contents_of self.new ≡ at_moment now (contents_of self.old) }
        ensures begun { Begun self.old.script self.new.script }
        ensures scripts { SameScripts self.old self.new }
    {
        self.clock = self.clock.max(now);
        if self.script.begin() {
            count_placed(&mut self.placed, digest, stage.len())?;
            return Err(StoreFault::Failed);
        }
        hold(&mut self.held, &mut self.placed, digest, stage.into_bytes())?;
        remove(&mut self.stages, &id);
        Ok(())
    }

    fn fetch(&mut self, digest: &Digest, now: u64) -> Result<MemReader, StoreFault>
        ensures contents { Becomes (Some (contents_of self.old)) now Unchanged (Some (contents_of self.new)) }
        ensures told { IfOk result (λ r. Fetches (Some (contents_of self.new)) digest.now (Some (bytes_left r)) (length (bytes_left r))) }
        ensures cause { StoreCause self.old.script.faults self.new.script.faults result }

        // It fails exactly where the script says, or nothing is held under the digest.
        ensures failed { IsErrOf result StoreFault.Failed ↔ (IsNext self.old.script ⊎ (bytes_of (contents_of self.old) digest.now ≡ None)) }
        ensures unchanged { contents_of self.new ≡ at_moment now (contents_of self.old) }
        ensures counted { Counted self.old.script self.new.script result }
        ensures scripts { SameScripts self.old self.new }
        ensures script { IfOk result (λ r. r.script ≡ record { calls = 0; faults = 0; fails = self.old.reader_fails.items }) }
    {
        self.clock = self.clock.max(now);
        if self.script.begin() {
            return Err(StoreFault::Failed);
        }
        let Some(bytes) = bytes_held(&self.held, digest) else {
            self.script.fault();
            return Err(StoreFault::Failed);
        };
        let bytes = Vec::from_slice(self.alloc, bytes)?;
        let fails = self.reader_fails.clone()?;
        Ok(MemReader::new(bytes, fails))
    }

    fn drop_stage(&mut self, id: u64, now: u64) -> Result<(), StoreFault>
        ensures contents { Becomes (Some (contents_of self.old)) now (Dropping id result) (Some (contents_of self.new)) }
        ensures cause { StoreCause self.old.script.faults self.new.script.faults result }

        // It fails exactly where the script says, and changes the clock alone.
        ensures failed { IsErr result ↔ IsNext self.old.script }
        ensures unchanged { OnErr result (contents_of self.new ≡ at_moment now (contents_of self.old)) }
        ensures counted { Counted self.old.script self.new.script result }
        ensures scripts { SameScripts self.old self.new }
    {
        self.clock = self.clock.max(now);
        if self.script.begin() {
            return Err(StoreFault::Failed);
        }
        remove(&mut self.stages, &id);
        Ok(())
    }
}
