ghost use Rattle.std.specs.Prelude.{◌≡◌, ◌≤◌, ◌+◌, ◌-◌, ◌++◌, ◌↔◌, ℕ, length, min, take, drop, Some, IfOk, OnOk, OnErr, IsErr, IsErrOf};
ghost use Rattle.hb_outside.specs.Scripts.{IsNext};
ghost use Rattle.hb_store.specs.Bytes.{Appends, StageReads, StageCount};
ghost use Rattle.hb_store.specs.Causes.{StoreCause};
ghost use Rattle.hb_store.specs.Counts.{Counted};

use crate::copying::copy_from;
use crate::store::{Stage, StoreFault};
use hb_outside::Script;
use hb_text::Text;

/// A stage in memory.
#[derive(Drop)]
pub struct MemStage {
    /// Its calls. One that the script names fails and changes nothing, and no other fails.
    pub script: Script,
    pub(crate) upload: u64,
    pub(crate) bytes: Vec<u8>,
}

impl MemStage {
    // A stage of an upload with these bytes, whose calls that the list names fail.
    pub(crate) fn new(upload: u64, bytes: Vec<u8>, fails: Vec<u64>) -> MemStage
        ensures script { result.script ≡ record { calls = 0; faults = 0; fails = fails.items } }
        ensures upload { result.upload ≡ upload }
        ensures bytes { result.bytes.items ≡ bytes.items }
    {
        MemStage {
            script: Script::new(fails),
            upload,
            bytes,
        }
    }

    // Its bytes. It takes no memory.
    pub(crate) fn into_bytes(self) -> Text
        ensures { result ≡ self.bytes.items }
    {
        Text::of(self.bytes)
    }
}

impl Stage for MemStage {
    ghost bytes = { λ s. Some s.bytes.items };

    ghost upload = { λ s. s.upload };

    ghost size = { λ s. length s.bytes.items };

    ghost faults = { λ s. s.script.faults };

    fn len(&self) -> u64 {
        self.bytes.len() as u64
    }

    fn append(&mut self, piece: &[u8]) -> Result<(), StoreFault>
        ensures bytes { Appends (Some self.old.bytes.items) (Some self.new.bytes.items) piece.now result }
        ensures upload { self.new.upload ≡ self.old.upload }
        ensures size { OnOk result (length self.new.bytes.items ≡ length self.old.bytes.items + length piece.now) }
        ensures grows { length self.old.bytes.items ≤ length self.new.bytes.items }
        ensures cause { StoreCause self.old.script.faults self.new.script.faults result }

        // It fails exactly where the script says, and then adds nothing.
        ensures failed { IsErrOf result StoreFault.Failed ↔ IsNext self.old.script }
        ensures unchanged { OnErr result (self.new.bytes.items ≡ self.old.bytes.items) }
        ensures counted { Counted self.old.script self.new.script result }
    {
        if self.script.begin() {
            return Err(StoreFault::Failed);
        }
        match self.bytes.extend_from_slice(piece) {
            Ok(()) => Ok(()),
            Err(_) => Err(StoreFault::Memory),
        }
    }

    fn read(&mut self, place: u64, into: &mut [u8]) -> Result<usize, StoreFault>
        ensures bytes { StageReads (Some self.old.bytes.items) place into.new result }
        ensures count { StageCount (length self.old.bytes.items) place (length into.old) result }
        ensures same { (Some self.new.bytes.items ≡ Some self.old.bytes.items) × (self.new.upload ≡ self.old.upload) × (length self.new.bytes.items ≡ length self.old.bytes.items) }
        ensures cause { StoreCause self.old.script.faults self.new.script.faults result }

        // It fails exactly where the script says, and else gives as much as there is and fits.
        ensures amount { IfOk result (λ n. n ≡ min (length into.old) (length self.old.bytes.items - place)) }
        ensures failed { IsErr result ↔ IsNext self.old.script }
        ensures counted { Counted self.old.script self.new.script result }
    {
        if self.script.begin() {
            return Err(StoreFault::Failed);
        }
        if self.bytes.len() as u64 <= place {
            return Ok(0);
        }
        Ok(copy_from(&self.bytes, place as usize, into))
    }
}
