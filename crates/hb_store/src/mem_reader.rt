ghost use Rattle.std.specs.Prelude.{◌≡◌, ◌≤◌, ◌-◌, ◌↔◌, ℕ, [], length, min, take, drop, Some, IfOk, IsErr};
ghost use Rattle.hb_outside.specs.Scripts.{IsNext};
ghost use Rattle.hb_store.specs.Bytes.{ReaderReads, ReaderCount};
ghost use Rattle.hb_store.specs.Causes.{StoreCause};
ghost use Rattle.hb_store.specs.Counts.{Counted};

use crate::copying::copy_from;
use crate::store::{Reader, StoreFault};
use hb_outside::Script;

/// A reader in memory.
#[derive(Drop)]
pub struct MemReader {
    /// Its calls. One that the script names fails and takes nothing, and no other fails.
    pub script: Script,
    pub(crate) bytes: Vec<u8>,
    pub(crate) place: usize,
    ghost inside: { place ≤ length bytes.items },
}

impl MemReader {
    // A reader of these bytes, whose calls that the list names fail.
    pub(crate) fn new(bytes: Vec<u8>, fails: Vec<u64>) -> MemReader
        ensures script { result.script ≡ record { calls = 0; faults = 0; fails = fails.items } }
        ensures bytes { result.bytes.items ≡ bytes.items }
        ensures place { result.place ≡ 0 }
    {
        MemReader {
            script: Script::new(fails),
            bytes,
            place: 0,
        }
    }
}

impl Reader for MemReader {
    ghost use Rattle.hb_store.specs.MemReaders.{bytes_left};

    ghost bytes = { λ r. Some (bytes_left r) };

    ghost left = { λ r. length (bytes_left r) };

    ghost faults = { λ r. r.script.faults };

    fn left(&self) -> u64 {
        (self.bytes.len() - self.place) as u64
    }

    fn read(&mut self, into: &mut [u8]) -> Result<usize, StoreFault>
        ensures bytes { ReaderReads (Some (bytes_left self.old)) (Some (bytes_left self.new)) into.new result }
        ensures count { ReaderCount (length (bytes_left self.old)) (length (bytes_left self.new)) (length into.old) result }
        ensures cause { StoreCause self.old.script.faults self.new.script.faults result }

        // It fails exactly where the script says, and else gives as much as there is and fits.
        ensures amount { IfOk result (λ n. n ≡ min (length into.old) (length self.old.bytes.items - self.old.place)) }
        ensures failed { IsErr result ↔ IsNext self.old.script }
        ensures counted { Counted self.old.script self.new.script result }
    {
        if self.script.begin() {
            return Err(StoreFault::Failed);
        }
        let count = copy_from(&self.bytes, self.place, into);
        self.place += count;
        Ok(count)
    }
}
