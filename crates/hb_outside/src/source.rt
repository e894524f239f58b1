ghost use Rattle.std.specs.Prelude.{◌≡◌, ◌↔◌, ◌<◌, ◌≤◌, ◌+◌, ◌++◌, ◌-◌, ℕ, Bool, false, List, length, take, drop, min, max, slice_get, Some, IfOk, IsErr};
ghost use Rattle.std.specs.Option.{option_map_or};
ghost use Rattle.std.specs.declared.option.Option.{Option};
ghost use Rattle.hb_outside.specs.Causes.{HasCause};
ghost use Rattle.hb_outside.specs.Scripts.{IsNext, Counts};
ghost use Rattle.hb_outside.specs.Streams.{ReadGives, ReadEnds};

use crate::script::Script;
use std::error::Error;
use std::fmt;

/// A read failed: it took no byte.
#[derive(Clone, Copy, Debug, PartialEq, Eq, Hash)]
pub struct ReadFailed;

impl fmt::Display for ReadFailed {
    fn fmt<W: fmt::Write>(&self, f: &mut fmt::Formatter<W>) -> fmt::Result {
        write!(f, "read failed")
    }
}

impl Error for ReadFailed {}

/// Where bytes come from, in order.
pub trait Source {
    /// The bytes that are left, where the source tells them.
    ghost left: { Self → Option (List ℕ) };

    /// Whether a read has met the end of the input.
    ghost ended: { Self → Bool };

    /// How often a read has failed. It never falls.
    ghost faults: { Self → ℕ };

    /// Takes the next bytes into the front of `into`, and tells how many: 0 is the end of the input,
    /// and nothing else sets the mark of the end. After `ReadFailed`, which comes only where the count
    /// of faults rose, no byte was taken.
    fn read(&mut self, into: &mut [u8]) -> Result<usize, ReadFailed>
        requires { 0 < length into.old }
        ensures bound { IfOk result (λ n. n ≤ length into.new) }
        ensures bytes { ReadGives (left self.old) (left self.new) result into.new }
        ensures end { ReadEnds (ended self.old) (ended self.new) (left self.new) result }
        ensures cause { HasCause (faults self.old) (faults self.new) result };
}

/// A source in memory.
#[derive(Drop)]
pub struct MemSource {
    /// Its calls. One that the script names fails, and no other does.
    pub script: Script,
    bytes: Vec<u8>,
    place: usize,
    cuts: Vec<usize>,
    cut: usize,
    ended: bool,
    ghost inside: { place ≤ length bytes.items },
}

impl MemSource {
    ghost use Rattle.hb_outside.specs.Sources.{bytes_left};

    /// A source of these bytes. The n-th read that doesn't fail gives at most as many bytes as the n-th
    /// of `cuts`, where 0 counts as 1; past the list a read fills `into`. The reads whose numbers,
    /// counted from 1, stand in `fails` fail.
    pub fn new(bytes: Vec<u8>, cuts: Vec<usize>, fails: Vec<u64>) -> MemSource
        ensures bytes { bytes_left result ≡ bytes.items }
        ensures cuts { (result.cuts.items ≡ cuts.items) × (result.cut ≡ 0) }
        ensures ended { result.ended ≡ false }
        ensures script { result.script ≡ record { calls = 0; faults = 0; fails = fails.items } }
    {
        MemSource {
            script: Script::new(fails),
            bytes,
            place: 0,
            cuts,
            cut: 0,
            ended: false,
        }
    }
}

// The most bytes that the next read gives into so much room.
fn most_of(cuts: &[usize], cut: usize, room: usize) -> usize
    requires { 0 < room }
    ensures is { result ≡ option_map_or (λ most. min room (max most 1)) (slice_get cuts.now cut) room }
    ensures some { 0 < result }
    ensures room { result ≤ room }
{
    match cuts.get(cut) {
        Some(most) => room.min(*most.max(&1)),
        None => room,
    }
}

// Copies the bytes from a place on, at most so many.
fn copy_some(bytes: &[u8], place: usize, most: usize, into: &mut [u8]) -> usize
    requires inside { place ≤ length bytes.now }
    requires some { 0 < most }
    requires room { most ≤ length into.old }
    ensures within { place + result ≤ length bytes.now }
    ensures count { result ≤ length into.new }
    ensures bytes { drop place bytes.now ≡ take result into.new ++ drop (place + result) bytes.now }
    ensures end { result ≡ 0 → place ≡ length bytes.now }
    ensures amount { result ≡ min most (length bytes.now - place) }
{
    let count = most.min(bytes.len() - place);
    into[..count].copy_from_slice(&bytes[place..place + count]);
    count
}

impl Source for MemSource {
    ghost use Rattle.hb_outside.specs.Sources.{bytes_left, Cuts};

    ghost left = { λ s. Some (bytes_left s) };

    ghost ended = { λ s. s.ended };

    ghost faults = { λ s. s.script.faults };

    fn read(&mut self, into: &mut [u8]) -> Result<usize, ReadFailed>
        requires { 0 < length into.old }
        ensures bound { IfOk result (λ n. n ≤ length into.new) }
        ensures bytes { ReadGives (Some (bytes_left self.old)) (Some (bytes_left self.new)) result into.new }
        ensures end { ReadEnds self.old.ended self.new.ended (Some (bytes_left self.new)) result }
        ensures cause { HasCause self.old.script.faults self.new.script.faults result }

        // It fails exactly where the script says, and else gives what the cuts say.
        ensures scripted { IsErr result ↔ IsNext self.old.script }
        ensures counted { Counts self.old.script self.new.script result }
        ensures cuts { Cuts self.old self.new (length into.old) result }
        ensures same_cuts { self.new.cuts.items ≡ self.old.cuts.items }
    {
        if self.script.begin() {
            return Err(ReadFailed);
        }
        let most = most_of(&self.cuts, self.cut, into.len());
        self.cut = self.cut.saturating_add(1);
        let count = copy_some(&self.bytes, self.place, most, into);
        if count == 0 {
            self.ended = true;
        }
        self.place += count;
        Ok(count)
    }
}
