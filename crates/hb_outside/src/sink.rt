ghost use Rattle.std.specs.Prelude.{◌≡◌, ◌<◌, ◌≤◌, ◌+◌, ◌++◌, ◌↔◌, ◌⊎◌, ℕ, [], List, length, take, Some, IfOk, IsErr, vec_len};
ghost use Rattle.std.specs.Vec.{vec_capacity};
ghost use Rattle.std.specs.declared.option.Option.{Option};
ghost use Rattle.hb_outside.specs.Causes.{HasCause};
ghost use Rattle.hb_outside.specs.Scripts.{IsNext, Counts};
ghost use Rattle.hb_outside.specs.Streams.{WriteAdds};

use crate::script::Script;
use hb_base::Memory;
use std::alloc::Global;
use std::error::Error;
use std::fmt;

/// A write failed: a part of the piece was written, from its front on.
#[derive(Clone, Copy, Debug, PartialEq, Eq, Hash)]
pub struct WriteFailed;

impl fmt::Display for WriteFailed {
    fn fmt<W: fmt::Write>(&self, f: &mut fmt::Formatter<W>) -> fmt::Result {
        write!(f, "write failed")
    }
}

impl Error for WriteFailed {}

/// Where bytes go, in order.
pub trait Sink {
    /// The bytes that it holds, where the sink tells them.
    ghost held: { Self → Option (List ℕ) };

    /// How often a write has failed. It never falls.
    ghost faults: { Self → ℕ };

    /// Writes all of the piece. After `WriteFailed`, which comes only where the count of faults rose,
    /// a part of it was written, from its front on.
    fn write(&mut self, piece: &[u8]) -> Result<(), WriteFailed>
        ensures bytes { WriteAdds (held self.old) (held self.new) result piece.now }
        ensures cause { HasCause (faults self.old) (faults self.new) result };
}

/// A sink in memory with a room, which it takes when it is made.
#[derive(Drop)]
pub struct MemSink {
    /// Its calls. One that the script names fails and writes nothing. One whose piece is longer than
    /// what is left of the room fails too and fills the room. No other fails.
    pub script: Script,
    bytes: Vec<u8>,
    room: usize,
    ghost fits: { vec_len bytes ≤ room },
    ghost taken: { room ≤ vec_capacity bytes },
}

impl MemSink {
    /// An empty sink with room for so many bytes. The writes whose numbers, counted from 1, stand in
    /// `fails` fail. `Memory` where the room can't be had.
    pub fn new(alloc: Global, room: usize, fails: Vec<u64>) -> Result<MemSink, Memory>
        ensures empty { IfOk result (λ s. s.bytes.items ≡ []) }
        ensures room { IfOk result (λ s. s.room ≡ room) }
        ensures script { IfOk result (λ s. s.script ≡ record { calls = 0; faults = 0; fails = fails.items }) }
    {
        Ok(MemSink {
            script: Script::new(fails),
            bytes: Vec::with_capacity(alloc, room)?,
            room,
        })
    }

    /// What was written.
    pub fn bytes(&self) -> &[u8]
        ensures { result.now ≡ self.now.bytes.items }
    {
        self.bytes.as_slice()
    }
}

impl Sink for MemSink {
    ghost held = { λ s. Some s.bytes.items };

    ghost faults = { λ s. s.script.faults };

    fn write(&mut self, piece: &[u8]) -> Result<(), WriteFailed>
        ensures bytes { WriteAdds (Some self.old.bytes.items) (Some self.new.bytes.items) result piece.now }
        ensures cause { HasCause self.old.script.faults self.new.script.faults result }

        // It fails exactly where the script says, and then writes nothing, or the room is overrun, and
        // then it fills the room.
        ensures failed { IsErr result ↔ (IsNext self.old.script ⊎ (self.old.room < length self.old.bytes.items + length piece.now)) }
        ensures scripted { IsNext self.old.script → self.new.bytes.items ≡ self.old.bytes.items }
        ensures written { ¬ (IsNext self.old.script) → self.new.bytes.items ≡ take self.old.room (self.old.bytes.items ++ piece.now) }
        ensures room { self.new.room ≡ self.old.room }
        ensures counted { Counts self.old.script self.new.script result }
    {
        if self.script.begin() {
            return Err(WriteFailed);
        }
        let part = piece.len().min(self.room - self.bytes.len());
        match self.bytes.extend_from_slice(&piece[..part]) {
            Ok(()) => {}
            Err(_) => unreachable!(),
        }
        if part < piece.len() {
            self.script.fault();
            return Err(WriteFailed);
        }
        Ok(())
    }
}
