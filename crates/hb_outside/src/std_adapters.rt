//! Adapters over std: the trusted edge. They are proved against the traits like any implementation,
//! and tell no bytes.
ghost use Rattle.std.specs.Prelude.{◌≡◌, ◌<◌, ◌≤◌, ℕ, length, false, None, IfOk, IfSome, OnOk};
ghost use Rattle.std.specs.Io.{ReadsAtMost};
ghost use Rattle.std.specs.Io.KnownBytes.{ReadConsumes, Appends};
ghost use Rattle.hb_outside.specs.Causes.{HasCause, CountsFault};
ghost use Rattle.hb_outside.specs.Clocks.{behind};
ghost use Rattle.hb_outside.specs.Streams.{ReadGives, ReadEnds, WriteAdds};

use crate::clock::Clock;
use crate::sink::{Sink, WriteFailed};
use crate::source::{ReadFailed, Source};
use std::io;
use std::io::{ErrorKind, Read, Write};
use std::time::{Duration, SystemTime};

// How often in a row an interrupted read is made again.
const TRIES: u32 = 1_000;

/// A source over a reader.
///
/// An interrupted read took nothing, so it is made again, up to 1,000 times in a row. Each other error
/// is `ReadFailed` and a counted fault, and the next read asks the reader again. Bytes in front of an
/// end that the reader reports early, as a closed socket does, are all that there were.
#[derive(Drop)]
pub struct StdSource<R> {
    reader: R,
    ended: bool,
    faults: u64,
}

impl<R: Read> StdSource<R> {
    /// A source that reads from `reader`.
    pub fn new(reader: R) -> StdSource<R>
        ensures reader { result.reader ≡ reader }
        ensures fresh { (result.ended ≡ false) × (result.faults ≡ 0) }
    {
        StdSource {
            reader,
            ended: false,
            faults: 0,
        }
    }
}

// Reads once, and again where the read was interrupted.
fn read_through_interrupts<R: Read>(reader: &mut R, into: &mut [u8]) -> io::Result<usize>
    ensures bound { ReadsAtMost result into.new }
    ensures known { ReadConsumes (R.remaining reader.old) (R.remaining reader.new) result into.new }
{
    for _ in 1..TRIES {
        match reader.read(into) {
            Err(error) if error.kind() == ErrorKind::Interrupted => {}
            outcome => return outcome,
        }
    }
    reader.read(into)
}

impl<R: Read> Source for StdSource<R> {
    ghost left = { λ _. None };

    ghost ended = { λ s. s.ended };

    ghost faults = { λ s. s.faults };

    fn read(&mut self, into: &mut [u8]) -> Result<usize, ReadFailed>
        requires { 0 < length into.old }
        ensures bound { IfOk result (λ n. n ≤ length into.new) }
        ensures bytes { ReadGives None None result into.new }
        ensures end { ReadEnds self.old.ended self.new.ended None result }
        ensures cause { HasCause self.old.faults self.new.faults result }

        // Where the reader's bytes are known, it gives the next of them.
        ensures known { ReadConsumes (R.remaining self.old.reader) (R.remaining self.new.reader) result into.new }
        ensures counted { CountsFault self.old.faults self.new.faults result }
    {
        match read_through_interrupts(&mut self.reader, into) {
            Ok(count) => {
                if count == 0 {
                    self.ended = true;
                }
                Ok(count)
            }
            Err(_) => {
                self.faults = self.faults.saturating_add(1);
                Err(ReadFailed)
            }
        }
    }
}

/// A sink over a writer. Each piece is flushed, since a client waits for it.
///
/// A short write goes on with the rest, and an interrupted one is made again as often as it takes: the
/// `write_all` of std does both. A write that takes nothing, a flush that fails, interrupted ones too,
/// and each other error, as a broken pipe or a full disk, is `WriteFailed` and a counted fault. The
/// writer may have taken a part of the piece then, or where only the flush failed all of it.
#[derive(Drop)]
pub struct StdSink<W> {
    writer: W,
    faults: u64,
}

impl<W: Write> StdSink<W> {
    /// A sink that writes to `writer`.
    pub fn new(writer: W) -> StdSink<W>
        ensures writer { result.writer ≡ writer }
        ensures fresh { result.faults ≡ 0 }
    {
        StdSink { writer, faults: 0 }
    }

    fn write_through(&mut self, piece: &[u8]) -> io::Result<()>
        ensures known { OnOk result (Appends (W.contents self.old.writer) (W.contents self.new.writer) piece.now) }
        ensures faults { self.new.faults ≡ self.old.faults }
    {
        self.writer.write_all(piece)?;
        self.writer.flush()
    }
}

impl<W: Write> Sink for StdSink<W> {
    ghost held = { λ _. None };

    ghost faults = { λ s. s.faults };

    fn write(&mut self, piece: &[u8]) -> Result<(), WriteFailed>
        ensures bytes { WriteAdds None None result piece.now }
        ensures cause { HasCause self.old.faults self.new.faults result }

        // Where the writer's bytes are known, it wrote the piece behind them.
        ensures known { OnOk result (Appends (W.contents self.old.writer) (W.contents self.new.writer) piece.now) }
        ensures counted { CountsFault self.old.faults self.new.faults result }
    {
        match self.write_through(piece) {
            Ok(()) => Ok(()),
            Err(_) => {
                self.faults = self.faults.saturating_add(1);
                Err(WriteFailed)
            }
        }
    }
}

/// The system's clock, in whole seconds. Where it can't be read, or stands before 1970, it gives its
/// last reading, and 0 before the first.
#[derive(Drop)]
pub struct StdClock<'a, R> {
    runtime: &'a R,
    last: u64,
}

impl<'a, R: std::time::Clock> StdClock<'a, R> {
    /// The clock of this runtime.
    pub fn new(runtime: &'a R) -> StdClock<'a, R>
        ensures runtime { result.runtime.now ≡ runtime.now }
        ensures last { result.last ≡ 0 }
    {
        StdClock { runtime, last: 0 }
    }
}

impl<'a, R: std::time::Clock> Clock for StdClock<'a, R> {
    ghost readings = { λ _. None };

    fn now(&mut self) -> u64
        ensures reading { IfSome None (λ (reading : ℕ → ℕ). result ≡ reading 0) }
        ensures goes_on { None ≡ behind None }
        ensures last { self.new.last ≡ result }
    {
        if let Ok(time) = SystemTime::now(self.runtime) {
            if let Ok(since) = time.duration_since(SystemTime::UNIX_EPOCH) {
                self.last = since.as_secs();
            }
        }
        self.last
    }

    fn twin(&self) -> StdClock<'a, R>
        ensures runtime { result.runtime.now ≡ self.now.runtime.now }
        ensures last { result.last ≡ self.now.last }
    {
        StdClock {
            runtime: self.runtime,
            last: self.last,
        }
    }
}
