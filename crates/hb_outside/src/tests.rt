ghost use Rattle.std.specs.Prelude.{◌≤◌, IfOk};

use crate::{
    Clock, MemSink, MemSource, ReadFailed, Sink, Source, StdClock, StdSink, StdSource, StepClock,
    WriteFailed,
};
use std::cell::Cell;
use std::io;
use std::io::{ErrorKind, Read, Write};
use std::test::Fail;
use std::time::Duration;

// What a reader or a writer of these tests does at one call.
#[derive(Clone, Copy)]
enum Turn {
    Moves(usize),
    Fails(ErrorKind),
}

// A reader that does these turns, one a call, and is at its end then.
#[derive(Drop)]
struct TurnReader<'a> {
    turns: &'a [Turn],
    bytes: &'a [u8],
}

impl Read for TurnReader<'_> {
    fn read(&mut self, buf: &mut [u8]) -> io::Result<usize> {
        let Some((turn, later)) = self.turns.split_first() else {
            return Ok(0);
        };
        self.turns = later;
        match *turn {
            Turn::Fails(kind) => Err(kind.into()),
            Turn::Moves(most) => {
                let count = most.min(buf.len()).min(self.bytes.len());
                buf[..count].copy_from_slice(&self.bytes[..count]);
                self.bytes = &self.bytes[count..];
                Ok(count)
            }
        }
    }
}

// A reader of which each read is interrupted.
#[derive(Drop)]
struct Interrupted {
    reads: u32,
}

impl Read for Interrupted {
    fn read(&mut self, _buf: &mut [u8]) -> io::Result<usize> {
        self.reads = self.reads.saturating_add(1);
        Err(ErrorKind::Interrupted.into())
    }
}

// A writer that does these turns, one a call, and takes all then.
#[derive(Drop)]
struct TurnWriter<'a> {
    turns: &'a [Turn],
    flushes: bool,
    got: Vec<u8>,
}

impl Write for TurnWriter<'_> {
    fn write(&mut self, buf: &[u8]) -> io::Result<usize> {
        let Some((turn, later)) = self.turns.split_first() else {
            self.got.extend_from_slice(buf)?;
            return Ok(buf.len());
        };
        self.turns = later;
        match *turn {
            Turn::Fails(kind) => Err(kind.into()),
            Turn::Moves(most) => {
                let count = most.min(buf.len());
                self.got.extend_from_slice(&buf[..count])?;
                Ok(count)
            }
        }
    }

    fn flush(&mut self) -> io::Result<()> {
        if self.flushes {
            Ok(())
        } else {
            Err(ErrorKind::Interrupted.into())
        }
    }
}

// A runtime whose clock reads these moments in turn, and can't be read at `None` and past them.
#[derive(Drop)]
struct Readings<'a> {
    moments: Cell<&'a [Option<u64>]>,
}

impl std::time::Clock for Readings<'_> {
    fn monotonic(&self) -> io::Result<Duration> {
        Err(ErrorKind::Unsupported.into())
    }

    fn since_1970(&self) -> io::Result<Duration> {
        let Some((moment, later)) = self.moments.get().split_first() else {
            return Err(ErrorKind::Unsupported.into());
        };
        self.moments.set(later);
        match moment {
            Some(seconds) => Ok(Duration::new(*seconds, 999_999_999)),
            None => Err(ErrorKind::Unsupported.into()),
        }
    }
}

fn read_four<S: Source>(source: &mut S, into: &mut [u8; 4]) -> Result<usize, ReadFailed>
    ensures { IfOk result (λ n. n ≤ 4) }
{
    source.read(into)
}

fn write_both<S: Sink>(sink: &mut S, one: &[u8], other: &[u8]) -> Result<(), WriteFailed> {
    sink.write(one)?;
    sink.write(other)
}

fn now_and_then<C: Clock>(clock: &mut C) -> (u64, u64) {
    (clock.now(), clock.now())
}

#[test]
fn a_source_in_memory_gives_its_cuts(rt: HostRuntime) -> Result<(), Fail> {
    let cuts = [3, 0, 2].to_vec(rt.alloc())?;
    let fails = [2].to_vec(rt.alloc())?;
    let mut source = MemSource::new(b"abcdefgh".to_vec(rt.alloc())?, cuts, fails);
    let wants: [Option<&[u8]>; 7] = [
        Some(b"abc"),
        None,
        Some(b"d"),
        Some(b"ef"),
        Some(b"gh"),
        Some(b""),
        Some(b""),
    ];
    for want in wants {
        let mut into = [0u8; 4];
        match read_four(&mut source, &mut into) {
            Ok(count) => assert_eq!(rt; Some(&into[..count]), want),
            Err(ReadFailed) => assert!(rt; want.is_none()),
        }
    }
    assert_eq!(rt; (source.script.calls(), source.script.faults()), (7, 1));
    Ok(())
}

#[test]
fn a_sink_in_memory_has_its_room(rt: HostRuntime) -> Result<(), Fail> {
    let mut sink = MemSink::new(rt.alloc(), 5, Vec::new(rt.alloc()))?;
    write_both(&mut sink, b"ab", b"c")?;
    assert_eq!(rt; sink.write(b"defg"), Err(WriteFailed));
    assert_eq!(rt; sink.write(b""), Ok(()));
    assert_eq!(rt; sink.bytes(), b"abcde".as_slice());
    assert_eq!(rt; (sink.script.calls(), sink.script.faults()), (4, 1));
    let mut sink = MemSink::new(rt.alloc(), 5, [2].to_vec(rt.alloc())?)?;
    assert_eq!(rt; write_both(&mut sink, b"a", b"lost"), Err(WriteFailed));
    assert_eq!(rt; write_both(&mut sink, b"b", b"cde"), Ok(()));
    assert_eq!(rt; sink.bytes(), b"abcde".as_slice());
    Ok(())
}

#[test]
fn a_step_clock_steps(rt: HostRuntime) {
    let mut clock = StepClock::new(5, 2);
    assert_eq!(rt; now_and_then(&mut clock), (5, 7));
    assert_eq!(rt; now_and_then(&mut clock.twin()), (9, 11));
    assert_eq!(rt; now_and_then(&mut clock), (9, 11));
    let mut last = StepClock::new(u64::MAX - 1, 5);
    assert_eq!(rt; now_and_then(&mut last), (u64::MAX - 1, u64::MAX));
    assert_eq!(rt; last.now(), u64::MAX);
}

#[test]
fn a_source_over_a_reader_goes_on(rt: HostRuntime) {
    let interrupted = Turn::Fails(ErrorKind::Interrupted);
    let turns = [
        interrupted,
        interrupted,
        Turn::Moves(2),
        Turn::Moves(1),
        Turn::Fails(ErrorKind::TimedOut),
        interrupted,
        Turn::Moves(9),
    ];
    let mut source = StdSource::new(TurnReader {
        turns: &turns,
        bytes: b"abcdef",
    });
    let wants: [Option<&[u8]>; 5] = [Some(b"ab"), Some(b"c"), None, Some(b"def"), Some(b"")];
    for want in wants {
        let mut into = [0u8; 4];
        match read_four(&mut source, &mut into) {
            Ok(count) => assert_eq!(rt; Some(&into[..count]), want),
            Err(ReadFailed) => assert!(rt; want.is_none()),
        }
    }
}

#[test]
fn a_source_gives_up_on_interrupts(rt: HostRuntime) {
    let mut reader = Interrupted { reads: 0 };
    let mut into = [0u8; 4];
    assert_eq!(rt;
        read_four(&mut StdSource::new(&mut reader), &mut into),
        Err(ReadFailed)
    );
    assert_eq!(rt; reader.reads, 1_000);
}

#[test]
fn a_sink_over_a_writer_writes_all(rt: HostRuntime) -> Result<(), Fail> {
    let rows: [(&[Turn], bool, bool, &[u8]); 5] = [
        (&[], true, true, b"abcdef"),
        (
            &[
                Turn::Moves(2),
                Turn::Fails(ErrorKind::Interrupted),
                Turn::Moves(1),
            ],
            true,
            true,
            b"abcdef",
        ),
        (&[Turn::Moves(2), Turn::Moves(0)], true, false, b"ab"),
        (
            &[Turn::Moves(1), Turn::Fails(ErrorKind::BrokenPipe)],
            true,
            false,
            b"a",
        ),
        (&[], false, false, b"abcd"),
    ];
    for (turns, flushes, written, got) in rows {
        let mut writer = TurnWriter {
            turns,
            flushes,
            got: Vec::new(rt.alloc()),
        };
        let outcome = write_both(&mut StdSink::new(&mut writer), b"abcd", b"ef");
        assert_eq!(rt; outcome.is_ok(), written);
        assert_eq!(rt; writer.got.as_slice(), got);
    }
    Ok(())
}

#[test]
fn a_clock_that_cannot_be_read_keeps_its_last_reading(rt: HostRuntime) {
    let moments = [None, Some(7), None, Some(9)];
    let runtime = Readings {
        moments: Cell::new(&moments),
    };
    let mut clock = StdClock::new(&runtime);
    assert_eq!(rt; now_and_then(&mut clock), (0, 7));
    let mut twin = clock.twin();
    assert_eq!(rt; now_and_then(&mut clock), (7, 9));
    assert_eq!(rt; now_and_then(&mut twin), (7, 7));
}

#[test]
fn failures_tell_what_failed(rt: HostRuntime) -> Result<(), Fail> {
    let both = format!(in rt.alloc(); "{ReadFailed}, {WriteFailed}")?;
    assert_eq!(rt; both.as_str(), "read failed, write failed");
    Ok(())
}
