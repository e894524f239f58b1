//! Harbor core: the program.
#![tactic(auto)]

mod run;
#[cfg(test)]
mod tests;
#[cfg(test)]
mod wire_tests;

use crate::run::run;
use hb_keeper::MemKeeper;
use hb_outside::{Sink, StdClock, StdSink, StdSource};
use hb_store::MemStore;
use hb_text::{Memory, Text};
use std::alloc::Global;
use std::process::ExitCode;
use std::{env, io};

// The words behind the program's name.
fn words(rt: &HostRuntime) -> io::Result<Vec<Text>> {
    let alloc = rt.alloc();
    let mut words = Vec::new(alloc);
    for word in env::args(rt)?.skip(1) {
        let text = Text::new(alloc, word.as_bytes()).map_err(|_| io::Error::from(
            io::ErrorKind::OutOfMemory,
        ))?;
        words.push(text)?;
    }
    Ok(words)
}

fn main(rt: HostRuntime) -> ExitCode {
    let alloc = rt.alloc();
    let mut out = StdSink::new(io::writer(&rt));
    let words = match words(&rt) {
        Ok(words) => words,
        // No word that isn't UTF-8 is known: these are answered as no words are.
        Err(fault) if fault.kind() == io::ErrorKind::InvalidData => Vec::new(alloc),
        Err(_) => {
            let _written = out.write(b"memory\n");
            return ExitCode::from(7);
        }
    };
    let mut clock = StdClock::new(&rt);
    let mut input = StdSource::new(rt.reader());
    let keeper = MemKeeper::new(alloc, Vec::new(alloc));
    let store = MemStore::new(alloc, Vec::new(alloc));
    let ended = run(
        alloc, &words, &mut clock, &mut input, &mut out, keeper, store,
    );
    ExitCode::from(ended.status)
}
