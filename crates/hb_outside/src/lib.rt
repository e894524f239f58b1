//! The outside, as traits with meanings: where bytes come from, where they go, and what time it is.
//!
//! - [`Source`], [`Sink`] and [`Clock`]: what the registry asks of the outside. A call answers a
//!   failure only where the object's count of faults rose, and says what stands after it.
//! - [`MemSource`], [`MemSink`], [`StepClock`]: in memory. They tell their bytes, and fail at the calls
//!   that a [`Script`] names, a sink also where a piece overruns its room, and nowhere else.
//! - [`StdSource`], [`StdSink`], [`StdClock`]: over std. They tell no bytes, since no contract can say
//!   what a file, a socket or a terminal holds. Where the reader or the writer below tells its own, as
//!   one in memory does, they read those on, or write behind them.
//!
//! What is above is generic over the traits and proved once.
#![tactic(auto)]

mod clock;
mod script;
mod sink;
mod source;
mod std_adapters;

pub use clock::{Clock, StepClock};
pub use script::Script;
pub use sink::{MemSink, Sink, WriteFailed};
pub use source::{MemSource, ReadFailed, Source};
pub use std_adapters::{StdClock, StdSink, StdSource};

#[cfg(test)]
mod tests;
