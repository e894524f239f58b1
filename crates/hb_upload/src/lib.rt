//! Uploads of bytes, as operations over any desk: each makes one event a step.
//!
//! - [`Push`]: a blob whose bytes are there at once. An upload begins, is staged, sealed and placed, and the project
//!   gets what was placed. `specs/Places` says which call it makes where, and `specs/Deciding` what it is answered, read
//!   from the points of its events.
#![tactic(auto)]

mod phase;
mod push;
mod steps;
#[cfg(test)]
mod tests;

pub use phase::Stop;
pub use push::Push;
