//! One connection over a desk: requests are read, done, and answered.
//!
//! - [`talk`]: reads requests from a source and writes their answers to a sink, until the input ends, a request closes the
//!   connection, or a device fails. It works over every [`hb_desk::Desk`], whatever others do between its events.
//! - [`TalkEnd`]: how it ended.
//! - [`longest_body`]: how long a body may be.
//! - `specs/Talks`: what a talk has done. `specs/Turns`: each request with its answer. `specs/Bodies`: how much of its body
//!   is read, and when it is too long. `specs/Wanting`: what it wants. `specs/Tasks`: what is done for it, and what it is
//!   answered by what came of that. `specs/Texts`: the text of an answer.
#![tactic(auto)]

mod answers;
mod coming;
mod ends;
mod limits;
mod serving;
#[cfg(test)]
mod shared_tests;
mod talks;
#[cfg(test)]
mod tests;
mod texts;
mod wanted;

pub use ends::TalkEnd;
pub use limits::longest_body;
pub use talks::talk;
