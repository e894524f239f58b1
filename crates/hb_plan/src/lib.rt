//! What a world answers to an ask, decided over the rows of a keeper, and the batch of its entry.
//!
//! The desk's replies are defined over the audit (`hb_desk`, `specs/Reply`). Here they are read over rows, so
//! that they can be decided by a few look-ups.
//!
//! - `specs/RowRefusals`, `specs/RowReplies`: the replies, read over rows.
//! - `specs/BuiltAudits`, [`laws`]: where rows stand and the audit keeps to the kinds that are built, these are
//!   the desk's replies.
//! - `specs/Plans`, [`plan`]: what an ask is told, and its batch. Nothing is committed here.
//!
//! A plan looks up (`finding`), decides by what it found (`deciding`, `asks`), and makes the batch
//! (`batches`).
#![tactic(auto)]

mod asks;
mod batches;
mod deciding;
mod finding;
pub mod laws;
mod planned;
mod plans;
#[cfg(test)]
mod tests;

pub use finding::find_artifact;
pub use planned::Planned;
pub use plans::plan;
