//! Where the rows of a registry are kept: the trait [`Keeper`], and a keeper in memory.
//!
//! - [`Keeper`]: commits batches, each all or nothing, and tells rows by their keys, the least keys that
//!   answer a question, and tables page by page.
//! - [`MemKeeper`]: in memory. It tells its rows, and fails at the calls that it is told and nowhere else.
//!
//! `specs/Keeps`: what a commit makes of the rows, and when a call fails. `specs/Answers`: the least keys that
//! answer. `specs/PageKeys`: what holds of every page, also where the rows aren't told. `specs/Counts`: when a
//! call of the keeper in memory fails.
#![tactic(auto)]

mod answers;
mod copies;
mod keeper;
mod mem_keeper;

pub use keeper::{KeepFault, Keeper};
pub use mem_keeper::MemKeeper;

#[cfg(test)]
mod tests;
