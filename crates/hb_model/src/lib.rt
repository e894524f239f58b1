//! What the registry means: what clients see after an audit, which audits are legal, which rows are those of an
//! audit, and what every event keeps. docs/DEFINITIONS.md has each definition in a sentence.
//!
//! An audit is the list of its entries, the newest first. The code makes the changes of seven of the 24 kinds of entries,
//! counts afresh what a project uses, and tells whether rows are those of their audit. The definitions and the
//! laws are of all kinds.
//!
//! - [`changes`]: the changes by which a batch makes an entry's effect, of rows that were looked up;
//!   [`changes::changes_of`] looks them up. `specs/Built`: the kinds that are built.
//! - [`usage_of`]: the recount. It is `usage` of `specs/Presence`.
//! - [`fit`]: whether rows fit, or the first [`Misfit`]. `specs/Fit`: what it tells.
//! - [`names`]: the project of a repository.
//! - `specs/Registry`, `specs/Replay`: what clients can see, and what they see after an audit.
//! - `specs/Moves`, `specs/Presence`, `specs/Grace`: which entries are about a digest, whether the store holds it,
//!   what a project uses and needs, and when something may go.
//! - `specs/History`, `specs/Legal..`, `specs/Jobs`, `specs/Snapshots`: which entry may follow an audit.
//! - `specs/Effects` and the effects by theme: what an entry does to the rows. `specs/Changes` and the changes by
//!   theme: the same as a batch. `specs/Seen`: what clients see of rows. `specs/BlobRows`: what becomes of the row
//!   of one digest. `specs/Numbered`, `specs/UsedBound`: what holds of the rows of every audit.
//! - `specs/Sound`, `specs/Whole`: what is promised of stored bytes, and what every event keeps.
//! - [`examples`]: what all of them come to in worked logs, and which entries are legal there.
//! - [`laws`]: what holds of the definitions.
//! - [`quiet`], `specs/Quiet`: entries that touch no content, which keep the registry whole.
#![tactic(auto)]

pub mod changes;
mod comparing;
pub mod examples;
mod fitting;
pub mod laws;
mod misfits;
pub mod names;
pub mod quiet;
mod usage;

pub use fitting::fit;
pub use misfits::Misfit;
pub use usage::usage_of;

#[cfg(test)]
mod tests;
