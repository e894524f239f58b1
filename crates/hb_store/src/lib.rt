//! Where blobs are stored: the trait [`Store`] with its stages and readers, and a store in memory.
//!
//! - [`Store`]: stages bytes, places a staged content under a digest, and gives readers of what it holds.
//! - [`Stage`]: bytes on their way in. [`Reader`]: bytes on their way out.
//! - [`MemStore`]: in memory. It tells its contents, and fails at the calls that it is told and nowhere
//!   else, but where this crate itself counts a fault.
//!
//! What a store holds is a `Contents` (`specs/Contents`): the staged bytes by their ids, the held blobs
//! by their digests, the removals that may still take effect, the store's clock, and what was placed.
//! Each call says what it makes of them, where the store tells them.
#![tactic(auto)]

mod copying;
mod mem_reader;
mod mem_stage;
mod mem_store;
mod rows;
mod store;

pub use mem_reader::MemReader;
pub use mem_stage::MemStage;
pub use mem_store::MemStore;
pub use rows::{HeldBlob, Lapsing, Placed, StagedBytes};
pub use store::{Reader, Stage, Store, StoreFault};

#[cfg(test)]
mod tests;
