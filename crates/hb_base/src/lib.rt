//! What every crate above cites: want of memory, copies that may want it, and lists.
//!
//! - [`Memory`] is the one error of a call that can fail for nothing else.
//! - [`Duplicate`] is a copy that may fail for want of memory.
//! - [`Listed`] is a list of values, which contracts see as a list.
//! - [`place`], [`put`], [`remove`] and [`find`] keep a table: rows in the order of their keys, each key once.
//! - [`changes_are_found`], [`keys_still_rise`], [`lookups_tell_the_table`] and [`places_tell_where_rows_go`]
//!   do nothing; their contracts are the laws of tables.
//!
//! Nothing here knows of registries. The texts of one stand in `hb_text`.
#![tactic(auto)]

mod copies;
mod laws;
mod lists;
mod memory;
mod tables;
#[cfg(test)]
mod tests;

pub use copies::Duplicate;
pub use laws::{
    changes_are_found, keys_still_rise, lookups_tell_the_table, places_tell_where_rows_go,
};
pub use lists::Listed;
pub use memory::Memory;
pub use tables::{Ordered, Seeks, find, place, put, remove};
