//! The rows of a registry in memory: ten tables that batches change.
//!
//! - [`Rows`] keeps the tables, each in the order of its keys. [`Rows::apply`] makes a batch's changes, all of
//!   them or none; [`Rows::set`] sets one row. [`Rows::page`] copies the next rows of a table behind a key. The
//!   look-ups by key and the tables as slices lend their rows and copy nothing.
//! - `specs/Tables`: the tables as a record of ten lists. `specs/Batches`: what changes and batches do to it.
//!   `specs/Pages`: the rows of a page. `specs/Lists`: how the tables stand in memory.
//!
//! A look-up, a change and a page look through the rows of their table one by one.
#![tactic(auto)]

mod keyed;
mod lists;
mod rows;
mod sought;
#[cfg(test)]
mod tests;

pub use rows::Rows;
