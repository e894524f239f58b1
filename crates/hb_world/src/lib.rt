//! The registry's state machine, over a keeper of rows and a store of contents.
//!
//! [`World`] is its state. [`World::start`] reads the rows, refuses those that don't fit their audit, and gives rows
//! without an audit their first entry; [`World::close`] hands the devices back. It is a desk (`hb_desk`): each call
//! of it is one event, after which rows, notes and store fit one another (`specs/Worlds`).
//!
//! It never waits and keeps nothing but what it is told.
#![tactic(auto)]

mod asking;
#[cfg(test)]
mod desk_tests;
mod events;
mod looking;
mod opens;
mod reading;
mod refusing;
mod remembered;
mod staging;
#[cfg(test)]
mod start_tests;
mod starting;
mod table_rows;
mod world;

pub use world::{StartFault, StartRefused, World, empty_devices_are_at_rest};
