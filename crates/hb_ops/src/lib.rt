//! Operations over a desk, and what they answer over HTTP.
//!
//! - [`Get`]: a blob or a manifest is got. `specs/Gets` reads how it ends from its points.
//! - [`Check`]: whether a blob or a manifest is there. `specs/Checks` reads how it ends from its point.
//! - [`refused`] is the answer to a refusal of a desk, and [`error`] to any other error.
#![tactic(auto)]

mod bodies;
mod checks;
mod errors;
mod gets;
#[cfg(test)]
mod operation_tests;
mod reading;
#[cfg(test)]
mod tests;

pub use checks::{Check, Checked};
pub use errors::{error, refused};
pub use gets::{Get, Got, Sought};
