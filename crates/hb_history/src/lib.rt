//! What holds of every legal audit. Each function does nothing: its contract is a law of `History`, the
//! audits that hb_model calls legal, for who decides by rows or promises something to clients.
//!
//! - [`usage`]: what a project uses, and its limit.
//! - [`presence`]: what is present, by the rows of digests, and that what a project has is present and idle.
//! - [`versions`]: a row that has the version that it had is the row as it was.
//! - [`grace`]: what is named stays for the window.
//! - [`soundness`]: what every event keeps makes the promise about stored bytes.
//! - [`artifacts`]: what an index lists is there, and what a tag names.
#![tactic(auto)]

pub mod artifacts;
pub mod grace;
pub mod presence;
pub mod soundness;
#[cfg(test)]
mod tests;
pub mod usage;
pub mod versions;
