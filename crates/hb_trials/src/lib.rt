//! Trials of what several crates do together. There is no code here, and nothing stands on it: what it tries is told
//! by tests alone, which stand above the crates that they try so that those are proved without them.
//!
//! - `tests`: what `hb_model::fit` tells of rows that were spoilt.
#![tactic(auto)]

#[cfg(test)]
mod tests;
