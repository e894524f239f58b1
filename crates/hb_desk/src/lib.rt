//! The desk: the one contract between the world and the operations above it.
//!
//! - [`Desk`]: a registry as one caller meets it. Each call of it is one event, whose contract is `specs/Clause`.
//! - [`Op`]: an operation, which makes one event a step. `specs/Points` says what its events were, and `specs/Chains` how
//!   they stand one after another. [`drive`] makes them to its end.
//! - [`Alone`]: a desk that lets [`Others`] act before each event.
//! - [`Ask`], [`Told`], [`Refusal`], [`Opened`], [`Staged`]: what is asked and told. [`Answer`]: what is answered over HTTP.
#![tactic(auto)]

mod alone;
mod answers;
mod asks;
mod desk;
mod gave;
mod laws;
mod ops;
mod refusals;
mod seals;
#[cfg(test)]
mod tests;
mod told;

pub use alone::{Alone, Others};
pub use answers::{Answer, DetailItem, DetailList, DetailValue};
pub use asks::Ask;
pub use desk::Desk;
pub use gave::{Opened, Staged};
pub use laws::{
    asks_keep_the_registry_whole, events_keep_a_history, events_stand_at_readings_of_the_clock,
    one_event_is_what_others_may_do, only_a_full_audit_is_spent, others_may_rest,
    points_stand_in_what_was_seen, what_is_replied_is_legal, what_others_do_adds_up,
    what_was_seen_stays,
};
pub use ops::{Op, Progress, drive};
pub use refusals::Refusal;
pub use seals::seal_of;
pub use told::Told;
