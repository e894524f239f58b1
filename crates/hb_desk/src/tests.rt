//! An operation of one event, over any desk.

use crate::{
    Ask, Desk, Op, Progress, Refusal, Told, asks_keep_the_registry_whole, events_keep_a_history,
    events_stand_at_readings_of_the_clock, one_event_is_what_others_may_do,
    only_a_full_audit_is_spent, others_may_rest, points_stand_in_what_was_seen,
    what_is_replied_is_legal, what_others_do_adds_up, what_was_seen_stays,
};
use std::test::Fail;

// One ask, and what it was answered.
#[derive(Drop)]
struct Asking {
    ask: Ask,
    answer: Option<Result<Told, Refusal>>,
}

impl<D: Desk> Op<D> for Asking {
    ghost use Rattle.std.specs.Prelude.{◌≡◌, is_some, false, List, [], IfSome, Ok, Err};
    ghost use Rattle.hb_desk.specs.Points.{Point};
    ghost use Rattle.hb_desk.specs.AskedPoints.{Went, left_of};

    ghost done = { λ op. is_some op.answer };

    ghost wants = { λ op. false };

    ghost left = { λ op entries. left_of op.answer };

    ghost fits = { λ op view. Unit {0} };

    ghost since = { λ begun op points. Went begun.ask op.ask op.answer points };

    fn step(&mut self, desk: &mut D, now: u64) -> Progress {
        self.answer = Some(desk.ask(&self.ask, now));
        Progress::Done
    }
}

#[test]
fn laws(_rt: HostRuntime) -> Result<(), Fail> {
    what_is_replied_is_legal();
    events_keep_a_history();
    what_was_seen_stays();
    asks_keep_the_registry_whole();
    one_event_is_what_others_may_do();
    others_may_rest();
    what_others_do_adds_up();
    points_stand_in_what_was_seen();
    only_a_full_audit_is_spent();
    events_stand_at_readings_of_the_clock();
    Ok(())
}
