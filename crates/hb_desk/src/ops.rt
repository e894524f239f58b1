ghost use Rattle.std.specs.Prelude.{◌≡◌, ◌<◌, ◌↔◌, ℕ, Bool, List, [], true, false};
ghost use Rattle.hb_desk.specs.Chains.{Driven};
ghost use Rattle.hb_desk.specs.Clause.{View};
ghost use Rattle.hb_desk.specs.Points.{IsStreamFault, Point, Steps, Moves};
ghost use Rattle.hb_desk.specs.ClockedDesks.{clocked};

use crate::desk::Desk;
use hb_outside::Clock;

/// What a step of an operation says of it.
#[derive(Clone, Copy, Debug, PartialEq, Eq)]
pub enum Progress {
    /// There is more to do.
    More,
    /// The operation is done, and has its answer.
    Done,
}

/// An operation that makes one event of a desk a step.
///
/// Its steps come to an end: each that answers More lowers a number. What its events were stands in its points
/// (`specs/Points`), from which its answer is read.
pub trait Op<D: Desk> {
    /// It is done, and has its answer.
    ghost done: { Self → Bool };

    /// It wants bytes of a body before its next step.
    ghost wants: { Self → Bool };

    /// A number that falls, of the operation and of how many entries its caller has seen.
    ghost left: { Self → ℕ → ℕ };

    /// What it rests on at the desk between its events.
    ghost fits: { Self → View → Type 0 };

    /// What it began as, and its points since, the newest first.
    ghost since: { Self → Self → List Point → Type 0 };

    /// Makes the next event, at this moment or later.
    fn step(&mut self, desk: &mut D, now: u64) -> Progress
        requires ready { done self.old ≡ false }
        requires fed { wants self.old ≡ false }
        requires fits { fits self.old (D.view desk.old) }
        ensures event { Steps (IsStreamFault D.Stage D.Reader D.Stage.faults D.Reader.faults) now (D.view desk.old) (D.view desk.new) (λ begun points. since begun self.old points) (λ begun points. since begun self.new points) }
        ensures moves { Moves (D.view desk.old) (D.view desk.new) }
        ensures done { result ≡ Progress.Done ↔ (done self.new ≡ true) }
        ensures more { result ≡ Progress.More → left self.new (D.view desk.new).entries < left self.old (D.view desk.old).entries }
        ensures fits { fits self.new (D.view desk.new) };
}

/// Makes the events of an operation that wants no body, to its end, each at the next reading of the clock.
pub fn drive<D: Desk, C: Clock, O: Op<D>>(desk: &mut D, clock: &mut C, op: &mut O)
    requires ready { O.done op.old ≡ false }
    requires fed { (x : O) → O.wants x ≡ false }
    requires fits { O.fits op.old (D.view desk.old) }
    ensures done { O.done op.new ≡ true }
    ensures fits { O.fits op.new (D.view desk.new) }
    ensures moves { Moves (D.view desk.old) (D.view desk.new) }
    ensures driven { (begun : O) → O.since begun op.old [] → Driven (IsStreamFault D.Stage D.Reader D.Stage.faults D.Reader.faults) (clocked (D.view desk.old) (C.readings clock.old)) (clocked (D.view desk.new) (C.readings clock.new)) (O.since begun op.new) }
{
    loop {
        match op.step(desk, clock.now()) {
            Progress::Done => return,
            Progress::More => {}
        }
    }
}
