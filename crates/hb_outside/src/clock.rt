ghost use Rattle.std.specs.Prelude.{◌≡◌, ◌+◌, ◌-◌, ◌*◌, ◌^◌, ℕ, min, suc, Some, IfSome};
ghost use Rattle.std.specs.declared.option.Option.{Option};
ghost use Rattle.hb_outside.specs.Clocks.{behind};

/// What time it is, in seconds since 1970-01-01T00:00:00Z. A clock has no faults, and may go back or
/// stand still.
pub trait Clock {
    /// What its readings give from now on, counted from 0, where the clock tells it.
    ghost readings: { Self → Option (ℕ → ℕ) };

    /// A reading.
    fn now(&mut self) -> u64
        ensures reading { IfSome (readings self.old) (λ reading. result ≡ reading 0) }
        ensures goes_on { readings self.new ≡ behind (readings self.old) };

    /// A further clock, for another worker, which reads on as this one would.
    fn twin(&self) -> Self
        ensures { readings result ≡ readings self.now };
}

/// A clock that goes on by the same step at each reading, and stands still at the end of its type.
#[derive(Clone, Copy, Debug)]
pub struct StepClock {
    next: u64,
    step: u64,
}

impl StepClock {
    /// A clock whose first reading is `first`, and each later one `step` seconds on.
    pub fn new(first: u64, step: u64) -> StepClock
        ensures next { result.next ≡ first }
        ensures step { result.step ≡ step }
    {
        StepClock { next: first, step }
    }
}

impl Clock for StepClock {
    ghost use Rattle.hb_outside.specs.Clocks.{steps_of};

    ghost readings = { λ c. Some (steps_of c.next c.step) };

    fn now(&mut self) -> u64
        ensures reading { IfSome (Some (steps_of self.old.next self.old.step)) (λ reading. result ≡ reading 0) }
        ensures goes_on { Some (steps_of self.new.next self.new.step) ≡ behind (Some (steps_of self.old.next self.old.step)) }
        ensures next { self.new ≡ record self.old { next = min (self.old.next + self.old.step) (2 ^ 64 - 1) } }
    {
        let now = self.next;
        self.next = now.saturating_add(self.step);
        now
    }

    fn twin(&self) -> StepClock
        ensures readings { Some (steps_of result.next result.step) ≡ Some (steps_of self.now.next self.now.step) }
        ensures same { result ≡ self.now }
    {
        *self
    }
}
