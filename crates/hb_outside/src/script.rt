ghost use Rattle.std.specs.Prelude.{◌≡◌, ◌↔◌, ◌≤◌, IsTrue, if◌then◌else◌};
ghost use Rattle.hb_outside.specs.Causes.{Rose};
ghost use Rattle.hb_outside.specs.Scripts.{IsNext, called, faulted};

use std::marker::Model;

/// The calls of a device in memory: how many there were, how many faults were counted, and which
/// calls are to fail. Contracts see it as a `Scripted`.
///
/// Calls are numbered from 1. Each call of the device counts, the failing ones too.
#[derive(Drop)]
pub struct Script {
    calls: u64,
    faults: u64,
    fails: Vec<u64>,
}

impl Model for Script {
    ghost use Rattle.hb_outside.specs.Scripts.{Scripted};

    ghost Value = { Scripted };

    ghost view = { λ s. record { calls = s.calls; faults = s.faults; fails = s.fails.items } };
}

impl Script {
    /// No call yet, and these are to fail.
    pub fn new(fails: Vec<u64>) -> Script
        ensures { result ≡ record { calls = 0; faults = 0; fails = fails.items } }
    {
        Script {
            calls: 0,
            faults: 0,
            fails,
        }
    }

    /// Begins a call, and tells whether it is to fail, which counts a fault.
    pub fn begin(&mut self) -> bool
        ensures fails { IsTrue result ↔ IsNext self.old }
        ensures script { self.new ≡ (if result then faulted (called self.old) else called self.old) }
        ensures later { self.old.faults ≤ self.new.faults }
        ensures rose { IsTrue result → Rose self.old.faults self.new.faults }
    {
        self.calls = self.calls.saturating_add(1);
        let fails = self.fails.as_slice().contains(&self.calls);
        if fails {
            self.faults = self.faults.saturating_add(1);
        }
        fails
    }

    /// Counts a fault of the call that is under way.
    pub fn fault(&mut self)
        ensures script { self.new ≡ faulted self.old }
        ensures later { self.old.faults ≤ self.new.faults }
        ensures rose { Rose self.old.faults self.new.faults }
    {
        self.faults = self.faults.saturating_add(1);
    }

    /// How many calls there were, up to the end of a `u64`.
    pub fn calls(&self) -> u64
        ensures { result ≡ self.now.calls }
    {
        self.calls
    }

    /// How many faults were counted, up to the end of a `u64`.
    pub fn faults(&self) -> u64
        ensures { result ≡ self.now.faults }
    {
        self.faults
    }
}
