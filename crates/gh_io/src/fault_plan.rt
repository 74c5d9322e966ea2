//! Faults that are planned: which calls of a memory object fail.

ghost use Rattle.std.specs.Prelude.{◌≡◌, ◌≤◌};

use std::marker::Model;

/// Which calls are to fail, by their numbers from 1, how many were answered and how many of these
/// failed.
#[derive(Debug, Drop)]
pub(crate) struct FaultPlan {
    failing: Vec<u64>,
    calls: u64,
    faults: u64,
}

impl Model for FaultPlan {
    ghost use Rattle.gh_io.specs.Memory.{FaultPlan as Plan};

    ghost Value = { Plan };

    ghost view = { λ p. record { failing = p.failing.items; calls = p.calls; faults = p.faults } };
}

impl FaultPlan {
    ghost use Rattle.gh_io.specs.Memory.{plan_of, fails_next, after_call};

    pub(crate) fn new(failing: Vec<u64>) -> FaultPlan
        ensures { result ≡ plan_of failing.items }
    {
        FaultPlan {
            failing,
            calls: 0,
            faults: 0,
        }
    }

    /// Whether the next call is to fail.
    pub(crate) fn fails_next(&self) -> bool
        ensures { result ≡ fails_next self.now }
    {
        self.failing.contains(&self.calls.saturating_add(1))
    }

    /// Counts a call that was answered.
    pub(crate) fn count(&mut self, failed: bool)
        ensures after { self.new ≡ after_call self.old failed }
        ensures never_falls { self.old.faults ≤ self.new.faults }
    {
        self.calls = self.calls.saturating_add(1);
        if failed {
            self.faults = self.faults.saturating_add(1);
        }
    }
}
