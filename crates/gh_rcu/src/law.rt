//! What a grace period that has passed, or has not, says of the counters.

ghost use Rattle.std.specs.Prelude.{◌≡◌, ◌↔◌, ℕ, IsTrue, Some, slice_get};
ghost use Rattle.gh_base.specs.Counters.{HaveLeft};
ghost use Rattle.gh_rcu.specs.Grace.{started, all_noted, has_passed, IsStillReading};

use gh_base::Counters;

/// A law, with nothing to run. Take a grace period that starts with the counters `seen`, and takes
/// note of the counters `now`. It has passed exactly where each CPU whose counter was odd has a
/// greater one now, and a CPU that it still waits for has not left the section that it was in.
#[tactic(auto, using(crate::proofs::GraceLemmas::passed_when_all_left))]
pub fn grace_law(seen: Counters, now: Counters)
    ensures passed { IsTrue (has_passed (all_noted (started seen) now)) ↔ HaveLeft seen now }
    ensures reading { (cpu counter : ℕ) →
        slice_get (all_noted (started seen) now) cpu ≡ Some (Some counter) →
        IsStillReading seen now cpu counter }
{}
