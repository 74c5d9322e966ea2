//! What holds before any event. The functions do nothing; their clauses are laws.

ghost use Rattle.std.specs.Prelude.{ℕ};
ghost use Rattle.gh_events.specs.References.{HasReferences};
ghost use Rattle.gh_events.specs.Start.{AreIndices, IsUnretired, start};
ghost use Rattle.gh_model.specs.declared.state.State.{State};

/// Where a boot state's objects have indices, each its own, and none is retired, the references of
/// the configuration before any event are sound.
#[tactic(auto, using(crate::proofs::StartSound::start_sound))]
pub fn start_has_references()
    ensures { (boot : State) (index : ℕ → ℕ) → AreIndices boot index → IsUnretired boot
        → HasReferences (start boot index) }
{}
