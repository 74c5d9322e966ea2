//! What the holder owes stays within a bound. The functions do nothing; their clauses are laws.

ghost use Rattle.std.specs.Prelude.{ℕ};
ghost use Rattle.gh_events.specs.Bounded.{FewReferences, IsBounded};
ghost use Rattle.gh_events.specs.Config.{Config};
ghost use Rattle.gh_events.specs.Events.{Possible, after};
ghost use Rattle.gh_events.specs.References.{AreBounded, HasReferences};
ghost use Rattle.gh_events.specs.Replayed.{HasState};
ghost use Rattle.gh_events.specs.Start.{start};
ghost use Rattle.gh_events.specs.declared.event.Event.{Event};
ghost use Rattle.gh_model.specs.declared.state.State.{State};

/// Where no object of the boot has more than 2^62 references, the references at each index and what
/// is owed there are together at most 2^62.
pub fn start_is_bounded()
    ensures { (boot : State) (index : ℕ → ℕ) → FewReferences boot index
        → IsBounded (start boot index) }
{}

/// And every event keeps them so.
pub fn events_keep_bounded()
    ensures { (conf : Config) (event : Event) → IsBounded conf → Possible conf event
        → IsBounded (after conf event) }
{}

/// So are those of each object that lives, with what is owed at its index.
pub fn objects_are_bounded()
    ensures { (conf : Config) → HasReferences conf → HasState conf → IsBounded conf
        → AreBounded conf }
{}
