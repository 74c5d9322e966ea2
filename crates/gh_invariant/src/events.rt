//! What each event of the history leaves. The functions do nothing; their clauses are laws.

ghost use Rattle.std.specs.Prelude.{◌≡◌, ◌+◌, ◌<◌, ℕ, IsTrue};
ghost use Rattle.gh_invariant.specs.Events.{EventFits};
ghost use Rattle.gh_invariant.specs.Lives.{lives};
ghost use Rattle.gh_invariant.specs.Valid.{IsValid};
ghost use Rattle.gh_model.specs.History.{Event, after_event};
ghost use Rattle.gh_model.specs.References.{references};
ghost use Rattle.gh_model.specs.declared.state.State.{State};

/// Every event leaves a valid state: an act that may come, or another entry, allowed or not.
#[tactic(auto, using(crate::proofs::EventsKept::event_valid))]
pub fn events_keep_valid()
    ensures { (s : State) (event : Event) → IsValid s → EventFits s event
        → IsValid (after_event s event) }
{}

/// An object that was made and has no references has none behind an event: what is doomed stays
/// doomed.
pub fn doomed_stays_doomed()
    ensures { (s : State) (event : Event) (object : ℕ) → IsValid s → EventFits s event
        → 0 < object → object < s.next_serial
        → references s object ≡ 0 → references (after_event s event) object ≡ 0 }
{}
