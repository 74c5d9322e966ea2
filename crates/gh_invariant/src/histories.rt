//! What every state of a history keeps. The functions do nothing; their clauses are laws.

ghost use Rattle.std.specs.Prelude.{◌≡◌, ◌<◌, ℕ, List};
ghost use Rattle.gh_invariant.specs.Events.{EventsFit};
ghost use Rattle.gh_invariant.specs.Valid.{IsValid};
ghost use Rattle.gh_model.specs.History.{Event, state_at};
ghost use Rattle.gh_model.specs.References.{references};
ghost use Rattle.gh_model.specs.declared.state.State.{State};

/// From a valid state on, as a boot file makes one, every state of a history is valid whose events
/// each fit the state before them.
#[tactic(auto, using(crate::proofs::HistoriesKept::history_valid))]
pub fn histories_keep_valid()
    ensures { (s : State) (history : List Event) (n : ℕ) → IsValid s → EventsFit s history
        → IsValid (state_at s history n) }
{}

/// An object that was made and has no references has none in any later state.
pub fn doomed_for_ever()
    ensures { (s : State) (history : List Event) (object n : ℕ)
        → IsValid s → EventsFit s history → 0 < object → object < s.next_serial
        → references s object ≡ 0 → references (state_at s history n) object ≡ 0 }
{}
