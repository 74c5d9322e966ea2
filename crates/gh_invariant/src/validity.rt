//! What each change of the state keeps. The functions do nothing; their clauses are laws.

ghost use Rattle.std.specs.Prelude.{◌+◌, ◌≤◌, ℕ, List};
ghost use Rattle.gh_invariant.specs.Premises.{MayChange, MayChangeAll};
ghost use Rattle.gh_invariant.specs.Valid.{IsValidTo};
ghost use Rattle.gh_model.specs.Changes.{changed, changed_all};
ghost use Rattle.gh_model.specs.declared.change.Change.{Change};
ghost use Rattle.gh_model.specs.declared.state.State.{State};

/// A change that may be made leaves a valid state, in the midst of an entry.
pub fn change_keeps_valid()
    ensures { (last : ℕ) (s : State) (change : Change) → s.entries + 1 ≤ last → IsValidTo last s
        → MayChange s change → IsValidTo last (changed s change) }
{}

/// And so do changes in order.
pub fn changes_keep_valid()
    ensures { (last : ℕ) (s : State) (changes : List Change) → s.entries + 1 ≤ last
        → IsValidTo last s → MayChangeAll s changes → IsValidTo last (changed_all s changes) }
{}
