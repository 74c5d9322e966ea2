//! What a partition uses and gives, behind each change. The functions do nothing; their clauses
//! are laws.

ghost use Rattle.std.specs.Prelude.{◌≡◌, ◌+◌, ◌≤◌, ℕ, List};
ghost use Rattle.gh_invariant.specs.Effects.{takes, returns, takes_all, returns_all, units_of};
ghost use Rattle.gh_invariant.specs.Premises.{MayChangeAll};
ghost use Rattle.gh_invariant.specs.Valid.{IsValidTo};
ghost use Rattle.gh_model.specs.Changes.{changed, changed_all};
ghost use Rattle.gh_model.specs.Units.{used_units, given_units};
ghost use Rattle.gh_model.specs.declared.change.Change.{Change};
ghost use Rattle.gh_model.specs.declared.state.State.{State};

/// What a partition uses and gives changes by just what the change takes and returns.
pub fn change_moves_units()
    ensures { (last : ℕ) (s : State) (change : Change) (partition : ℕ) → IsValidTo last s
        → used_units (changed s change) partition + given_units (changed s change) partition
        + units_of partition (returns s change)
        ≡ used_units s partition + given_units s partition + units_of partition (takes s change) }
{}

/// And behind changes in order by what all of them take and return.
pub fn changes_move_units()
    ensures { (last : ℕ) (s : State) (changes : List Change) (partition : ℕ) → s.entries + 1 ≤ last
        → IsValidTo last s → MayChangeAll s changes
        → used_units (changed_all s changes) partition
        + given_units (changed_all s changes) partition
        + units_of partition (returns_all s changes)
        ≡ used_units s partition + given_units s partition
        + units_of partition (takes_all s changes) }
{}
