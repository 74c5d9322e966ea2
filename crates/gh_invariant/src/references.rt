//! What refers to an object, behind each change. The functions do nothing; their clauses are laws.

ghost use Rattle.std.specs.Prelude.{◌≡◌, ◌+◌, ◌≤◌, ◌<◌, ℕ, List, false};
ghost use Rattle.gh_invariant.specs.Effects.{gains, losses, gained, lost, times};
ghost use Rattle.gh_invariant.specs.Lives.{lives};
ghost use Rattle.gh_invariant.specs.Premises.{MayChange, MayChangeAll};
ghost use Rattle.gh_invariant.specs.Valid.{IsValidTo};
ghost use Rattle.gh_model.specs.Changes.{changed, changed_all};
ghost use Rattle.gh_model.specs.References.{references};
ghost use Rattle.gh_model.specs.declared.change.Change.{Change};
ghost use Rattle.gh_model.specs.declared.state.State.{State};

/// An object's references change by just what the change gives and takes.
pub fn change_moves_references()
    ensures { (last : ℕ) (s : State) (change : Change) (object : ℕ) → 0 < object
        → IsValidTo last s → MayChange s change
        → references (changed s change) object + times object (losses s change)
        ≡ references s object + times object (gains s change) }
{}

/// And behind changes in order by what all of them give and take.
pub fn changes_move_references()
    ensures { (last : ℕ) (s : State) (changes : List Change) (object : ℕ) → 0 < object
        → s.entries + 1 ≤ last → IsValidTo last s → MayChangeAll s changes
        → references (changed_all s changes) object + times object (lost s changes)
        ≡ references s object + times object (gained s changes) }
{}

/// An object that nothing refers to, and that no change gives a reference, has none behind them.
pub fn doomed_stays()
    ensures { (last : ℕ) (s : State) (changes : List Change) (object : ℕ) → 0 < object
        → s.entries + 1 ≤ last → IsValidTo last s → MayChangeAll s changes
        → references s object ≡ 0 → times object (gained s changes) ≡ 0
        → references (changed_all s changes) object ≡ 0 }
{}

/// What doesn't live, since it was reclaimed or isn't made yet, has no references.
pub fn only_living_referenced()
    ensures { (last : ℕ) (s : State) (object : ℕ) → 0 < object → IsValidTo last s
        → lives s.objects object ≡ false
        → references s object ≡ 0 }
{}
