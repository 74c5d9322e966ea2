//! What each entry of the history leaves. The functions do nothing; their clauses are laws.

ghost use Rattle.std.specs.Prelude.{ℕ, List};
ghost use Rattle.gh_base.specs.declared.ids.Serial.{Serial};
ghost use Rattle.gh_invariant.specs.Premises.{MayChangeAll};
ghost use Rattle.gh_invariant.specs.Valid.{IsValid, IsValidWithin};
ghost use Rattle.gh_model.specs.Act.{counted};
ghost use Rattle.gh_model.specs.Changes.{changed_all};
ghost use Rattle.gh_model.specs.History.{numbered, parted, reclaimed, retired};
ghost use Rattle.gh_model.specs.declared.change.Change.{Change};
ghost use Rattle.gh_model.specs.declared.state.State.{State};

/// Between two entries a state is ready for the changes of the next one.
pub fn entry_begins()
    ensures { (s : State) → IsValid s → IsValidWithin s }
{}

/// The changes of an act that may be made leave a valid state, once the entry is counted.
pub fn act_keeps_valid()
    ensures { (s : State) (changes : List Change) → IsValid s → MayChangeAll s changes
        → IsValid (counted (changed_all s changes)) }
{}

/// So does a part of a revoke, a retirement and a reclaim, allowed or not, and an entry that
/// changes only the number of entries.
pub fn entries_keep_valid()
    ensures part { (s : State) (space : Serial) (slot : ℕ) → IsValid s
        → IsValid (parted s space slot) }
    ensures retirement { (s : State) (serial : Serial) (seen : List ℕ) → IsValid s
        → IsValid (retired s serial seen) }
    ensures reclaim { (s : State) (serial : Serial) → IsValid s → IsValid (reclaimed s serial) }
    ensures number { (s : State) → IsValid s → IsValid (numbered s) }
{}
