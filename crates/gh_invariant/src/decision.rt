//! What every call comes to may be made.

ghost use Rattle.std.specs.Prelude.{◌≡◌, ℕ, Bool, List, length};
ghost use Rattle.gh_base.specs.declared.call.Call.{Call};
ghost use Rattle.gh_base.specs.declared.ids.Serial.{Serial};
ghost use Rattle.gh_invariant.specs.Grants.{GivesToReferred, MayAct, MayMake};
ghost use Rattle.gh_invariant.specs.Valid.{IsValid};
ghost use Rattle.gh_model.specs.Decide.{decision};
ghost use Rattle.gh_model.specs.declared.state.State.{State};

/// In a valid state, the changes of what a call comes to may be made in their order: of a CPU that
/// runs, with registers of the call's shape, and with a grant for each need, none of which is a
/// live object of another kind. The function does nothing; its clause is the law.
#[tactic(auto, using(crate::proofs::DecisionMade::decision_made))]
pub fn decisions_may_be_made()
    ensures { (s : State) (moved : Bool) (cpu : ℕ) (call : Call) (bytes : List ℕ)
        (grants : List Serial) → IsValid s → MayAct s cpu call (length bytes) grants
        → MayMake s (decision moved s cpu call bytes grants) }
{}

/// What a call comes to gives no reference to an object that lives and has none: what is doomed
/// stays doomed. The function does nothing; its clause is the law.
#[tactic(auto, using(crate::proofs::DecisionGives::decision_gives))]
pub fn decisions_give_to_referred()
    ensures { (s : State) (moved : Bool) (cpu : ℕ) (call : Call) (bytes : List ℕ)
        (grants : List Serial) → MayAct s cpu call (length bytes) grants
        → GivesToReferred s (decision moved s cpu call bytes grants) }
{}
