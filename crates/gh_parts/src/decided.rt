//! What every call comes to, the parts can make.

ghost use Rattle.std.specs.Prelude.{◌≡◌, ℕ, Bool, List, None, length};
ghost use Rattle.gh_base.specs.declared.call.Call.{Call};
ghost use Rattle.gh_base.specs.declared.ids.Serial.{Serial};
ghost use Rattle.gh_invariant.specs.Events.{made_by};
ghost use Rattle.gh_model.specs.Decide.{decision};
ghost use Rattle.gh_model.specs.Registers.{first_of, shape_refusals};
ghost use Rattle.gh_model.specs.declared.state.State.{State};
ghost use Rattle.gh_parts.specs.Decided.{SuitsParts};

/// In any state, the changes that a call of its shape comes to are few, want memory once at most,
/// and make nothing that the parts can't have. The function does nothing; its clause is the law.
#[tactic(auto, using(crate::proofs::DecidedLemmas::decision_suits))]
pub fn decisions_suit_parts()
    ensures { (s : State) (moved : Bool) (cpu : ℕ) (call : Call) (bytes : List ℕ)
        (grants : List Serial) → first_of (shape_refusals call (length bytes)) ≡ None
        → SuitsParts (made_by (decision moved s cpu call bytes grants)) }
{}
