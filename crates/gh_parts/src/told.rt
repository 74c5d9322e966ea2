//! What the changes of an entry give and take can be told before they are made.

ghost use Rattle.gh_invariant.specs.Events.{changes_of};
ghost use Rattle.gh_model.specs.History.{Event};
ghost use Rattle.gh_model.specs.declared.state.State.{State};
ghost use Rattle.gh_parts.specs.Told.{AreTold};

/// What the changes of an entry give and take can be told before the first of them is made, and is
/// few. The function does nothing; its clause is the law.
#[tactic(auto, using(crate::proofs::ToldLemmas::event_told))]
pub fn entries_are_told()
    ensures { (s : State) (event : Event) → AreTold s (changes_of s event) }
{}
