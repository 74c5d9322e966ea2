//! What a slot holds, behind each change. The functions do nothing; their clauses are laws.

ghost use Rattle.std.specs.Prelude.{◌≡◌, ◌+◌, ◌<◌, ◌≤◌, ℕ, List, IsTrue, length, true};
ghost use Rattle.std.specs.List.{list_all};
ghost use Rattle.gh_invariant.specs.Effects.{leaves, leaves_in, sets_slot};
ghost use Rattle.gh_invariant.specs.Events.{EventsFit};
ghost use Rattle.gh_invariant.specs.Lives.{lives};
ghost use Rattle.gh_invariant.specs.Premises.{MayChange};
ghost use Rattle.gh_invariant.specs.Valid.{IsValid};
ghost use Rattle.gh_model.specs.Changes.{changed, changed_all};
ghost use Rattle.gh_model.specs.History.{Event, replay, state_at};
ghost use Rattle.gh_model.specs.Word.{is_slot, setting, word_at};
ghost use Rattle.gh_model.specs.declared.change.Change.{Change};
ghost use Rattle.gh_model.specs.declared.state.State.{State};

/// A slot that no change sets keeps its word, where its capability space isn't reclaimed.
pub fn words_stay()
    ensures word { (s : State) (changes : List Change) (cspace slot : ℕ)
        → IsTrue (list_all (leaves cspace slot) changes)
        → word_at (changed_all s changes) cspace slot ≡ word_at s cspace slot }
    ensures number { (s : State) (changes : List Change) (cspace slot : ℕ)
        → IsTrue (list_all (leaves cspace slot) changes)
        → setting (changed_all s changes) cspace slot ≡ setting s cspace slot }
{}

/// The slot that a change sets has the capability that the change leaves in it, set by the next
/// entry.
pub fn change_sets_word()
    ensures { (s : State) (change : Change) (cspace slot : ℕ) → MayChange s change
        → IsTrue (sets_slot cspace slot change) → IsTrue (is_slot slot)
        → word_at (changed s change) cspace slot
        ≡ record { row = leaves_in s change; set_at = s.entries + 1 } }
{}

/// What a slot holds at a history's end it held in each state from the entry on that set it, where
/// its capability space still lives and was made in the first state. Numbers of entries count from
/// those of the first state.
pub fn words_stand()
    ensures { (s : State) (history : List Event) (cspace slot n : ℕ) → IsValid s
        → EventsFit s history → cspace < s.next_serial
        → lives (replay s history).objects cspace ≡ true
        → (word_at (replay s history) cspace slot).set_at ≤ s.entries + n → n ≤ length history
        → word_at (state_at s history n) cspace slot ≡ word_at (replay s history) cspace slot }
{}
