//! The history text determines the run but for the words that looks found.

ghost use Rattle.std.specs.Prelude.{◌≡◌, ◌++◌, ◌∷◌, ℕ, List, map};
ghost use Rattle.gh_base.specs.declared.mark.Mark.{Mark};
ghost use Rattle.gh_model.specs.Order.{cpus_in_order};
ghost use Rattle.gh_model.specs.Text.{call_line, entry_words, history_text, state_part};
ghost use Rattle.gh_model.specs.declared.entry.Entry.{Entry};
ghost use Rattle.gh_model.specs.declared.state.State.{State};
ghost use Rattle.gh_text.specs.Told.{EntryFits, MarkFits, RunFits, by_cpu, told};

/// What an entry's line says behind its number tells the entry, whatever lines follow.
#[tactic(auto, using(crate::proofs::Lines::entry_told))]
pub fn entry_words_determine()
    ensures { (entry other : Entry) (rest more : List ℕ) → EntryFits entry → EntryFits other
        → entry_words entry ++ (10 ∷ rest) ≡ entry_words other ++ (10 ∷ more) → entry ≡ other }
{}

/// The line of a call tells its mark but for the words of its looks, whatever lines follow.
#[tactic(auto, using(crate::proofs::Lines::call_told))]
pub fn call_lines_determine()
    ensures { (mark other : Mark) (rest more : List ℕ) → MarkFits mark → MarkFits other
        → call_line mark ++ rest ≡ call_line other ++ more → told mark ≡ told other }
{}

/// Runs with the same text have the same entries, and the same calls CPU by CPU, but for the words
/// of their looks; and the units and the page access at their ends are written alike.
pub fn text_determines()
    ensures entries { (entries others : List Entry) (marks calls : List Mark) (s t : State)
        → RunFits entries marks → RunFits others calls
        → history_text entries marks s ≡ history_text others calls t → entries ≡ others }
    ensures calls { (entries others : List Entry) (marks calls : List Mark) (s t : State)
        → RunFits entries marks → RunFits others calls
        → history_text entries marks s ≡ history_text others calls t
        → map told (by_cpu marks (cpus_in_order s)) ≡ map told (by_cpu calls (cpus_in_order t)) }
    ensures state { (entries others : List Entry) (marks calls : List Mark) (s t : State)
        → RunFits entries marks → RunFits others calls
        → history_text entries marks s ≡ history_text others calls t
        → state_part s ≡ state_part t }
{}
