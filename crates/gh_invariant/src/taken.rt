//! Which slots are taken. The function does nothing; its clauses are laws.

ghost use Rattle.std.specs.Prelude.{◌≡◌, ℕ, List, false, take, true};
ghost use Rattle.gh_invariant.specs.Taken.{AllowsEach, allows, parts_at_end, taken_on};
ghost use Rattle.gh_model.specs.Boot.{boot_state};
ghost use Rattle.gh_model.specs.History.{Event, after_event, state_at};
ghost use Rattle.gh_model.specs.declared.boot_line.BootLine.{BootLine};
ghost use Rattle.gh_model.specs.declared.state.State.{State};

/// Behind an allowed part its slot is taken beside those before it, and behind another allowed
/// entry none is. An entry that isn't allowed leaves those that are taken. So at each place of a
/// history of allowed entries, the slots are taken of the parts behind the last entry of another
/// kind.
pub fn taken_are_parts()
    ensures allowed { (s : State) (event : Event) → allows s event ≡ true
        → (after_event s event).taken ≡ taken_on s.taken event }
    ensures refused { (s : State) (event : Event) → allows s event ≡ false
        → (after_event s event).taken ≡ s.taken }
    ensures history { (lines : List BootLine) (history : List Event) (n : ℕ)
        → AllowsEach (boot_state lines) history
        → (state_at (boot_state lines) history n).taken ≡ parts_at_end (take n history) }
{}
