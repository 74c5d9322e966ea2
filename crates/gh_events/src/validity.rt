//! The present state is valid, and what the CPUs hold fits it. The functions do nothing; their
//! clauses are laws.

ghost use Rattle.std.specs.Prelude.{ℕ, List, IsTrue};
ghost use Rattle.gh_base.specs.declared.frame.Frame.{Frame};
ghost use Rattle.gh_events.specs.Config.{Config};
ghost use Rattle.gh_events.specs.Events.{Possible, after};
ghost use Rattle.gh_events.specs.Start.{MayGive, given, start};
ghost use Rattle.gh_events.specs.ValidState.{HasValid};
ghost use Rattle.gh_events.specs.declared.event.Event.{Event};
ghost use Rattle.gh_model.specs.Boot.{boot_fits, boot_state};
ghost use Rattle.gh_model.specs.declared.boot_line.BootLine.{BootLine};

/// Of each boot file, the boot state is valid and no CPU has exited: so it is before any event.
pub fn start_is_valid()
    ensures { (lines : List BootLine) (index : ℕ → ℕ) → IsTrue (boot_fits lines)
        → HasValid (start (boot_state lines) index) }
{}

/// Every event keeps it so: an act that the holder commits is of a CPU that runs, of its frame's
/// shape, and with grants that stand.
pub fn events_keep_validity()
    ensures { (conf : Config) (event : Event) → HasValid conf → Possible conf event
        → HasValid (after conf event) }
{}

/// And so does a call that a CPU is given.
pub fn given_call_keeps_validity()
    ensures { (conf : Config) (at number : ℕ) (frame : Frame) → HasValid conf
        → MayGive conf at number → HasValid (given conf at number frame) }
{}
