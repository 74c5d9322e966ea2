//! Objects stand by rising serial, and so does what a call that ends for want of units names. The
//! functions do nothing; their clauses are laws.

ghost use Rattle.std.specs.Prelude.{ℕ, List, IsTrue};
ghost use Rattle.gh_base.specs.declared.mark.Held.{Held};
ghost use Rattle.gh_events.specs.Rising.{rises, serials_held, serials_of};
ghost use Rattle.gh_invariant.specs.Events.{EventsFit};
ghost use Rattle.gh_model.specs.Boot.{boot_fits, boot_state};
ghost use Rattle.gh_model.specs.Held.{AreHeld};
ghost use Rattle.gh_model.specs.History.{Event, state_at};
ghost use Rattle.gh_model.specs.declared.boot_line.BootLine.{BootLine};
ghost use Rattle.gh_model.specs.declared.state.State.{State};

/// In each state of a history from a boot file on whose events each fit the state before them, the
/// objects stand by rising serial.
pub fn objects_rise()
    ensures { (lines : List BootLine) (history : List Event) (n : ℕ) → IsTrue (boot_fits lines)
        → EventsFit (boot_state lines) history
        → IsTrue (rises (serials_of (state_at (boot_state lines) history n).objects)) }
{}

/// So the objects that a call names as held, where it ends for want of units, are named by rising
/// serial, and each once.
pub fn held_rise()
    ensures { (s : State) (held : List Held) → IsTrue (rises (serials_of s.objects))
        → AreHeld s held → IsTrue (rises (serials_held held)) }
{}
