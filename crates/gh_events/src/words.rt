//! The capability words are those of the present state. The functions do nothing; their clauses are
//! laws.

ghost use Rattle.std.specs.Prelude.{ℕ, List, IsTrue};
ghost use Rattle.gh_base.specs.declared.ids.CpuNo.{CpuNo};
ghost use Rattle.gh_events.specs.Config.{Config};
ghost use Rattle.gh_events.specs.Events.{Possible, after};
ghost use Rattle.gh_events.specs.References.{HasReferences};
ghost use Rattle.gh_events.specs.Replayed.{HasState};
ghost use Rattle.gh_events.specs.Start.{AreIndices, start};
ghost use Rattle.gh_events.specs.ValidState.{HasValid};
ghost use Rattle.gh_events.specs.Words.{HasRoom, ShowsWords};
ghost use Rattle.gh_events.specs.declared.event.Event.{Event};
ghost use Rattle.gh_events.specs.declared.event.Event.TheVariants.{Commit};
ghost use Rattle.gh_model.specs.Boot.{boot_fits, boot_state};
ghost use Rattle.gh_model.specs.declared.boot_line.BootLine.{BootLine};
ghost use Rattle.gh_model.specs.declared.entry.Entry.{Entry};

/// Of each boot file whose objects have indices, each its own, the words are those of the boot
/// before any event.
pub fn start_shows_words()
    ensures { (lines : List BootLine) (index : ℕ → ℕ) → IsTrue (boot_fits lines)
        → AreIndices (boot_state lines) index → ShowsWords (start (boot_state lines) index) }
{}

/// Every event keeps them so, where the entries behind it have room in a word.
pub fn events_keep_words()
    ensures { (conf : Config) (event : Event) → HasReferences conf → HasState conf → HasValid conf
        → ShowsWords conf → HasRoom (after conf event) → Possible conf event
        → ShowsWords (after conf event) }
{}

/// An entry that sets no slot leaves the words those of the present state, also where it reclaims a
/// capability space.
pub fn commit_keeps_words()
    ensures { (conf : Config) (cpu : CpuNo) (entry : Entry) → HasValid conf → ShowsWords conf
        → Possible conf (Commit cpu entry) → ShowsWords (after conf (Commit cpu entry)) }
{}
