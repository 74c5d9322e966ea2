//! The holder's entries keep sound references, and every event keeps what they need of the present
//! state. The functions do nothing; their clauses are laws.

ghost use Rattle.std.specs.Prelude.{ℕ, List, IsTrue};
ghost use Rattle.gh_base.specs.declared.cap_word.CapWord.{CapWord};
ghost use Rattle.gh_base.specs.declared.ids.CpuNo.{CpuNo};
ghost use Rattle.gh_base.specs.declared.ids.ObjIndex.{ObjIndex};
ghost use Rattle.gh_events.specs.Config.{Config};
ghost use Rattle.gh_events.specs.Events.{Possible, after};
ghost use Rattle.gh_events.specs.References.{HasReferences};
ghost use Rattle.gh_events.specs.Replayed.{HasState, SparesLooks};
ghost use Rattle.gh_events.specs.Start.{AreIndices, start};
ghost use Rattle.gh_events.specs.declared.event.Event.{Event};
ghost use Rattle.gh_events.specs.declared.event.Event.TheVariants.{Commit, SetCap};
ghost use Rattle.gh_model.specs.Boot.{boot_fits, boot_state};
ghost use Rattle.gh_model.specs.declared.boot_line.BootLine.{BootLine};
ghost use Rattle.gh_model.specs.declared.entry.Entry.{Entry};

/// Of each boot file whose objects have indices, each its own: every object that lives has a serial
/// that was given and an index that there is.
pub fn start_has_state()
    ensures { (lines : List BootLine) (index : ℕ → ℕ) → IsTrue (boot_fits lines)
        → AreIndices (boot_state lines) index → HasState (start (boot_state lines) index) }
{}

/// So the references of each boot file are sound before any event.
pub fn boot_file_has_references()
    ensures { (lines : List BootLine) (index : ℕ → ℕ) → IsTrue (boot_fits lines)
        → AreIndices (boot_state lines) index → HasReferences (start (boot_state lines) index) }
{}

/// Every event keeps where objects live and which serials they have.
pub fn events_keep_state()
    ensures { (conf : Config) (event : Event) → HasState conf → Possible conf event
        → HasState (after conf event) }
{}

/// An entry that sets no slot keeps sound references, where what it reclaims is no object that a
/// call in its section was granted and still has to pin.
pub fn commit_keeps_references()
    ensures { (conf : Config) (cpu : CpuNo) (entry : Entry) → HasReferences conf → HasState conf
        → SparesLooks conf entry → Possible conf (Commit cpu entry)
        → HasReferences (after conf (Commit cpu entry)) }
{}

/// So does an entry that sets one, be it the master capability of an object that it makes.
pub fn set_cap_keeps_references()
    ensures { (conf : Config) (cpu : CpuNo) (entry : Entry) (space : ObjIndex) (slot : ℕ)
        (word : CapWord) → HasReferences conf → HasState conf
        → Possible conf (SetCap cpu entry space slot word)
        → HasReferences (after conf (SetCap cpu entry space slot word)) }
{}
