//! Every event but the holder's entries keeps sound references. The functions do nothing; their
//! clauses are laws.

ghost use Rattle.std.specs.Prelude.{ℕ, true, false};
ghost use Rattle.gh_base.specs.declared.frame.Frame.{Frame};
ghost use Rattle.gh_base.specs.declared.ids.CpuNo.{CpuNo};
ghost use Rattle.gh_base.specs.declared.ids.ObjIndex.{ObjIndex};
ghost use Rattle.gh_events.specs.Config.{Config, present};
ghost use Rattle.gh_events.specs.Events.{Possible, after};
ghost use Rattle.gh_events.specs.References.{HasReferences};
ghost use Rattle.gh_events.specs.Start.{MayGive, given};
ghost use Rattle.gh_events.specs.Words.{HasRoom, ShowsWords};
ghost use Rattle.gh_invariant.specs.Valid.{IsValid};
ghost use Rattle.gh_events.specs.declared.event.Event.TheVariants.{Enter, Free, Join, Kill, Leave, Look, Pin, Revive, Scan, Split, Take, Undo, Unpin};

/// A call that enters its section keeps sound references.
pub fn enter_keeps_references()
    ensures { (conf : Config) (cpu : CpuNo) → HasReferences conf → Possible conf (Enter cpu)
        → HasReferences (after conf (Enter cpu)) }
{}

/// So does a call that leaves it.
pub fn leave_keeps_references()
    ensures { (conf : Config) (cpu : CpuNo) → HasReferences conf → Possible conf (Leave cpu)
        → HasReferences (after conf (Leave cpu)) }
{}

/// So does a look, of a configuration whose words are those of its present state, which is valid,
/// and whose entries have room in a word.
pub fn look_keeps_references()
    ensures { (conf : Config) (cpu : CpuNo) (slot : ℕ) → HasReferences conf → IsValid (present conf)
        → ShowsWords conf → HasRoom conf → Possible conf (Look cpu slot)
        → HasReferences (after conf (Look cpu slot)) }
{}

/// So does a pin of a call, on a word that is dead or not.
pub fn pin_keeps_references()
    ensures { (conf : Config) (cpu : CpuNo) (object : ObjIndex) → HasReferences conf
        → Possible conf (Pin cpu object false) → HasReferences (after conf (Pin cpu object false)) }
{}

/// So does a pin on a dead word that is undone.
pub fn undo_keeps_references()
    ensures { (conf : Config) (cpu : CpuNo) (object : ObjIndex) → HasReferences conf
        → Possible conf (Undo cpu object) → HasReferences (after conf (Undo cpu object)) }
{}

/// So does a pin of an ended call that is dropped.
pub fn unpin_keeps_references()
    ensures { (conf : Config) (cpu : CpuNo) (object : ObjIndex) → HasReferences conf
        → Possible conf (Unpin cpu object false)
        → HasReferences (after conf (Unpin cpu object false)) }
{}

/// So does a turn that is taken.
pub fn take_keeps_references()
    ensures { (conf : Config) (cpu : CpuNo) → HasReferences conf → Possible conf (Take cpu)
        → HasReferences (after conf (Take cpu)) }
{}

/// So does a reference that the holder comes to owe.
pub fn owe_keeps_references()
    ensures { (conf : Config) (cpu : CpuNo) (object : ObjIndex) → HasReferences conf
        → Possible conf (Pin cpu object true) → HasReferences (after conf (Pin cpu object true)) }
{}

/// So does one that it owes no more.
pub fn settle_keeps_references()
    ensures { (conf : Config) (cpu : CpuNo) (object : ObjIndex) → HasReferences conf
        → Possible conf (Unpin cpu object true)
        → HasReferences (after conf (Unpin cpu object true)) }
{}

/// So does a kill, whether it succeeds or not.
pub fn kill_keeps_references()
    ensures { (conf : Config) (cpu : CpuNo) (object : ObjIndex) → HasReferences conf
        → Possible conf (Kill cpu object) → HasReferences (after conf (Kill cpu object)) }
{}

/// So does an index that gets a new count.
pub fn revive_keeps_references()
    ensures { (conf : Config) (cpu : CpuNo) (object : ObjIndex) (count : ℕ) → HasReferences conf
        → Possible conf (Revive cpu object count)
        → HasReferences (after conf (Revive cpu object count)) }
{}

/// So does a scan of a counter.
pub fn scan_keeps_references()
    ensures { (conf : Config) (cpu of_cpu : CpuNo) → HasReferences conf
        → Possible conf (Scan cpu of_cpu) → HasReferences (after conf (Scan cpu of_cpu)) }
{}

/// So does a turn that is given back before its act.
pub fn quit_keeps_references()
    ensures { (conf : Config) (cpu : CpuNo) → HasReferences conf → Possible conf (Free cpu false)
        → HasReferences (after conf (Free cpu false)) }
{}

/// So does a turn that is given back behind its act, with the call's end.
pub fn end_keeps_references()
    ensures { (conf : Config) (cpu : CpuNo) → HasReferences conf → Possible conf (Free cpu true)
        → HasReferences (after conf (Free cpu true)) }
{}

/// So does a CPU that is given a call, or finishes it at once where its frame is refused.
pub fn given_call_keeps_references()
    ensures { (conf : Config) (at number : ℕ) (frame : Frame) → HasReferences conf
        → MayGive conf at number → HasReferences (given conf at number frame) }
{}

/// And a seat that is given back or made.
pub fn seats_keep_references()
    ensures join { (conf : Config) (cpu : CpuNo) → HasReferences conf → Possible conf (Join cpu)
        → HasReferences (after conf (Join cpu)) }
    ensures split { (conf : Config) (cpu : CpuNo) → HasReferences conf → Possible conf (Split cpu)
        → HasReferences (after conf (Split cpu)) }
{}
