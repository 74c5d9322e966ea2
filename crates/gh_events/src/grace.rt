//! Every event keeps the grace of a configuration. The functions do nothing; their clauses are
//! laws.

ghost use Rattle.std.specs.Prelude.{◌≡◌, ◌<◌, ℕ, List, Some, slice_index, true, false};
ghost use Rattle.gh_base.specs.declared.cap_word.CapWord.{CapWord};
ghost use Rattle.gh_base.specs.declared.frame.Frame.{Frame};
ghost use Rattle.gh_base.specs.declared.ids.CpuNo.{CpuNo};
ghost use Rattle.gh_base.specs.declared.ids.ObjIndex.{ObjIndex};
ghost use Rattle.gh_events.specs.Config.{Config, present};
ghost use Rattle.gh_events.specs.Events.{Possible, after};
ghost use Rattle.gh_events.specs.Grace.{CounterFits, HasGrace};
ghost use Rattle.gh_events.specs.References.{HasReferences};
ghost use Rattle.gh_events.specs.Replayed.{HasState, SparesLooks};
ghost use Rattle.gh_events.specs.Start.{AreIndices, IsUnretired, MayGive, given, start};
ghost use Rattle.gh_events.specs.Words.{HasRoom, ShowsWords};
ghost use Rattle.gh_events.specs.declared.event.Event.{Event};
ghost use Rattle.gh_events.specs.declared.event.Event.TheVariants.{Commit, Enter, Free, Join, Kill, Leave, Look, Pin, Revive, Scan, SetCap, Split, Take, Undo, Unpin};
ghost use Rattle.gh_invariant.specs.Valid.{IsValid};
ghost use Rattle.gh_base.specs.declared.limits.TheConstants.{CPUS};
ghost use Rattle.gh_model.specs.History.{counters};
ghost use Rattle.gh_model.specs.declared.entry.Entry.{Entry};
ghost use Rattle.gh_model.specs.declared.state.State.{State};

/// Where a boot state's objects have indices, each its own, and none is retired, the configuration
/// before any event has grace.
pub fn start_has_grace()
    ensures { (boot : State) (index : ℕ → ℕ) → AreIndices boot index → IsUnretired boot
        → HasGrace (start boot index) }
{}

/// A call that enters its section keeps grace.
pub fn enter_keeps_grace()
    ensures { (conf : Config) (cpu : CpuNo) → HasGrace conf → Possible conf (Enter cpu)
        → HasGrace (after conf (Enter cpu)) }
{}

/// So does a look, where the references are sound and the present state is valid: what it grants is
/// neither retired nor killed.
pub fn look_keeps_grace()
    ensures { (conf : Config) (cpu : CpuNo) (slot : ℕ) → HasReferences conf → HasGrace conf
        → IsValid (present conf) → Possible conf (Look cpu slot)
        → HasGrace (after conf (Look cpu slot)) }
{}

/// So does a pin of a call, on a word that is dead or not.
pub fn pin_keeps_grace()
    ensures { (conf : Config) (cpu : CpuNo) (object : ObjIndex) → HasGrace conf
        → Possible conf (Pin cpu object false) → HasGrace (after conf (Pin cpu object false)) }
{}

/// So does a pin on a dead word that is undone.
pub fn undo_keeps_grace()
    ensures { (conf : Config) (cpu : CpuNo) (object : ObjIndex) → HasGrace conf
        → Possible conf (Undo cpu object) → HasGrace (after conf (Undo cpu object)) }
{}

/// So does a call that leaves its section, to its act or to its end.
pub fn leave_keeps_grace()
    ensures { (conf : Config) (cpu : CpuNo) → HasGrace conf → Possible conf (Leave cpu)
        → HasGrace (after conf (Leave cpu)) }
{}

/// So does a pin of an ended call that is dropped.
pub fn unpin_keeps_grace()
    ensures { (conf : Config) (cpu : CpuNo) (object : ObjIndex) → HasGrace conf
        → Possible conf (Unpin cpu object false) → HasGrace (after conf (Unpin cpu object false)) }
{}

/// So does a turn that is taken.
pub fn take_keeps_grace()
    ensures { (conf : Config) (cpu : CpuNo) → HasGrace conf → Possible conf (Take cpu)
        → HasGrace (after conf (Take cpu)) }
{}

/// So does a reference that the holder comes to owe, and one that it owes no more.
pub fn owe_keeps_grace()
    ensures owe { (conf : Config) (cpu : CpuNo) (object : ObjIndex) → HasGrace conf
        → Possible conf (Pin cpu object true) → HasGrace (after conf (Pin cpu object true)) }
    ensures settle { (conf : Config) (cpu : CpuNo) (object : ObjIndex) → HasGrace conf
        → Possible conf (Unpin cpu object true) → HasGrace (after conf (Unpin cpu object true)) }
{}

/// So does a kill, whether it succeeds or not, where no two objects have one index.
pub fn kill_keeps_grace()
    ensures { (conf : Config) (cpu : CpuNo) (object : ObjIndex) → HasReferences conf → HasGrace conf
        → Possible conf (Kill cpu object) → HasGrace (after conf (Kill cpu object)) }
{}

/// So does a scan of a counter.
pub fn scan_keeps_grace()
    ensures { (conf : Config) (cpu of_cpu : CpuNo) → HasGrace conf
        → Possible conf (Scan cpu of_cpu) → HasGrace (after conf (Scan cpu of_cpu)) }
{}

/// So does an index that gets a new count.
pub fn revive_keeps_grace()
    ensures { (conf : Config) (cpu : CpuNo) (object : ObjIndex) (count : ℕ) → HasGrace conf
        → Possible conf (Revive cpu object count)
        → HasGrace (after conf (Revive cpu object count)) }
{}

/// So does a turn that is given back, before its act or behind it, with the call's end.
pub fn free_keeps_grace()
    ensures quit { (conf : Config) (cpu : CpuNo) → HasGrace conf → Possible conf (Free cpu false)
        → HasGrace (after conf (Free cpu false)) }
    ensures end { (conf : Config) (cpu : CpuNo) → HasGrace conf → Possible conf (Free cpu true)
        → HasGrace (after conf (Free cpu true)) }
{}

/// So does an entry that sets no slot: an act, a part of one, a retirement, whose counters are
/// scans since the kill, and a reclaim.
pub fn commit_keeps_grace()
    ensures { (conf : Config) (cpu : CpuNo) (entry : Entry) → HasGrace conf
        → Possible conf (Commit cpu entry) → HasGrace (after conf (Commit cpu entry)) }
{}

/// So does an entry that sets one, be it the master capability of an object that it makes.
pub fn set_cap_keeps_grace()
    ensures { (conf : Config) (cpu : CpuNo) (entry : Entry) (space : ObjIndex) (slot : ℕ)
        (word : CapWord) → HasState conf → HasGrace conf
        → Possible conf (SetCap cpu entry space slot word)
        → HasGrace (after conf (SetCap cpu entry space slot word)) }
{}

/// No call in its section was granted, by its last look beside its pins, what an entry reclaims.
pub fn entries_spare_grants()
    ensures { (conf : Config) (cpu : CpuNo) (entry : Entry) → HasGrace conf
        → Possible conf (Commit cpu entry) → SparesLooks conf entry }
{}

/// The counters that an entry keeps are those of no earlier moment than the entries before it, and
/// above the sections of the calls that had ended with their acts, and of those that were granted
/// what it reclaims.
pub fn entry_counters_fit()
    ensures { (conf : Config) (cpu : CpuNo) (entry : Entry) (seen : List ℕ) (at : ℕ)
        → HasGrace conf → Possible conf (Commit cpu entry) → counters entry ≡ Some seen → at < CPUS
        → CounterFits conf entry at (slice_index seen at) }
{}

/// And a seat that is given back or made.
pub fn seats_keep_grace()
    ensures join { (conf : Config) (cpu : CpuNo) → HasGrace conf → Possible conf (Join cpu)
        → HasGrace (after conf (Join cpu)) }
    ensures split { (conf : Config) (cpu : CpuNo) → HasGrace conf → Possible conf (Split cpu)
        → HasGrace (after conf (Split cpu)) }
{}

/// So does a CPU that is given a call, or finishes it at once where its frame is refused.
pub fn given_call_keeps_grace()
    ensures { (conf : Config) (at number : ℕ) (frame : Frame) → HasGrace conf
        → MayGive conf at number → HasGrace (given conf at number frame) }
{}

/// Together: where the references are sound, the present state is valid and the words are those of
/// it, every event keeps grace and sound references.
pub fn events_keep_grace()
    ensures grace { (conf : Config) (event : Event) → HasReferences conf → HasGrace conf
        → HasState conf → IsValid (present conf) → Possible conf event
        → HasGrace (after conf event) }
    ensures references { (conf : Config) (event : Event) → HasReferences conf → HasGrace conf
        → HasState conf → IsValid (present conf) → ShowsWords conf → HasRoom conf
        → Possible conf event
        → HasReferences (after conf event) }
{}
