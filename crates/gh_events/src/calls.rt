//! Every event keeps sound calls: finished calls and looks that are legal so far. The functions do
//! nothing; their clauses are laws.

ghost use Rattle.std.specs.Prelude.{◌≡◌, ℕ, List, true, false};
ghost use Rattle.gh_base.specs.declared.cap_word.CapWord.{CapWord};
ghost use Rattle.gh_base.specs.declared.frame.Frame.{Frame};
ghost use Rattle.gh_base.specs.declared.ids.CpuNo.{CpuNo};
ghost use Rattle.gh_base.specs.declared.ids.ObjIndex.{ObjIndex};
ghost use Rattle.gh_events.specs.Calls.{BeginsAtBoot, HasCalls, SawPins};
ghost use Rattle.gh_events.specs.Config.{Config};
ghost use Rattle.gh_events.specs.Events.{Possible, after};
ghost use Rattle.gh_events.specs.Grace.{HasGrace};
ghost use Rattle.gh_events.specs.References.{HasReferences};
ghost use Rattle.gh_events.specs.Replayed.{HasState};
ghost use Rattle.gh_events.specs.Start.{MayGive, given, start};
ghost use Rattle.gh_events.specs.ValidState.{HasValid};
ghost use Rattle.gh_events.specs.Words.{HasRoom, ShowsWords};
ghost use Rattle.gh_events.specs.declared.event.Event.TheVariants.{Commit, Enter, Free, Join, Kill, Leave, Look, Pin, Revive, Scan, SetCap, Split, Take, Undo, Unpin};
ghost use Rattle.gh_model.specs.Boot.{boot_state};
ghost use Rattle.gh_model.specs.declared.boot_line.BootLine.{BootLine};
ghost use Rattle.gh_model.specs.declared.entry.Entry.{Entry};

/// Of each boot file, the calls are sound before any event.
pub fn start_has_calls()
    ensures { (lines : List BootLine) (index : ℕ → ℕ) → HasCalls (start (boot_state lines) index) }
{}

/// A call that a CPU is given keeps them sound, and so does one whose frame is refused at once.
pub fn given_call_keeps_calls()
    ensures { (conf : Config) (at number : ℕ) (frame : Frame) → HasCalls conf
        → MayGive conf at number → HasCalls (given conf at number frame) }
{}

/// A call that enters its section keeps sound calls.
pub fn enter_keeps_calls()
    ensures { (conf : Config) (cpu : CpuNo) → HasCalls conf → Possible conf (Enter cpu)
        → HasCalls (after conf (Enter cpu)) }
{}

/// So does a pin on a dead word that is undone.
pub fn undo_keeps_calls()
    ensures { (conf : Config) (cpu : CpuNo) (object : ObjIndex) → HasCalls conf
        → Possible conf (Undo cpu object) → HasCalls (after conf (Undo cpu object)) }
{}

/// So does a look, where the words are those of the present state and the number of each entry fits
/// into a word: it finds what the slot holds, and has held since its setting.
pub fn look_keeps_calls()
    ensures { (conf : Config) (cpu : CpuNo) (slot : ℕ) → HasCalls conf → HasValid conf
        → ShowsWords conf → HasRoom conf → BeginsAtBoot conf → Possible conf (Look cpu slot)
        → HasCalls (after conf (Look cpu slot)) }
{}

/// So does a pin of a call, where the references are sound and the present state is valid: on a
/// dead word, what the look granted is retired behind the look, or killed.
pub fn pin_keeps_calls()
    ensures { (conf : Config) (cpu : CpuNo) (object : ObjIndex) → HasCalls conf
        → HasReferences conf → HasValid conf → Possible conf (Pin cpu object false)
        → HasCalls (after conf (Pin cpu object false)) }
{}

/// So does a call that leaves its section, to its act or to its end.
pub fn leave_keeps_calls()
    ensures { (conf : Config) (cpu : CpuNo) → HasCalls conf → Possible conf (Leave cpu)
        → HasCalls (after conf (Leave cpu)) }
{}

/// So does a pin of an ended call that is dropped.
pub fn unpin_keeps_calls()
    ensures { (conf : Config) (cpu : CpuNo) (object : ObjIndex) → HasCalls conf
        → Possible conf (Unpin cpu object false) → HasCalls (after conf (Unpin cpu object false)) }
{}

/// So does a turn that is taken.
pub fn take_keeps_calls()
    ensures { (conf : Config) (cpu : CpuNo) → HasCalls conf → Possible conf (Take cpu)
        → HasCalls (after conf (Take cpu)) }
{}

/// So does a turn that is given back before its act.
pub fn quit_keeps_calls()
    ensures { (conf : Config) (cpu : CpuNo) → HasCalls conf → Possible conf (Free cpu false)
        → HasCalls (after conf (Free cpu false)) }
{}

/// So does a turn that is given back behind its act, with the call's end, where references are
/// sound, the present state is valid and failed kills saw pins: a call that ends for want of units
/// names what is without references or retired, each with what holds it.
pub fn free_keeps_calls()
    ensures { (conf : Config) (cpu : CpuNo) → HasCalls conf → HasReferences conf → HasValid conf
        → SawPins conf.turn → Possible conf (Free cpu true)
        → HasCalls (after conf (Free cpu true)) }
{}

/// So do the holder's events on words and counters.
pub fn words_keep_calls()
    ensures owe { (conf : Config) (cpu : CpuNo) (object : ObjIndex) → HasCalls conf
        → Possible conf (Pin cpu object true) → HasCalls (after conf (Pin cpu object true)) }
    ensures settle { (conf : Config) (cpu : CpuNo) (object : ObjIndex) → HasCalls conf
        → Possible conf (Unpin cpu object true) → HasCalls (after conf (Unpin cpu object true)) }
    ensures kill { (conf : Config) (cpu : CpuNo) (object : ObjIndex) → HasCalls conf
        → Possible conf (Kill cpu object) → HasCalls (after conf (Kill cpu object)) }
    ensures scan { (conf : Config) (cpu of_cpu : CpuNo) → HasCalls conf
        → Possible conf (Scan cpu of_cpu) → HasCalls (after conf (Scan cpu of_cpu)) }
    ensures revive { (conf : Config) (cpu : CpuNo) (object : ObjIndex) (count : ℕ) → HasCalls conf
        → Possible conf (Revive cpu object count) → HasCalls (after conf (Revive cpu object count)) }
{}

/// So does an entry that sets no slot, where references and grace are sound, the present state is
/// valid and objects live where they should: an act's entry ends the holder's call, a part waits
/// for the next entry, and an object that a dead call was granted stays killed or is retired.
pub fn commit_keeps_calls()
    ensures { (conf : Config) (cpu : CpuNo) (entry : Entry) → HasCalls conf → HasReferences conf
        → HasGrace conf → HasState conf → HasValid conf → Possible conf (Commit cpu entry)
        → HasCalls (after conf (Commit cpu entry)) }
{}

/// So does an entry that sets one, be it the master capability of an object that it makes.
pub fn set_cap_keeps_calls()
    ensures { (conf : Config) (cpu : CpuNo) (entry : Entry) (space : ObjIndex) (slot : ℕ)
        (word : CapWord) → HasCalls conf → HasReferences conf → HasGrace conf → HasState conf
        → HasValid conf → Possible conf (SetCap cpu entry space slot word)
        → HasCalls (after conf (SetCap cpu entry space slot word)) }
{}

/// And a seat that is given back or made.
pub fn seats_keep_calls()
    ensures join { (conf : Config) (cpu : CpuNo) → HasCalls conf → Possible conf (Join cpu)
        → HasCalls (after conf (Join cpu)) }
    ensures split { (conf : Config) (cpu : CpuNo) → HasCalls conf → Possible conf (Split cpu)
        → HasCalls (after conf (Split cpu)) }
{}
