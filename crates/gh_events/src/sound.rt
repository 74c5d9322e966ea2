//! Every run from a boot file is sound, and what that means for objects, words and calls. The
//! functions do nothing; their clauses are laws.

ghost use Rattle.std.specs.Prelude.{◌≡◌, ◌+◌, ◌^◌, ◌<◌, ◌≤◌, ℕ, List, [], Some, None, IsSome, IsTrue, false, length, slice_get, true};
ghost use Rattle.std.specs.List.{last_or};
ghost use Rattle.gh_base.specs.declared.errno.Errno.TheVariants.{CapNull, CapRevoked};
ghost use Rattle.gh_base.specs.declared.frame.Frame.{Frame};
ghost use Rattle.gh_base.specs.declared.ids.CpuNo.{CpuNo};
ghost use Rattle.gh_base.specs.declared.ids.ObjIndex.{ObjIndex};
ghost use Rattle.gh_base.specs.declared.ids.Serial.{Serial};
ghost use Rattle.gh_base.specs.declared.limits.TheConstants.{OBJECT_INDICES};
ghost use Rattle.gh_events.specs.Bounded.{IsBounded, many_references};
ghost use Rattle.gh_events.specs.Calls.{pinned_looks};
ghost use Rattle.gh_events.specs.Config.{Config, Current, came_to, pin_of, present};
ghost use Rattle.gh_events.specs.Events.{Possible, after};
ghost use Rattle.gh_events.specs.Grace.{granting_at, holds_grant};
ghost use Rattle.gh_events.specs.Length.{too_long};
ghost use Rattle.gh_events.specs.References.{IsGranted, IsPinned, IsRow, owed_at, pins_at};
ghost use Rattle.gh_events.specs.Sound.{IsAtRest, IsReclaimedBehind, IsSound, Runs, Step, after_steps, made_by, place_now};
ghost use Rattle.gh_events.specs.Start.{AreIndices, MayGive, given, start};
ghost use Rattle.gh_events.specs.declared.event.Event.{Event};
ghost use Rattle.gh_events.specs.declared.event.Event.TheVariants.{Commit, Look, Revive};
ghost use Rattle.gh_invariant.specs.Lives.{lives};
ghost use Rattle.gh_model.specs.Boot.{boot_fits, boot_state};
ghost use Rattle.gh_model.specs.Graced.{IsGraced};
ghost use Rattle.gh_model.specs.History.{state_at};
ghost use Rattle.gh_model.specs.Legal.{Agree, IsLegal, IsNumbered, is_exit_call};
ghost use Rattle.gh_model.specs.Marks.{Fails, InTurn, Seen, cspace_of};
ghost use Rattle.gh_model.specs.References.{references};
ghost use Rattle.gh_model.specs.Rows.{cpu_row};
ghost use Rattle.gh_model.specs.Word.{word_at};
ghost use Rattle.gh_model.specs.declared.boot_line.BootLine.{BootLine};
ghost use Rattle.gh_model.specs.declared.entry.Entry.TheVariants.{Reclaimed};
ghost use Rattle.gh_model.specs.declared.rows.CapabilityRow.{CapabilityRow};
ghost use Rattle.gh_model.specs.declared.rows.ObjectRow.{ObjectRow};
ghost use Rattle.gh_model.specs.declared.state.State.{State};

/// Of each boot file whose objects have indices, each its own, the configuration before any event
/// is sound.
pub fn start_is_sound()
    ensures { (lines : List BootLine) (index : ℕ → ℕ) → IsTrue (boot_fits lines)
        → AreIndices (boot_state lines) index → IsSound (start (boot_state lines) index) }
{}

/// Every possible event keeps a sound configuration.
pub fn events_keep_sound()
    ensures { (conf : Config) (event : Event) → IsSound conf → Possible conf event
        → IsSound (after conf event) }
{}

/// So does a call that a CPU is given.
pub fn given_call_keeps_sound()
    ensures { (conf : Config) (at number : ℕ) (frame : Frame) → IsSound conf
        → MayGive conf at number → IsSound (given conf at number frame) }
{}

/// So every list of such steps, from a boot file on, leaves the configuration sound.
pub fn runs_are_sound()
    ensures { (lines : List BootLine) (index : ℕ → ℕ) (steps : List Step)
        → IsTrue (boot_fits lines) → AreIndices (boot_state lines) index
        → Runs (start (boot_state lines) index) steps
        → IsSound (after_steps (start (boot_state lines) index) steps) }
{}

/// And leaves the references of an object and what is owed at its index within 2^62 together.
pub fn runs_are_bounded()
    ensures { (lines : List BootLine) (index : ℕ → ℕ) (steps : List Step)
        → IsTrue (boot_fits lines) → AreIndices (boot_state lines) index
        → Runs (start (boot_state lines) index) steps
        → IsBounded (after_steps (start (boot_state lines) index) steps) }
{}

/// An object has fewer than 131,072 references.
pub fn references_are_few()
    ensures { (conf : Config) (serial : ℕ) → IsSound conf
        → references (present conf) serial < many_references }
{}

/// And every count of a reference word is below 2^63, so that it and the dead mark fit 64 bits.
pub fn counts_fit()
    ensures { (conf : Config) (at : ℕ) → IsSound conf → at < OBJECT_INDICES
        → conf.count at < 2 ^ 63 }
{}

/// No history is as long as 12,500,000 entries: neither that of a sound configuration, nor that of
/// any list of such steps from a boot file on. An act is one of a call, of which a CPU has 458,752
/// at most; and retirements, reclaims and parts are counted against objects and capabilities, of
/// which a boot file has few and an act makes one.
pub fn histories_are_short()
    ensures sound { (conf : Config) → IsSound conf → length conf.history < too_long }
    ensures runs { (lines : List BootLine) (index : ℕ → ℕ) (steps : List Step)
        → IsTrue (boot_fits lines) → AreIndices (boot_state lines) index
        → Runs (start (boot_state lines) index) steps
        → length (after_steps (start (boot_state lines) index) steps).history < too_long }
{}

/// A CPU's last place is never above the history, and never falls: neither by an event, nor by a
/// call that a CPU is given.
pub fn last_places_rise()
    ensures within { (conf : Config) (cpu : ℕ) → IsSound conf
        → place_now (conf.cpu cpu) ≤ length conf.history }
    ensures event { (conf : Config) (event : Event) (cpu : ℕ) → IsSound conf → Possible conf event
        → place_now (conf.cpu cpu) ≤ place_now ((after conf event).cpu cpu) }
    ensures call { (conf : Config) (at number : ℕ) (frame : Frame) (cpu : ℕ)
        → MayGive conf at number
        → place_now (conf.cpu cpu) ≤ place_now ((given conf at number frame).cpu cpu) }
{}

/// The index of each object that was made stays, and what was made stays made: over an event, and
/// over any list of steps. So the pairs of a serial and its index only grow.
pub fn indices_stay()
    ensures event { (conf : Config) (event : Event) (serial : ℕ)
        → serial < (present conf).next_serial
        → (after conf event).index serial ≡ conf.index serial }
    ensures run { (conf : Config) (steps : List Step) (serial : ℕ)
        → serial < (present conf).next_serial
        → (after_steps conf steps).index serial ≡ conf.index serial }
    ensures made { (conf : Config) (event : Event)
        → (present conf).next_serial ≤ (present (after conf event)).next_serial }
    ensures made_by_run { (conf : Config) (steps : List Step)
        → (present conf).next_serial ≤ (present (after_steps conf steps)).next_serial }
{}

/// The word of a live object that isn't dead is its references, all pins on it and what the holder
/// owes there; a dead word counts the pins on it that aren't undone.
pub fn words_count_references()
    ensures alive { (conf : Config) (row : ObjectRow) → IsSound conf → IsRow (present conf) row
        → conf.dead (conf.index row.serial.0) ≡ false
        → conf.count (conf.index row.serial.0)
        ≡ references (present conf) row.serial.0
        + (pins_at conf.cpu (conf.index row.serial.0)
        + owed_at conf.turn (conf.index row.serial.0)) }
    ensures dead { (conf : Config) (at : ℕ) → IsSound conf → at < OBJECT_INDICES
        → conf.dead at ≡ true → conf.count at ≡ pins_at conf.cpu at }
{}

/// An index is revived only where its word is dead and counts nothing, no call has a pin there, and
/// each object that ever lived there was reclaimed since.
pub fn revived_index_is_free()
    ensures dead { (conf : Config) (cpu : CpuNo) (object : ObjIndex) (count : ℕ) → IsSound conf
        → Possible conf (Revive cpu object count) → conf.dead object.0 ≡ true }
    ensures zero { (conf : Config) (cpu : CpuNo) (object : ObjIndex) (count : ℕ) → IsSound conf
        → Possible conf (Revive cpu object count) → conf.count object.0 ≡ 0 }
    ensures unpinned { (conf : Config) (cpu : CpuNo) (object : ObjIndex) (count : ℕ) → IsSound conf
        → Possible conf (Revive cpu object count) → pins_at conf.cpu object.0 ≡ 0 }
    ensures reclaimed { (conf : Config) (cpu : CpuNo) (object : ObjIndex) (count place serial : ℕ)
        → IsSound conf → Possible conf (Revive cpu object count) → place ≤ length conf.history
        → lives (state_at conf.boot conf.history place).objects serial ≡ true
        → conf.index serial ≡ object.0 → IsReclaimedBehind conf.history place serial }
{}

/// The object that a look granted a call lives at the looked index until the call's end, and where
/// the call has its pin on it the word there isn't dead.
pub fn granted_objects_stay()
    ensures granted { (conf : Config) (cpu i : ℕ) (call : Current) (seen : Seen) → IsSound conf
        → (conf.cpu cpu).current ≡ Some call
        → slice_get (granting_at call.stage (came_to call) call.seen) i ≡ Some seen
        → IsGranted conf seen }
    ensures pinned { (conf : Config) (cpu i : ℕ) (call : Current) (seen : Seen) → IsSound conf
        → (conf.cpu cpu).current ≡ Some call
        → slice_get (pinned_looks call.stage call.seen) i ≡ Some seen
        → IsPinned conf (pin_of seen) }
{}

/// No call in progress was granted what an entry reclaims, be it in its section or at its act.
pub fn reclaims_spare_calls()
    ensures { (conf : Config) (cpu : CpuNo) (serial : Serial) (seen : List ℕ) (at : ℕ)
        (call : Current) → IsSound conf → Possible conf (Commit cpu (Reclaimed serial seen))
        → (conf.cpu at).current ≡ Some call → holds_grant serial.0 call ≡ false }
{}

/// A look finds what its slot has in the present state, so an empty slot and a revoked capability
/// fail the call. What was removed serves only a call that had looked it up before, and a CPU has
/// one call in progress at most.
pub fn looks_find_present()
    ensures present { (conf : Config) (cpu : CpuNo) (slot : ℕ) (call : Current) (seen : Seen)
        → Possible conf (Look cpu slot)
        → ((after conf (Look cpu slot)).cpu cpu.0).current ≡ Some call
        → last_or None call.seen ≡ Some seen
        → seen.word ≡ word_at (present conf) (cspace_of conf.boot cpu.0) slot }
    ensures empty { (conf : Config) (cpu : CpuNo) (slot : ℕ) (call : Current)
        → Possible conf (Look cpu slot)
        → ((after conf (Look cpu slot)).cpu cpu.0).current ≡ Some call
        → (word_at (present conf) (cspace_of conf.boot cpu.0) slot).row ≡ None
        → came_to call ≡ Fails CapNull }
    ensures revoked { (conf : Config) (cpu : CpuNo) (slot : ℕ) (call : Current)
        (row : CapabilityRow) → Possible conf (Look cpu slot)
        → ((after conf (Look cpu slot)).cpu cpu.0).current ≡ Some call
        → (word_at (present conf) (cspace_of conf.boot cpu.0) slot).row ≡ Some row
        → row.valid ≡ false → came_to call ≡ Fails CapRevoked }
{}

/// At rest, with the turn free and every CPU between calls, the history and the finished calls of
/// all CPUs agree. They are numbered, no call follows an exit call, and only CPUs of the boot made
/// calls. So where each CPU's last call is its exit call, they are legal.
pub fn rest_is_legal()
    ensures agree { (conf : Config) → IsSound conf → IsAtRest conf
        → Agree conf.boot conf.history (made_by conf) }
    ensures numbered { (conf : Config) (cpu : ℕ) → IsSound conf → IsAtRest conf
        → InTurn IsNumbered (made_by conf cpu) }
    ensures idle { (conf : Config) (cpu : ℕ) → IsSound conf → IsAtRest conf
        → cpu_row conf.boot cpu ≡ None → made_by conf cpu ≡ [] }
    ensures legal { (conf : Config) → IsSound conf → IsAtRest conf
        → ((cpu : ℕ) → IsSome (cpu_row conf.boot cpu)
        → IsTrue (is_exit_call (last_or None (made_by conf cpu))))
        → IsLegal conf.boot conf.history (made_by conf) }
{}

/// And they are graced: what an entry retires or reclaims has no references just before it, every
/// CPU that was reading at an object's retirement has left when it is reclaimed, and no counter of
/// a CPU falls from an entry to a later one. Each is above the sections of the calls that were
/// granted what the entry reclaims and of those that ended before it, and below those of the calls
/// behind one that saw it.
pub fn rest_is_graced()
    ensures { (conf : Config) → IsSound conf → IsAtRest conf
        → IsGraced conf.boot conf.history (made_by conf) }
{}
