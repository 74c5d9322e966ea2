//! The items of a call: each is possible where its turn comes. The functions do nothing; their
//! clauses are laws.

ghost use Rattle.std.specs.Prelude.{◌≡◌, ◌==◌, ◌<◌, ℕ, List, Some, None, IsTrue, false, true};
ghost use Rattle.gh_base.specs.declared.frame.Frame.{Frame};
ghost use Rattle.gh_base.specs.declared.limits.TheConstants.{CPUS};
ghost use Rattle.gh_events.specs.Config.{Config, Current, Given, Holder, IsBetween, present};
ghost use Rattle.gh_schedules.specs.Causes.{causes_now};
ghost use Rattle.gh_schedules.specs.Course.{call_of_cpu};
ghost use Rattle.gh_schedules.specs.Indices.{HasBlocks, boot_index};
ghost use Rattle.gh_schedules.specs.Items.{IsSteady, act, item};
ghost use Rattle.gh_schedules.specs.Schedule.{IsItem};
ghost use Rattle.gh_events.specs.Sound.{IsSound};
ghost use Rattle.gh_events.specs.Start.{AreIndices, MayGive, given, start};
ghost use Rattle.gh_schedules.specs.Sweep.{HasNotBegun, KeepsNine, sweep};
ghost use Rattle.gh_schedules.specs.Trace.{AreDone, after_all};
ghost use Rattle.gh_events.specs.TurnEvents.{causes, has_causes, ready};
ghost use Rattle.gh_events.specs.declared.event.Event.{Event};
ghost use Rattle.gh_model.specs.Boot.{boot_fits, boot_state};
ghost use Rattle.gh_model.specs.declared.boot_line.BootLine.{BootLine};

/// Events that are each possible where they come keep a sound configuration, and nine counters on
/// each entry that keeps counters.
pub fn traces_keep_sound()
    ensures sound { (conf : Config) (events : List Event) → IsSound conf → AreDone conf events
        → IsSound (after_all conf events) }
    ensures nine { (conf : Config) (events : List Event) → KeepsNine conf.history
        → AreDone conf events → KeepsNine (after_all conf events).history }
{}

/// In a sound configuration the next item of a CPU is possible where its call isn't at its act: it
/// begins a section, looks a capability up, pins what was granted, undoes a pin that came too late,
/// or leaves the section and, where that ends the call, drops its pins. The turn stays as it was.
pub fn call_items_are_possible()
    ensures possible { (conf : Config) (at : ℕ) → IsSound conf → at < CPUS
        → ready (conf.cpu at) ≡ None → AreDone conf (item conf at) }
    ensures turn { (conf : Config) (at : ℕ) → IsSound conf → at < CPUS
        → ready (conf.cpu at) ≡ None → (after_all conf (item conf at)).turn ≡ conf.turn }
{}

/// In a sound configuration whose objects lie in the blocks of their partitions, the holder of the
/// turn can sweep before its act, and the act may begin behind the sweep. Each object that is
/// retired or without references then has what holds it: the count that a failed kill saw, or the
/// first CPU that still has its odd counter of the retirement. These are the counts and the
/// counters that there are behind the sweep.
pub fn sweeps_are_possible()
    ensures possible { (conf : Config) (at : ℕ) → IsSound conf → at < CPUS → HasBlocks conf
        → HasNotBegun conf at → AreDone conf (sweep at conf) }
    ensures blocks { (conf : Config) (at : ℕ) → IsSound conf → at < CPUS → HasBlocks conf
        → HasNotBegun conf at → HasBlocks (after_all conf (sweep at conf)) }
    ensures begins { (conf : Config) (at : ℕ) → IsSound conf → at < CPUS → HasBlocks conf
        → HasNotBegun conf at → HasNotBegun (after_all conf (sweep at conf)) at }
    ensures held { (conf : Config) (at : ℕ) (holder : Holder) → IsSound conf → at < CPUS
        → HasBlocks conf → HasNotBegun conf at → KeepsNine conf.history
        → (after_all conf (sweep at conf)).turn ≡ Some holder
        → has_causes holder (present (after_all conf (sweep at conf))) ≡ true }
    ensures causes { (conf : Config) (at : ℕ) (holder : Holder) → IsSound conf → at < CPUS
        → HasBlocks conf → HasNotBegun conf at → KeepsNine conf.history
        → (after_all conf (sweep at conf)).turn ≡ Some holder
        → causes holder (present (after_all conf (sweep at conf)))
        ≡ causes_now (after_all conf (sweep at conf)) }
{}

/// Where the turn is free, the whole act of a call that is at its act is possible: the turn is
/// taken, the sweep or the parts are made, the act's entry is committed where the act is done, the
/// turn is given back with the call's end and the pins are dropped. The CPU is between calls then,
/// and the turn is free again.
pub fn acts_are_possible()
    ensures possible { (conf : Config) (at : ℕ) (call : Current) → IsSteady conf → at < CPUS
        → ready (conf.cpu at) ≡ Some call → AreDone conf (act at conf) }
    ensures between { (conf : Config) (at : ℕ) (call : Current) → IsSteady conf → at < CPUS
        → ready (conf.cpu at) ≡ Some call → IsBetween ((after_all conf (act at conf)).cpu at) }
    ensures free { (conf : Config) (at : ℕ) (call : Current) → IsSteady conf → at < CPUS
        → ready (conf.cpu at) ≡ Some call → (after_all conf (act at conf)).turn ≡ None }
{}

/// So the next item of every CPU is possible in a steady configuration, and leaves a steady one.
/// The other CPUs are as they were.
pub fn items_are_possible()
    ensures possible { (conf : Config) (at : ℕ) → IsSteady conf → at < CPUS
        → AreDone conf (item conf at) }
    ensures steady { (conf : Config) (at : ℕ) → IsSteady conf → at < CPUS
        → IsSteady (after_all conf (item conf at)) }
    ensures others { (conf : Config) (at cpu : ℕ) → (cpu == at) ≡ false
        → (after_all conf (item conf at)).cpu cpu ≡ conf.cpu cpu }
{}

/// And it is an item of the CPU's call, where the CPU has one: behind it the call goes on with
/// fewer items left, or has ended as the last of its finished calls, with its pins dropped.
pub fn items_are_items()
    ensures { (conf : Config) (at : ℕ) (given : Given) → at < CPUS → IsSteady conf
        → call_of_cpu (conf.cpu at) ≡ Some given → IsItem conf at given (item conf at) }
{}

/// The objects of each boot file have indices, each its own: 128 times the place of its partition
/// among the boot's, and the number of earlier objects of that partition.
pub fn boot_objects_have_indices()
    ensures { (lines : List BootLine) → IsTrue (boot_fits lines)
        → AreIndices (boot_state lines) (boot_index (boot_state lines)) }
{}

/// The start of each boot file is steady with these indices.
pub fn starts_are_steady()
    ensures { (lines : List BootLine) → IsTrue (boot_fits lines)
        → IsSteady (start (boot_state lines) (boot_index (boot_state lines))) }
{}

/// A call that a CPU is given leaves a steady configuration.
pub fn given_call_keeps_steady()
    ensures { (conf : Config) (at number : ℕ) (frame : Frame) → IsSteady conf
        → MayGive conf at number → IsSteady (given conf at number frame) }
{}
