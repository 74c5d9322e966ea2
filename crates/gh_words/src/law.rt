//! Laws of words. The functions do nothing; their clauses are the laws.

ghost use Rattle.std.specs.Prelude.{◌≡◌, ◌<◌, ◌++◌, ◌∷◌, ℕ, All, List, [], Some, slice_get, ⊤};
ghost use Rattle.gh_base.specs.declared.limits.TheConstants.{CPUS};
ghost use Rattle.gh_base.specs.declared.frame.Frame.{Frame};
ghost use Rattle.gh_events.specs.Config.{Config};
ghost use Rattle.gh_events.specs.Events.{Possible, after};
ghost use Rattle.gh_events.specs.Grace.{AreAtMost};
ghost use Rattle.gh_events.specs.Sound.{IsSound};
ghost use Rattle.gh_events.specs.Start.{MayGive, given};
ghost use Rattle.gh_events.specs.declared.event.Event.{Event};
ghost use Rattle.gh_schedules.specs.Items.{acting, preparing};
ghost use Rattle.gh_schedules.specs.Sweep.{sweep};
ghost use Rattle.gh_schedules.specs.Trace.{AreDone, after_all, and_then};
ghost use Rattle.gh_words.specs.Holding.{HasScans};
ghost use Rattle.gh_words.specs.Interleaved.{Acts, Sweeps};
ghost use Rattle.gh_words.specs.Moved.{Moved, OnlyAlone};
ghost use Rattle.gh_words.specs.Shows.{Shows};
ghost use Rattle.gh_words.specs.Steady.{CanMake, IsSteadyOf};
ghost use Rattle.gh_words.specs.Steps.{LeadsBySteps};
ghost use Rattle.gh_words.specs.declared.plain_words.PlainWords.{PlainWords};

use crate::words::Words;

/// A step before which no other CPU makes one is the event: it was possible, and the words show the
/// configuration behind it. And such an event is such a step, where others may also make none.
pub fn lone_steps_are_events<W: Words>()
    ensures possible { (words : W) (conf : Config) (event : Event)
        (moved : Moved W.between (λ _. ⊤) (W.shows words) conf event)
        → moved.others ≡ [] → Possible conf event }
    ensures shown { (words : W) (conf : Config) (event : Event)
        (moved : Moved W.between (λ _. ⊤) (W.shows words) conf event)
        → moved.others ≡ [] → W.shows words (after conf event) }
    ensures made { (words : W) (conf : Config) (event : Event) → Possible conf event
        → W.between [] → W.shows words (after conf event)
        → Moved W.between (λ _. ⊤) (W.shows words) conf event }
{}

/// A call that a CPU is given leaves the configuration shown.
pub fn given_calls_stay_shown()
    ensures { (words : PlainWords) (conf : Config) (at number : ℕ) (frame : Frame)
        → Shows words conf → MayGive conf at number
        → Shows words (given conf at number frame) }
{}

/// No counter of a scan is less than that CPU's counter on a retirement or a reclaim in the
/// history.
pub fn scans_are_latest()
    ensures { (conf : Config) (seen : List ℕ) (cpu counter : ℕ) → IsSound conf
        → HasScans conf seen → cpu < CPUS → slice_get seen cpu ≡ Some counter
        → AreAtMost conf.history cpu counter }
{}

/// Where no other CPU may make an event between, the sweep and the act are the plans of their CPU
/// alone: each event is possible where it comes, and the words that are said to show what comes
/// behind show the configuration that the plan leads to.
pub fn lone_acts_are_planned<W: Words>()
    ensures swept { (words : W) (at : ℕ) (conf : Config) → OnlyAlone W.between
        → Sweeps W.between at (W.shows words) conf
        → W.shows words (after_all conf (sweep at conf)) }
    ensures possible { (words : W) (at : ℕ) (conf : Config) → OnlyAlone W.between
        → Sweeps W.between at (W.shows words) conf → AreDone conf (sweep at conf) }
    ensures acted { (words : W) (at : ℕ) (conf : Config) → OnlyAlone W.between
        → Acts W.between at (W.shows words) conf
        → W.shows words (after_all conf (and_then (preparing at) (acting at) conf)) }
    ensures done { (words : W) (at : ℕ) (conf : Config) → OnlyAlone W.between
        → Acts W.between at (W.shows words) conf
        → AreDone conf (and_then (preparing at) (acting at) conf) }
{}

/// While others move, the sweep and the act are a list of events: steps of the holder, each behind
/// events of other CPUs that may come between. Each event is possible where it comes.
pub fn acts_are_steps<W: Words>()
    ensures swept { (words : W) (at : ℕ) (conf : Config)
        → Sweeps W.between at (W.shows words) conf
        → LeadsBySteps W.between at (W.shows words) conf }
    ensures acted { (words : W) (at : ℕ) (conf : Config)
        → Acts W.between at (W.shows words) conf
        → LeadsBySteps W.between at (W.shows words) conf }
{}

/// What the holder of the turn can make stays so while others move: possible events of it that ask
/// for no count and no counter can be made, the first of them is possible then, and once it is made
/// behind events of others the rest can be made.
pub fn steady_events_stay<W: Words>()
    ensures begins { (at : ℕ) (conf : Config) (events : List Event) → All (IsSteadyOf at) events
        → AreDone conf events → CanMake at conf events }
    ensures possible { (at : ℕ) (conf : Config) (event : Event) (events : List Event)
        → CanMake at conf (event ∷ events) → Possible conf event }
    ensures goes_on { (words : W) (at : ℕ) (conf : Config) (event : Event) (events : List Event)
        (moved : Moved W.between (λ _. ⊤) (W.shows words) conf event)
        → CanMake at conf (event ∷ events)
        → CanMake at (after_all conf (moved.others ++ event ∷ [])) events }
{}
