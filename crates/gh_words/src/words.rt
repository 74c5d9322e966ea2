//! What the holder of a turn may do with words.

ghost use Rattle.std.specs.Prelude.{◌≡◌, ◌+◌, ◌<◌, ◌≤◌, ℕ, List};
ghost use Rattle.gh_events.specs.Config.{Config};
ghost use Rattle.gh_events.specs.declared.event.Event.{Event};
ghost use Rattle.gh_words.specs.Holding.{IsRung, KillAnswers, ScansAll, committing, killing, owing};
ghost use Rattle.gh_words.specs.Holding.{reviving, scan_first, setting};
ghost use Rattle.gh_words.specs.Moved.{Makes, MakesFinding, May};

use gh_base::{CapWord, Counters, ObjIndex};
use gh_model::Entry;

/// The words of a machine in the hands of the CPU that has the turn. Each call but `ring` is one
/// event of it, `counters` nine, before which other CPUs may make theirs.
pub trait Words {
    // The configurations that the words show.
    ghost shows: { Self → Config → Type 0 };

    // Which events of other CPUs may come before a step.
    ghost between: { List Event → Type 0 };

    // How many entries can still be committed without taking memory.
    ghost room: { Self → ℕ };

    // The bell's number.
    ghost bell: { Self → ℕ };

    /// Commits an entry that sets a slot to this word.
    fn set_cap(&mut self, entry: &Entry, space: ObjIndex, slot: u8, word: CapWord)
        requires may { May (shows self.old) (setting entry.now space slot word) }
        requires some { 0 < room self.old }
        ensures made { Makes between (shows self.old) (shows self.new)
            (setting entry.now space slot word) }
        ensures one { room self.old ≤ room self.new + 1 }
        ensures rings { bell self.new ≡ bell self.old };

    /// Owes one more at an index, or one less.
    fn owe(&mut self, object: ObjIndex, more: bool)
        requires may { May (shows self.old) (owing object more) }
        ensures made { Makes between (shows self.old) (shows self.new) (owing object more) }
        ensures stays { room self.old ≤ room self.new }
        ensures rings { bell self.new ≡ bell self.old };

    /// Makes a reference word of 0 dead; of another answers the count.
    fn kill(&mut self, object: ObjIndex) -> Result<(), u64>
        requires may { May (shows self.old) (killing object) }
        ensures made { MakesFinding between (shows self.old) (shows self.new) (killing object)
            (KillAnswers object result) }
        ensures stays { room self.old ≤ room self.new }
        ensures rings { bell self.new ≡ bell self.old };

    /// Scans the counters of all CPUs, in order.
    fn counters(&mut self) -> Counters
        requires may { May (shows self.old) scan_first }
        ensures made { ScansAll between (shows self.old) (shows self.new) result }
        ensures stays { room self.old ≤ room self.new }
        ensures rings { bell self.new ≡ bell self.old };

    /// Gives an index without an object a count, all of it owed.
    fn revive(&mut self, object: ObjIndex, count: u64)
        requires may { May (shows self.old) (reviving object count) }
        ensures made { Makes between (shows self.old) (shows self.new) (reviving object count) }
        ensures stays { room self.old ≤ room self.new }
        ensures rings { bell self.new ≡ bell self.old };

    /// Commits an entry that sets no slot.
    fn commit(&mut self, entry: &Entry)
        requires may { May (shows self.old) (committing entry.now) }
        requires some { 0 < room self.old }
        ensures made { Makes between (shows self.old) (shows self.new) (committing entry.now) }
        ensures one { room self.old ≤ room self.new + 1 }
        ensures rings { bell self.new ≡ bell self.old };

    /// Sets the bell's number to the number of rings of the history. It is no event.
    fn ring(&mut self, rings: u64)
        requires may { IsRung (shows self.old) rings }
        ensures set { bell self.new ≡ rings }
        ensures shown { (conf : Config) → shows self.old conf → shows self.new conf }
        ensures stays { room self.old ≤ room self.new };
}
