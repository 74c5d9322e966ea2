//! What the holder of a turn makes on words, several events at once. Others may make theirs
//! between.

ghost use Rattle.std.specs.Prelude.{◌≡◌, ◌+◌, ◌<◌, ◌≤◌};
ghost use Rattle.gh_words.specs.Holding.{ScansPlanned, TriesKilling, entered, killing, owings};
ghost use Rattle.gh_words.specs.Holding.{revival, scan_first};
ghost use Rattle.gh_words.specs.Moved.{May};
ghost use Rattle.gh_words.specs.Steady.{MakesAll, MayMake};

use crate::words::Words;
use gh_base::{CapWord, Counters, ObjIndex};
use gh_model::Entry;

/// Owes one more at each of these indices, in order, or one less.
pub fn owe_each<W: Words>(words: &mut W, objects: &[ObjIndex], more: bool)
    requires can { MayMake (W.shows words.old) (owings objects.now more) }
    ensures made { MakesAll W.between (W.shows words.old) (W.shows words.new)
        (owings objects.now more) }
    ensures stays { W.room words.old ≤ W.room words.new }
    ensures rings { W.bell words.new ≡ W.bell words.old }
{
    for object in objects {
        words.owe(*object, more);
    }
}

/// Commits an entry, which sets this slot to this word where one is given.
pub fn make<W: Words>(words: &mut W, entry: &Entry, set: Option<(ObjIndex, u8, CapWord)>)
    requires can { MayMake (W.shows words.old) (entered entry.now set) }
    requires some { 0 < W.room words.old }
    ensures made { MakesAll W.between (W.shows words.old) (W.shows words.new)
        (entered entry.now set) }
    ensures one { W.room words.old ≤ W.room words.new + 1 }
    ensures rings { W.bell words.new ≡ W.bell words.old }
{
    match set {
        None => words.commit(entry),
        Some((space, slot, word)) => words.set_cap(entry, space, slot, word),
    }
}

/// Gives an index without an object a count, all of it owed.
pub fn revive_one<W: Words>(words: &mut W, object: ObjIndex, count: u64)
    requires can { MayMake (W.shows words.old) (revival object count) }
    ensures made { MakesAll W.between (W.shows words.old) (W.shows words.new)
        (revival object count) }
    ensures stays { W.room words.old ≤ W.room words.new }
    ensures rings { W.bell words.new ≡ W.bell words.old }
{
    words.revive(object, count);
}

/// Scans the counters of all CPUs: the scans that a sweep plans.
pub fn scan_all<W: Words>(words: &mut W) -> Counters
    requires may { May (W.shows words.old) scan_first }
    ensures made { ScansPlanned W.between (W.shows words.old) (W.shows words.new) result }
    ensures stays { W.room words.old ≤ W.room words.new }
    ensures rings { W.bell words.new ≡ W.bell words.old }
{
    words.counters()
}

/// Tries to kill the object at an index. Behind it the word is dead where the answer is Ok; else
/// the word is alive, and the answer is the count that the kill saw.
pub fn try_kill<W: Words>(words: &mut W, object: ObjIndex) -> Result<(), u64>
    requires may { May (W.shows words.old) (killing object) }
    ensures made { TriesKilling W.between (W.shows words.old) (W.shows words.new) object result }
    ensures stays { W.room words.old ≤ W.room words.new }
    ensures rings { W.bell words.new ≡ W.bell words.old }
{
    words.kill(object)
}
