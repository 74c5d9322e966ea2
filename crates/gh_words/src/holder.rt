//! What the holder of the turn does with plain words: each call is its event, and no others come
//! before it.

ghost use Rattle.std.specs.Prelude.{◌≡◌, length};
ghost use Rattle.gh_base.specs.declared.limits.TheConstants.{CPUS};

use crate::plain_words::{PlainWords, ReferenceWord};
use crate::words::Words;
use gh_base::{CapWord, Counters, ObjIndex};
use gh_model::Entry;

/// All nine of them.
fn all_of(counters: Counters) -> Counters
    ensures same { result ≡ counters }
    ensures nine { length counters ≡ CPUS }
{
    counters
}

impl Words for PlainWords {
    ghost use Rattle.gh_words.specs.Moved.{IsAlone};
    ghost use Rattle.gh_words.specs.Shows.{Shows};

    ghost shows = { Shows };

    ghost between = { IsAlone };

    ghost room = { λ words. words.log.room };

    ghost bell = { λ words. words.rings };

    fn set_cap(&mut self, entry: &Entry, space: ObjIndex, slot: u8, word: CapWord) {
        self.put_cap(space, slot, word);
        self.log.push(*entry);
    }

    fn owe(&mut self, object: ObjIndex, more: bool) {
        if more {
            self.add_one(object);
        } else {
            self.take_one(object);
        }
    }

    fn kill(&mut self, object: ObjIndex) -> Result<(), u64> {
        let word = self.reference(object);
        if word.count > 0 {
            return Err(word.count);
        }
        self.put_reference(
            object,
            ReferenceWord {
                count: 0,
                dead: true,
            },
        );
        Ok(())
    }

    fn counters(&mut self) -> Counters {
        all_of(self.counters)
    }

    fn revive(&mut self, object: ObjIndex, count: u64) {
        self.put_reference(object, ReferenceWord { count, dead: false });
    }

    fn commit(&mut self, entry: &Entry) {
        self.log.push(*entry);
    }

    fn ring(&mut self, rings: u64) {
        self.rings = rings;
    }
}
