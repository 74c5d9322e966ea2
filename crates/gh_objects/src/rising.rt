//! A rising list of serials, with room for one of each index.

ghost use Rattle.std.specs.Prelude.{◌≡◌, ◌+◌, ◌<◌, ◌≤◌};
ghost use Rattle.std.specs.Prelude.{List, [], length, IfOk, Contains};
ghost use Rattle.std.specs.List.Sorted.{IsNonDecreasingBy};
ghost use Rattle.gh_base.specs.declared.ids.Serial.{Serial as Number};
ghost use Rattle.gh_objects.specs.Rising.{place_in};
ghost use Rattle.gh_objects.specs.Serials.{number, with_serial};

use gh_base::{NoMemory, OBJECT_INDICES, Serial};
use std::alloc::Global;
use std::marker::Model;

/// Serials in rising order. No call but `new` takes memory.
#[derive(Debug, Drop)]
pub struct Rising {
    serials: Vec<Serial>,
}

impl Model for Rising {
    ghost use Rattle.std.specs.Prelude.{List, vec_capacity};
    ghost use Rattle.gh_base.specs.declared.ids.Serial.{Serial};
    ghost use Rattle.gh_objects.specs.Rising.{Rises};

    ghost Value = { List Serial };

    ghost view = { λ r. r.serials.items };

    ghost invariant = { λ r. Rises r.serials.items (vec_capacity r.serials) };
}

impl Rising {
    /// No serial, with the room taken.
    pub fn new(alloc: Global) -> Result<Rising, NoMemory>
        ensures { IfOk result (λ r. r ≡ []) }
    {
        let serials = Vec::with_capacity(alloc, OBJECT_INDICES)?;
        Ok(Rising { serials })
    }

    /// The serials, rising.
    pub fn as_slice(&self) -> &[Serial]
        ensures items { result.now ≡ self.now }
        ensures rising { IsNonDecreasingBy number result.now }
    {
        self.serials.as_slice()
    }

    /// Puts a serial to its place.
    pub fn insert(&mut self, serial: Serial)
        requires { length self.old < OBJECT_INDICES }
        ensures { self.new ≡ with_serial serial self.old }
    {
        let at = place_of(self.serials.as_slice(), serial);
        self.serials.insert(at, serial).unwrap();
    }

    /// Takes a serial out, so that the list is as if it had not been put in.
    pub fn remove(&mut self, serial: Serial)
        requires { Contains self.old serial }
        ensures rest { (rest : List Number) → self.old ≡ with_serial serial rest
            → self.new ≡ rest }
        ensures len { length self.new + 1 ≡ length self.old }
    {
        let at = place_of(self.serials.as_slice(), serial);
        self.serials.remove(at);
    }
}

/// The place of the first serial that isn't less, by a binary search.
fn place_of(serials: &[Serial], serial: Serial) -> usize
    requires { IsNonDecreasingBy number serials.now }
    ensures place { result ≡ place_in serial serials.now }
    ensures within { result ≤ length serials.now }
    ensures there { Contains serials.now serial → result < length serials.now }
{
    serials.partition_point(|s| s.0 < serial.0)
}
