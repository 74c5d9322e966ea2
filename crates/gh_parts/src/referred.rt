//! Objects that a few references name.

ghost use Rattle.std.specs.Prelude.{◌≡◌, ◌+◌, ◌∷◌, ◌++◌, ◌<◌, ◌≤◌, [], length};

use gh_base::Serial;
use std::marker::Model;

/// How many references the changes of an entry give or take at most.
pub const REFERRED: usize = 6;

/// Objects in order, each named once for each reference. They lie inline and take no memory.
#[derive(Debug, Drop)]
pub struct Referred {
    objects: [Serial; REFERRED],
    count: usize,
}

impl Model for Referred {
    ghost use Rattle.std.specs.Prelude.{List, take, ◌≤◌};
    ghost use Rattle.gh_base.specs.declared.ids.Serial.{Serial};
    ghost use Rattle.gh_parts.specs.declared.referred.TheConstants.{REFERRED};

    ghost Value = { List Serial };

    ghost view = { λ s. take s.count s.objects };

    ghost invariant = { λ s. s.count ≤ REFERRED };
}

impl Referred {
    /// No object.
    pub(crate) fn none() -> Referred
        ensures { result ≡ [] }
    {
        Referred {
            objects: [Serial(0); REFERRED],
            count: 0,
        }
    }

    /// One object.
    pub(crate) fn one(object: Serial) -> Referred
        ensures { result ≡ object ∷ [] }
    {
        let mut referred = Referred::none();
        referred.push(object);
        referred
    }

    /// Two objects.
    pub(crate) fn two(first: Serial, second: Serial) -> Referred
        ensures { result ≡ first ∷ second ∷ [] }
    {
        let mut referred = Referred::one(first);
        referred.push(second);
        referred
    }

    /// Names an object once more.
    pub(crate) fn push(&mut self, object: Serial)
        requires { length self.old < REFERRED }
        ensures { self.new ≡ self.old ++ object ∷ [] }
    {
        let count = self.count;
        self.objects[count] = object;
        self.count = count + 1;
    }

    /// The objects.
    pub fn as_slice(&self) -> &[Serial]
        ensures objects { result.now ≡ self.now }
        ensures few { length self.now ≤ REFERRED }
    {
        &self.objects[..self.count]
    }

    /// Names the objects of another list behind its own.
    pub(crate) fn append(&mut self, more: &Referred)
        requires { length self.old + length more.now ≤ REFERRED }
        ensures { self.new ≡ self.old ++ more.now }
    {
        let objects = more.as_slice();
        for object in objects {
            self.push(*object);
        }
    }
}
