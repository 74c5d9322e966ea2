//! The log: the history as the state keeps it, with room for more.

ghost use Rattle.std.specs.Prelude.{◌≡◌, ◌<◌, ◌≤◌, OnErr, OnOk};
ghost use Rattle.gh_parts.specs.Entries.{no_entries, with_logged};

use gh_base::{BoundedSequence, Call, NoMemory, Sequence};
use gh_model::{Entry, Word};
use std::alloc::Global;
use std::marker::Model;

/// An entry, with what is kept beside it: of an act its call, the bytes of its frame and the words
/// that its looks found, and of a part those of the call that it is a part of. Beside another entry
/// they mean nothing.
#[derive(Drop)]
pub struct Logged {
    pub entry: Entry,
    pub call: Call,
    pub bytes: Sequence<u8>,
    pub words: BoundedSequence<Word, 2>,
}

/// Entries in order. No call but `reserve` takes memory.
#[derive(Drop)]
pub struct Log {
    entries: Vec<Logged>,
}

impl Model for Log {
    ghost use Rattle.std.specs.Prelude.{◌-◌, vec_capacity, vec_len};
    ghost use Rattle.gh_parts.specs.Entries.{Entries};

    ghost Value = { Entries };

    ghost view = { λ log. record {
      logged = log.entries.items;
      room = vec_capacity log.entries - vec_len log.entries;
    } };
}

impl Log {
    /// A log without entries and without room.
    pub fn new(alloc: Global) -> Log
        ensures { result ≡ no_entries }
    {
        Log {
            entries: Vec::new(alloc),
        }
    }

    /// Makes room for so many entries more.
    pub fn reserve(&mut self, more: usize) -> Result<(), NoMemory>
        ensures logged { self.new.logged ≡ self.old.logged }
        ensures room { OnOk result (more ≤ self.new.room) }
        ensures err { OnErr result (self.new ≡ self.old) }
    {
        self.entries.reserve(more)?;
        Ok(())
    }

    /// Puts an entry last.
    pub fn push(&mut self, logged: Logged)
        requires { 0 < self.old.room }
        ensures { self.new ≡ with_logged logged self.old }
    {
        self.entries.push_reserved(logged);
    }
}
