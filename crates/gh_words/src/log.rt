//! The entries of the history, with room for more.

ghost use Rattle.std.specs.Prelude.{◌≡◌, ◌+◌, ◌-◌, ◌<◌, ◌≤◌, ◌∷◌, ◌++◌, OnErr, OnOk, [], length};
ghost use Rattle.gh_base.specs.declared.limits.TheConstants.{ACT_ENTRIES};

use gh_base::{ACT_ENTRIES, NoMemory};
use gh_model::Entry;
use std::alloc::Global;
use std::marker::Model;

/// Entries, oldest first, and how many more can be added without taking memory.
#[derive(Debug, Drop)]
pub struct Log {
    entries: Vec<Entry>,
    room: u32,
}

impl Model for Log {
    ghost use Rattle.std.specs.Prelude.{◌+◌, ◌<◌, ◌^◌, ◌≤◌, vec_capacity, vec_len};
    ghost use Rattle.gh_words.specs.Kept.{Kept};

    ghost Value = { Kept };

    ghost view = { λ log. record { entries = log.entries.items; room = log.room } };

    ghost invariant = { λ log. (vec_len log.entries + log.room ≤ vec_capacity log.entries)
        × (vec_len log.entries + log.room < 2 ^ 32) };
}

impl Log {
    /// No entry, and no room.
    pub fn new(alloc: Global) -> Log
        ensures { result ≡ record { entries = []; room = 0 } }
    {
        Log {
            entries: Vec::new(alloc),
            room: 0,
        }
    }

    /// The entries, oldest first.
    pub fn entries(&self) -> &[Entry]
        ensures { result.now ≡ self.now.entries }
    {
        self.entries.as_slice()
    }

    /// How many there are.
    pub fn len(&self) -> u32
        ensures { result ≡ length self.now.entries }
    {
        self.entries.len() as u32
    }

    /// Makes the room at least that of one act. A history whose length passes 32 bits with it is
    /// answered as want of memory.
    pub fn reserve(&mut self) -> Result<(), NoMemory>
        ensures entries { self.new.entries ≡ self.old.entries }
        ensures room { OnOk result (ACT_ENTRIES ≤ self.new.room) }
        ensures stays { OnErr result (self.new.room ≡ self.old.room) }
    {
        let room = ACT_ENTRIES as u32;
        if self.room >= room {
            return Ok(());
        }
        if self.entries.len() as u32 > u32::MAX - room {
            return Err(NoMemory);
        }
        self.entries.reserve(ACT_ENTRIES)?;
        self.room = room;
        Ok(())
    }

    /// Adds an entry.
    pub fn push(&mut self, entry: Entry)
        requires { 0 < self.old.room }
        ensures entries { self.new.entries ≡ self.old.entries ++ entry ∷ [] }
        ensures room { self.new.room ≡ self.old.room - 1 }
    {
        self.room -= 1;
        self.entries.push(entry).unwrap();
    }
}
