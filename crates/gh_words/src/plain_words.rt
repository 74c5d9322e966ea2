//! Plain words: tables in one hand, with no others beside them.

ghost use Rattle.std.specs.Prelude.{◌≡◌, ◌<◌};
ghost use Rattle.gh_base.specs.declared.limits.TheConstants.{OBJECT_INDICES};
ghost use Rattle.gh_words.specs.Tables.{with_cap};

use crate::log::Log;
use crate::table::Table;
use gh_base::{CPUS, CapWord, Counters, CpuNo, Frame, Grant, OBJECT_INDICES, ObjIndex, Sequence};
use gh_model::Entry;

/// The words of one capability space: those of slots 1 to 127, and one that no entry sets.
pub const SLOT_WORDS: usize = 128;

/// The words of all indices.
pub const CAP_WORDS: usize = 131_072;

/// A reference word: a count, and whether it is dead.
#[derive(Clone, Copy, Debug, Default)]
pub struct ReferenceWord {
    pub count: u64,
    pub dead: bool,
}

/// The turn: the CPU that has it, and its call.
#[derive(Debug, Drop)]
pub struct Turn {
    pub cpu: CpuNo,
    /// The number of the call.
    pub number: u32,
    pub frame: Frame,
    /// What its looks granted, in order.
    pub grants: Sequence<Grant>,
}

/// The words of a machine whose steps are made one by one.
#[derive(Debug, Drop)]
pub struct PlainWords {
    /// By index and slot: the words of one index lie together.
    pub(crate) caps: Table<CapWord, CAP_WORDS>,
    /// By index.
    pub(crate) references: Table<ReferenceWord, OBJECT_INDICES>,
    /// By CPU.
    pub(crate) counters: Counters,
    /// The index of each CPU's capability space.
    pub(crate) homes: Table<ObjIndex, CPUS>,
    /// The last place of each CPU.
    pub(crate) places: [u32; CPUS],
    pub(crate) log: Log,
    /// None while the turn is free.
    pub(crate) turn: Option<Turn>,
    /// The bell's number.
    pub(crate) rings: u64,
}

impl PlainWords {
    /// The turn; none while it is free.
    pub fn turn(&self) -> &Option<Turn>
        ensures { result.now ≡ self.now.turn }
    {
        &self.turn
    }

    /// The entries of the history, oldest first.
    pub fn entries(&self) -> &[Entry]
        ensures { result.now ≡ self.now.log.entries }
    {
        self.log.entries()
    }

    /// Puts the word of a slot. A number of 128 or more lies in no table, and nothing is put.
    pub(crate) fn put_cap(&mut self, space: ObjIndex, slot: u8, word: CapWord)
        requires { space.0 < OBJECT_INDICES }
        ensures { self.new ≡ with_cap self.old space.0 slot word }
    {
        let at = slot as usize;
        if at < SLOT_WORDS {
            self.caps.set(space.0 as usize * SLOT_WORDS + at, word);
        }
    }
}
