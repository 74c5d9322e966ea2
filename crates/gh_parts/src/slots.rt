//! The slots of one capability space: their words, and the serials that the words' indices stand
//! for.

ghost use Rattle.std.specs.Prelude.{◌≡◌, find, position};
ghost use Rattle.gh_cspace.specs.Cspace.{IsFreeSlot, IsSlot};
ghost use Rattle.gh_model.specs.Changes.{without};
ghost use Rattle.gh_model.specs.Rows.{change_row};
ghost use Rattle.gh_parts.specs.Slots.{IsFilledSlot, emptied, filled, granted_by, granted_in};
ghost use Rattle.gh_parts.specs.Slots.{is_home, new_slots, revoked, set_at_by, set_at_in, words_of};

use gh_base::{CSPACE_SLOTS, CapState, CapWord, Sequence, Serial};
use gh_cspace::Cspace;

/// How many slots a capability space has; slot `s` lies at place `s - 1`.
const PLACES: usize = CSPACE_SLOTS as usize;

/// The slots of a capability space. A word names its object by the index, which is given to another
/// object behind a reclaim; the serial stays that of the word's own.
#[derive(Debug, Drop)]
pub struct Slots {
    pub cspace: Serial,
    pub words: Cspace,
    pub names: [Serial; PLACES],
}

impl Slots {
    /// Slots that are all free, set by no entry.
    pub fn new(cspace: Serial) -> Slots
        ensures { result ≡ new_slots cspace }
    {
        Slots {
            cspace,
            words: Cspace::new(),
            names: [Serial(0); PLACES],
        }
    }

    /// Fills a free slot with a word of the object.
    fn fill(&mut self, slot: u8, word: CapWord, object: Serial)
        requires { IsFreeSlot self.old.words slot }
        ensures { self.new ≡ filled slot word object self.old }
    {
        self.words.insert(slot, word);
        self.names[slot as usize - 1] = object;
    }

    /// Empties a filled slot.
    fn empty(&mut self, slot: u8, entry: u32)
        requires { IsFilledSlot self.old.words slot }
        ensures { self.new ≡ emptied slot entry self.old }
    {
        let _ = self.words.delete(slot as u64, entry);
    }

    /// Revokes the capability in a filled slot, also a master one.
    fn revoke(&mut self, slot: u8, entry: u32)
        requires { IsFilledSlot self.old.words slot }
        ensures { self.new ≡ revoked slot entry self.old }
    {
        let word = self.words.get(slot as u64);
        self.empty(slot, entry);
        self.words.insert(slot, word.revoked(entry));
    }

    /// The number of the entry that last set a slot.
    fn set_at(&self, slot: u8) -> u32
        ensures { result ≡ set_at_in slot self.now }
    {
        self.words.get(slot as u64).set_at()
    }

    /// The object of the valid capability in a slot; none where there is none.
    fn granted(&self, slot: u8) -> Option<Serial>
        requires { IsSlot slot }
        ensures { result ≡ granted_in slot self.now }
    {
        match self.words.get(slot as u64).state() {
            CapState::Valid => Some(self.names[slot as usize - 1]),
            CapState::Empty | CapState::Revoked => None,
        }
    }
}

/// The place of a capability space's slots in the list of all.
pub(crate) fn home(all: &[Slots], cspace: Serial) -> Option<usize>
    ensures { result ≡ position (is_home cspace.0) all.now }
{
    all.iter().position(|slots| slots.cspace == cspace)
}

/// Closes the slots of a capability space.
pub(crate) fn close_slots(all: &mut Sequence<Slots>, cspace: Serial)
    ensures { all.new ≡ without (is_home cspace.0) all.old }
{
    while let Some(at) = home(all.as_slice(), cspace) {
        let _ = all.remove(at);
    }
}

/// The object of the valid capability in a slot of a capability space; none where there is none.
pub(crate) fn granted(all: &[Slots], cspace: Serial, slot: u8) -> Option<Serial>
    requires { IsSlot slot }
    ensures { result ≡ granted_by slot (find (is_home cspace.0) all.now) }
{
    match home(all, cspace) {
        None => None,
        Some(at) => all[at].granted(slot),
    }
}

/// The number of the entry that last set a slot of a capability space; 0 where there is no such
/// space.
pub(crate) fn set_at(all: &[Slots], cspace: Serial, slot: u8) -> u32
    ensures { result ≡ set_at_by slot (find (is_home cspace.0) all.now) }
{
    match home(all, cspace) {
        None => 0,
        Some(at) => all[at].set_at(slot),
    }
}

/// Fills a free slot of a capability space with a word of the object.
pub(crate) fn put_word(
    all: &mut Sequence<Slots>,
    cspace: Serial,
    slot: u8,
    word: CapWord,
    object: Serial,
)
    requires { IsFreeSlot (words_of all.old cspace.0) slot }
    ensures { all.new ≡ change_row (is_home cspace.0) (filled slot word object) all.old }
{
    if let Some(at) = home(all.as_slice(), cspace) {
        all.as_mut_slice()[at].fill(slot, word, object);
    }
}

/// Empties a filled slot of a capability space.
pub(crate) fn empty_slot(all: &mut Sequence<Slots>, cspace: Serial, slot: u8, entry: u32)
    requires { IsFilledSlot (words_of all.old cspace.0) slot }
    ensures { all.new ≡ change_row (is_home cspace.0) (emptied slot entry) all.old }
{
    if let Some(at) = home(all.as_slice(), cspace) {
        all.as_mut_slice()[at].empty(slot, entry);
    }
}

/// Revokes the capability in a filled slot of a capability space.
pub(crate) fn revoke_slot(all: &mut Sequence<Slots>, cspace: Serial, slot: u8, entry: u32)
    requires { IsFilledSlot (words_of all.old cspace.0) slot }
    ensures { all.new ≡ change_row (is_home cspace.0) (revoked slot entry) all.old }
{
    if let Some(at) = home(all.as_slice(), cspace) {
        all.as_mut_slice()[at].revoke(slot, entry);
    }
}
