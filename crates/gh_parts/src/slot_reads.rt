//! What the words of the capability spaces' slots tell of the rows. No read takes memory.

ghost use Rattle.std.specs.Prelude.{◌≡◌, ◌-◌, find};
ghost use Rattle.std.specs.List.{list_all, list_any};
ghost use Rattle.gh_invariant.specs.Valid.{IsValid};
ghost use Rattle.gh_model.specs.CapabilityCalls.{free_slot as free_slot_of, is_before, is_finished};
ghost use Rattle.gh_model.specs.CapabilityCalls.{names as names_of_row, rises, rises_from};
ghost use Rattle.gh_model.specs.Word.{word_at};
ghost use Rattle.gh_model.specs.declared.state.State.{State};
ghost use Rattle.gh_parts.specs.SlotReads.{finished_in, free_slot_in, has_copy, held, held_in};
ghost use Rattle.gh_parts.specs.SlotReads.{held_in_some, is_copy, is_copy_at, is_taken_in, name_at};
ghost use Rattle.gh_parts.specs.SlotReads.{row_of_word};
ghost use Rattle.gh_parts.specs.Slots.{is_home};
ghost use Rattle.gh_parts.specs.Stands.{Stands};

use crate::parts::Parts;
use crate::slots::{Slots, home};
use gh_base::{CSPACE_SLOTS, CapState, CapWord, Serial};
use gh_model::{CapabilityRow, TakenSlot, Word};

/// The capability of a slot with this word, of the object with this serial; none of an empty slot.
fn capability_of(cspace: Serial, slot: u8, word: CapWord, object: Serial) -> Option<CapabilityRow>
    ensures { result ≡ row_of_word cspace slot word object }
{
    let valid = match word.state() {
        CapState::Empty => return None,
        CapState::Valid => true,
        CapState::Revoked => false,
    };
    let kind = word.kind()?;
    Some(CapabilityRow {
        cspace,
        slot,
        serial: object,
        kind,
        rights: word.rights(),
        master: word.master(),
        valid,
    })
}

/// Whether a word is a valid capability of the object without master mark.
fn is_copy(object: Serial, word: CapWord, name: Serial) -> bool
    ensures { result ≡ is_copy object word name }
{
    match word.state() {
        CapState::Valid => !word.master() && name == object,
        CapState::Empty | CapState::Revoked => false,
    }
}

impl Slots {
    /// The serial beside a slot's word; 0 beside none.
    fn name(&self, slot: u8) -> Serial
        ensures { result ≡ name_at self.now slot }
    {
        let place = slot.saturating_sub(1) as usize;
        self.names.get(place).copied().unwrap_or(Serial(0))
    }

    /// What a slot holds.
    fn held(&self, cspace: Serial, slot: u8) -> Word
        ensures { result ≡ held_in cspace slot self.now }
    {
        let word = self.words.get(slot as u64);
        Word {
            row: capability_of(cspace, slot, word, self.name(slot)),
            set_at: word.set_at(),
        }
    }

    /// Whether a slot has a valid capability of the object without master mark.
    fn is_copy_at(&self, object: Serial, slot: u8) -> bool
        ensures { result ≡ is_copy_at object self.now slot }
    {
        is_copy(object, self.words.get(slot as u64), self.name(slot))
    }

    /// Whether one of the slots has a valid capability of the object without master mark.
    fn has_copy(&self, object: Serial) -> bool
        ensures { result ≡ has_copy object self.now }
    {
        (1..CSPACE_SLOTS + 1).any(|slot| self.is_copy_at(object, slot))
    }
}

/// What a slot of one of these capability spaces holds.
fn held_in_some(all: &[Slots], cspace: Serial, slot: u8) -> Word
    ensures { result ≡ held_in_some cspace slot (find (is_home cspace.0) all.now) }
{
    match home(all, cspace) {
        None => Word {
            row: None,
            set_at: 0,
        },
        Some(at) => all[at].held(cspace, slot),
    }
}

/// What a slot of one of these capability spaces holds. A number outside 1 to 127 is an empty slot
/// that no entry set.
fn held(all: &[Slots], cspace: Serial, slot: u64) -> Word
    ensures { result ≡ held all.now cspace slot }
{
    if slot < 1 || slot > CSPACE_SLOTS as u64 {
        Word {
            row: None,
            set_at: 0,
        }
    } else {
        held_in_some(all, cspace, slot as u8)
    }
}

/// The least free slot of one of these capability spaces.
fn least_free(all: &[Slots], cspace: Serial) -> Option<u8>
    ensures { result ≡ free_slot_in (find (is_home cspace.0) all.now) }
{
    match home(all, cspace) {
        None => Some(1),
        Some(at) => all[at].words.free_slot(),
    }
}

/// Whether a slot of one of these capability spaces has a valid capability of the object without
/// master mark.
fn any_copy(all: &[Slots], object: Serial) -> bool
    ensures { result ≡ list_any (has_copy object) all.now }
{
    all.iter().any(|slots| slots.has_copy(object))
}

fn names(object: Serial, row: Option<CapabilityRow>) -> bool
    ensures { result ≡ names_of_row object row }
{
    match row {
        None => false,
        Some(row) => row.serial == object,
    }
}

/// Whether all slots that were taken have capabilities of the object.
fn all_taken_of(all: &[Slots], taken: &[TakenSlot], object: Serial) -> bool
    ensures { result ≡ list_all (is_taken_in all.now object) taken.now }
{
    taken.iter().all(|taken| names(object, held(all, taken.cspace, taken.slot as u64).row))
}

fn is_before(a: TakenSlot, b: TakenSlot) -> bool
    ensures { result ≡ is_before a b }
{
    a.cspace.0 < b.cspace.0 || a.cspace == b.cspace && a.slot < b.slot
}

/// Whether the slots rise from the last one before them.
fn rises_from(last: TakenSlot, taken: &[TakenSlot]) -> bool
    ensures { result ≡ rises_from last taken.now }
{
    match taken.split_first() {
        None => true,
        Some((next, others)) => is_before(last, *next) && rises_from(*next, others),
    }
}

fn rises(taken: &[TakenSlot]) -> bool
    ensures { result ≡ rises taken.now }
{
    match taken.split_first() {
        None => true,
        Some((first, others)) => rises_from(*first, others),
    }
}

/// Whether no such capability of the object is left, and the slots that were taken are its own.
fn finished(all: &[Slots], taken: &[TakenSlot], object: Serial) -> bool
    ensures { result ≡ finished_in all.now taken.now object }
{
    !any_copy(all, object) && all_taken_of(all, taken, object) && rises(taken)
}

impl Parts {
    /// What a slot holds. A number outside 1 to 127 is an empty slot that no entry set.
    pub fn word(&self, cspace: Serial, slot: u64) -> Word
        ensures { (s : State) → Stands self.now s → IsValid s → result ≡ word_at s cspace.0 slot }
    {
        let _entries = self.journal.entries;
        held(self.journal.slots.as_slice(), cspace, slot)
    }

    /// The least free slot, by the bits of the capability space; none where all are filled.
    pub fn free_slot(&self, cspace: Serial) -> Option<u8>
        ensures { (s : State) → Stands self.now s → IsValid s → result ≡ free_slot_of s cspace.0 }
    {
        let _entries = self.journal.entries;
        least_free(self.journal.slots.as_slice(), cspace)
    }

    /// Whether a revoke of the object's capabilities has taken all of them, and nothing else. It
    /// looks at each slot of each capability space.
    pub fn finished(&self, object: Serial) -> bool
        ensures { (s : State) → Stands self.now s → IsValid s → result ≡ is_finished s object }
    {
        let _entries = self.journal.entries;
        finished(
            self.journal.slots.as_slice(),
            self.journal.taken.as_slice(),
            object,
        )
    }
}
