//! The capability space: the words of its slots, and a bit for each slot that is filled.

ghost use Rattle.std.specs.Prelude.{◌≡◌, ◌+◌, ◌<◌, ◌≤◌};
ghost use Rattle.std.specs.Prelude.{IfSome, IfOk, OnOk, OnErr, length, replicate};
ghost use Rattle.gh_base.specs.CapWord.{state_of};
ghost use Rattle.gh_cspace.specs.Cspace.{never_set, word_at, with_word, IsSlot, IsFreeSlot};
ghost use Rattle.gh_cspace.specs.Cspace.{free_slot, children, copy_word, revoked_word};
ghost use Rattle.gh_cspace.specs.Cspace.{empty_word, delete_answer, revoke_answer, SetsSlot};

use crate::words::{is_child, is_free};
use arrayvec::ArrayVec;
use gh_base::{CSPACE_SLOTS, CapState, CapWord, Errno, ObjIndex, first_free_place, with_place};
use std::marker::Model;

/// How many slots a capability space has; slot `s` lies at place `s - 1`.
const PLACES: usize = CSPACE_SLOTS as usize;

/// The word of a slot that no entry has set, and of every number that is no slot.
const NEVER_SET: CapWord = CapWord(0);

/// The words of slots 1 to 127. It lies inline: no call takes memory.
#[derive(Debug, Drop)]
pub struct Cspace {
    words: [CapWord; PLACES],
    // Bit `p` says whether the word at place `p` fills its slot.
    filled: u128,
}

impl Model for Cspace {
    ghost use Rattle.std.specs.Prelude.{List};
    ghost use Rattle.gh_base.specs.declared.cap_word.CapWord.{CapWord};
    ghost use Rattle.gh_cspace.specs.Filled.{MarksFilled};

    ghost Value = { List CapWord };

    ghost view = { λ c. c.words };

    ghost invariant = { λ c. MarksFilled c.filled c.words };
}

impl Cspace {
    /// A capability space whose slots are all free, set by no entry.
    pub fn new() -> Cspace
        ensures { result ≡ replicate CSPACE_SLOTS never_set }
    {
        Cspace {
            words: [NEVER_SET; PLACES],
            filled: 0,
        }
    }

    /// The word of a slot; of a number outside 1 to 127 an empty word that no entry has set.
    pub fn get(&self, slot: u64) -> CapWord
        ensures word { result ≡ word_at self.now slot }
        ensures slots { length self.now ≡ CSPACE_SLOTS }
    {
        let words = &self.words;
        if slot == 0 {
            NEVER_SET
        } else {
            words.get(slot as usize - 1).copied().unwrap_or(NEVER_SET)
        }
    }

    /// The least slot whose word is empty; none where all are filled. It looks at no word.
    pub fn free_slot(&self) -> Option<u8>
        ensures least { result ≡ free_slot self.now }
        ensures free { IfSome result (IsFreeSlot self.now) }
    {
        let place = first_free_place(self.filled);
        (place < PLACES).then_some(place as u8 + 1)
    }

    /// Puts a word into a free slot.
    pub fn insert(&mut self, slot: u8, word: CapWord)
        requires { IsFreeSlot self.old slot }
        ensures { self.new ≡ with_word self.old slot word }
    {
        self.set(slot as usize, word);
    }

    /// Puts a copy of a valid capability into a free slot, and answers its word. The copy has the
    /// rights that the mask leaves, and isn't a master capability.
    pub fn copy(&mut self, slot: u8, source: CapWord, mask: u16, set_at: u32) -> CapWord
        requires free { IsFreeSlot self.old slot }
        requires source { state_of source.0 ≡ CapState.Valid }
        ensures copied { result ≡ copy_word source mask set_at }
        ensures put { self.new ≡ with_word self.old slot result }
    {
        let word = source.masked(mask, set_at);
        self.insert(slot, word);
        word
    }

    /// Empties a slot, and answers the word that stood there. `CapNull` where the slot is empty
    /// already or the number is no slot.
    pub fn delete(&mut self, slot: u64, set_at: u32) -> Result<CapWord, Errno>
        ensures answer { result ≡ delete_answer (word_at self.old slot) }
        ensures emptied { OnOk result (SetsSlot self.old self.new slot (empty_word set_at)) }
        ensures err { OnErr result (self.new ≡ self.old) }
    {
        let word = self.get(slot);
        match word.state() {
            CapState::Empty => Err(Errno::CapNull),
            CapState::Valid | CapState::Revoked => {
                self.set(slot as usize, CapWord::empty(set_at));
                Ok(word)
            }
        }
    }

    /// Revokes a slot's capability, and answers the word that stood there. `CapNull` where the slot
    /// is empty or the number is no slot, `CapRevoked` where it is revoked already, `InsufRights`
    /// where it is a master capability.
    pub fn revoke(&mut self, slot: u64, set_at: u32) -> Result<CapWord, Errno>
        ensures answer { result ≡ revoke_answer (word_at self.old slot) }
        ensures revoked { IfOk result
            (λ word. SetsSlot self.old self.new slot (revoked_word word set_at)) }
        ensures err { OnErr result (self.new ≡ self.old) }
    {
        let word = self.get(slot);
        match word.state() {
            CapState::Empty => Err(Errno::CapNull),
            CapState::Revoked => Err(Errno::CapRevoked),
            CapState::Valid if word.master() => Err(Errno::InsufRights),
            CapState::Valid => {
                self.set(slot as usize, word.revoked(set_at));
                Ok(word)
            }
        }
    }

    /// The slots of the object's valid capabilities without master mark, rising.
    pub fn children(&self, object: ObjIndex) -> ArrayVec<u8, PLACES>
        ensures { result.items ≡ children object.0 self.now }
    {
        let mut slots = ArrayVec::new();
        for (place, word) in self.words.iter().enumerate() {
            if is_child(object, *word) {
                slots.push(place as u8 + 1);
            }
        }
        slots
    }

    /// The one writer of words: it keeps the bit of the place with its word.
    fn set(&mut self, slot: usize, word: CapWord)
        requires { IsSlot slot }
        ensures put { self.new ≡ with_word self.old slot word }
        ensures there { word_at self.new slot ≡ word }
    {
        let place = slot - 1;
        self.words[place] = word;
        self.filled = with_place(self.filled, place, is_free(word));
    }
}
