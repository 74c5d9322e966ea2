//! Tables as what was written: the last value at a place counts.

ghost use Rattle.std.specs.Prelude.{◌≡◌};
ghost use Rattle.gh_core.specs.Tables.{last_mark, last_number, last_word};

use gh_base::CapWord;

/// A number that was written at a place.
#[derive(Clone, Copy)]
pub struct Written {
    pub at: u64,
    pub value: u64,
}

/// A reference word that was made dead, or came back to life.
#[derive(Clone, Copy)]
pub struct Marked {
    /// The object index.
    pub at: u64,
    pub dead: bool,
}

/// A capability word that an entry set.
#[derive(Clone, Copy)]
pub struct SlotWritten {
    /// The index of the capability space.
    pub space: u64,
    pub slot: u64,
    pub word: CapWord,
}

/// The last number at a place; none where none was written.
pub(crate) fn last_number(written: &[Written], at: u64) -> Option<u64>
    ensures { result ≡ last_number at written.now }
{
    let mut last = None;
    for number in written {
        if at == number.at {
            last = Some(number.value);
        }
    }
    last
}

/// The last mark of a word; none where none was written.
pub(crate) fn last_mark(marked: &[Marked], at: u64) -> Option<bool>
    ensures { result ≡ last_mark at marked.now }
{
    let mut last = None;
    for mark in marked {
        if at == mark.at {
            last = Some(mark.dead);
        }
    }
    last
}

/// The last word of a slot; none where none was written.
pub(crate) fn last_word(written: &[SlotWritten], space: u64, slot: u64) -> Option<CapWord>
    ensures { result ≡ last_word space slot written.now }
{
    let mut last = None;
    for word in written {
        if space == word.space && slot == word.slot {
            last = Some(word.word);
        }
    }
    last
}
