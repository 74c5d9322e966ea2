//! Reference words of plain words.

ghost use Rattle.std.specs.Prelude.{◌≡◌, ◌<◌, ◌^◌, Some, slice_get};
ghost use Rattle.gh_base.specs.declared.limits.TheConstants.{OBJECT_INDICES};
ghost use Rattle.gh_words.specs.Tables.{one_less, one_more, with_reference};
ghost use Rattle.gh_words.specs.declared.plain_words.ReferenceWord.{ReferenceWord as AWord};

use crate::plain_words::{PlainWords, ReferenceWord};
use gh_base::ObjIndex;

impl PlainWords {
    pub(crate) fn reference(&self, object: ObjIndex) -> ReferenceWord
        requires { object.0 < OBJECT_INDICES }
        ensures { slice_get self.now.references object.0 ≡ Some result }
    {
        self.references.get(object.0 as usize)
    }

    pub(crate) fn put_reference(&mut self, object: ObjIndex, word: ReferenceWord)
        requires { object.0 < OBJECT_INDICES }
        ensures { self.new ≡ with_reference self.old object.0 word }
    {
        self.references.set(object.0 as usize, word);
    }

    /// Adds one to a reference word, and answers the word before.
    pub(crate) fn add_one(&mut self, object: ObjIndex) -> ReferenceWord
        requires within { object.0 < OBJECT_INDICES }
        requires room { (word : AWord) → slice_get self.old.references object.0 ≡ Some word
            → word.count < 2 ^ 63 }
        ensures word { slice_get self.old.references object.0 ≡ Some result }
        ensures added { self.new ≡ with_reference self.old object.0 (one_more result) }
    {
        let word = self.reference(object);
        let count = word.count + 1;
        self.put_reference(
            object,
            ReferenceWord {
                count,
                dead: word.dead,
            },
        );
        word
    }

    /// Takes one away from a reference word, and answers the word before.
    pub(crate) fn take_one(&mut self, object: ObjIndex) -> ReferenceWord
        requires within { object.0 < OBJECT_INDICES }
        requires some { (word : AWord) → slice_get self.old.references object.0 ≡ Some word
            → 0 < word.count }
        ensures word { slice_get self.old.references object.0 ≡ Some result }
        ensures taken { self.new ≡ with_reference self.old object.0 (one_less result) }
    {
        let word = self.reference(object);
        let count = word.count - 1;
        self.put_reference(
            object,
            ReferenceWord {
                count,
                dead: word.dead,
            },
        );
        word
    }
}
