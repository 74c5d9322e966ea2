//! Tests of one capability word.

ghost use Rattle.std.specs.Prelude.{◌≡◌};
ghost use Rattle.gh_cspace.specs.Cspace.{is_child, is_free};

use gh_base::{CapState, CapWord, ObjIndex};

/// Whether the word leaves its slot free.
pub fn is_free(word: CapWord) -> bool
    ensures { result ≡ is_free word }
{
    match word.state() {
        CapState::Empty => true,
        CapState::Valid | CapState::Revoked => false,
    }
}

/// Whether the word is a valid capability of the object without master mark.
pub fn is_child(object: ObjIndex, word: CapWord) -> bool
    ensures { result ≡ is_child object.0 word }
{
    match word.state() {
        CapState::Valid => !word.master() && word.object() == object,
        CapState::Empty | CapState::Revoked => false,
    }
}
