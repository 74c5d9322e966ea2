//! A list of limited length over an `ArrayVec`, which contracts see as a list and nothing else.

ghost use Rattle.std.specs.Prelude.{◌≡◌, ◌∷◌, ◌++◌, ◌<◌};
ghost use Rattle.std.specs.Prelude.{◌≤◌, ◌==◌, [], length};

use arrayvec::ArrayVec;
use std::marker::Model;

/// At most `CAP` items in order. It lies inline and takes no memory.
#[derive(Debug, Drop)]
pub struct BoundedSequence<T, const CAP: usize> {
    vec: ArrayVec<T, CAP>,
}

impl<T, const CAP: usize> Model for BoundedSequence<T, CAP> {
    ghost use Rattle.std.specs.Prelude.{List, length, ◌≤◌};
    ghost use Rattle.std.specs.Coded.{coded_list};

    ghost Value = { List T };

    ghost coded = { coded_list T.code };

    ghost view = { λ s. s.vec.items };

    ghost invariant = { λ s. length s.vec.items ≤ CAP };
}

impl<T: Default + Drop, const CAP: usize> BoundedSequence<T, CAP> {
    pub fn new() -> Self
        ensures { result ≡ [] }
    {
        BoundedSequence {
            vec: ArrayVec::new(),
        }
    }
}

impl<T: Drop, const CAP: usize> BoundedSequence<T, CAP> {
    pub fn from_array_vec(vec: ArrayVec<T, CAP>) -> Self
        ensures { result ≡ vec.items }
    {
        BoundedSequence { vec }
    }

    pub fn into_array_vec(self) -> ArrayVec<T, CAP>
        ensures { result.items ≡ self }
    {
        self.vec
    }

    pub fn len(&self) -> usize
        ensures count { result ≡ length self.now }
        ensures room { result ≤ CAP }
    {
        self.vec.len()
    }

    pub fn is_empty(&self) -> bool
        ensures { result ≡ (length self.now == 0) }
    {
        self.vec.is_empty()
    }

    pub fn as_slice(&self) -> &[T]
        ensures { result.now ≡ self.now }
    {
        self.vec.as_slice()
    }

    /// Puts an item at the end.
    pub fn push(&mut self, item: T)
        requires { length self.old < CAP }
        ensures { self.new ≡ self.old ++ item ∷ [] }
    {
        self.vec.push(item);
    }
}

impl<T: Copy + Default + Drop, const CAP: usize> BoundedSequence<T, CAP> {
    /// A sequence of the same items.
    pub fn from_slice(items: &[T]) -> Self
        requires { length items.now ≤ CAP }
        ensures { result ≡ items.now }
    {
        let mut vec = ArrayVec::new();
        for item in items {
            vec.push(*item);
        }
        BoundedSequence { vec }
    }
}
