//! A list over a `Vec`, which contracts see as a list and nothing else.

ghost use Rattle.std.specs.Prelude.{◌≡◌, ◌∷◌, ◌++◌, ◌<◌, ◌==◌};
ghost use Rattle.std.specs.Prelude.{[], length, slice_set, slice_get, remove, Some};
ghost use Rattle.std.specs.Prelude.{IsSome, ◌↔◌, IfOk, OnOk, OnErr};
ghost use Rattle.std.specs.Option.{option_to_list};
ghost use Rattle.std.specs.Borrow.{sem};

use crate::ids::NoMemory;
use std::alloc::Global;
use std::marker::Model;

/// Items in order. It is made from a `Vec` and gives it back without taking memory.
#[derive(Debug, Drop)]
pub struct Sequence<T> {
    vec: Vec<T>,
}

impl<T> Model for Sequence<T> {
    ghost use Rattle.std.specs.Prelude.{List};
    ghost use Rattle.std.specs.Coded.{coded_list};

    ghost Value = { List T };

    ghost coded = { coded_list T.code };

    ghost view = { λ s. s.vec.items };
}

impl<T> Sequence<T> {
    ghost use Rattle.gh_base.specs.Sequence.{lends_items};

    /// An empty sequence, which takes no memory yet.
    pub fn new(alloc: Global) -> Self
        ensures { result ≡ [] }
    {
        Sequence {
            vec: Vec::new(alloc),
        }
    }

    /// An empty sequence with room for this many items.
    pub fn with_room(alloc: Global, room: usize) -> Result<Self, NoMemory>
        ensures { IfOk result (λ s. s ≡ []) }
    {
        let vec = Vec::with_capacity(alloc, room)?;
        Ok(Sequence { vec })
    }

    pub fn from_vec(vec: Vec<T>) -> Self
        ensures { result ≡ vec.items }
    {
        Sequence { vec }
    }

    pub fn into_vec(self) -> Vec<T>
        ensures { result.items ≡ self }
    {
        self.vec
    }

    pub fn len(&self) -> usize
        ensures { result ≡ length self.now }
    {
        self.vec.len()
    }

    pub fn is_empty(&self) -> bool
        ensures { result ≡ (length self.now == 0) }
    {
        self.vec.is_empty()
    }

    pub fn as_slice(&self) -> &[T]
        ensures { result.now ≡ self.now }
    {
        self.vec.as_slice()
    }

    /// A write through the slice changes that item alone.
    pub fn as_mut_slice(&mut self) -> &mut [T]
        ensures* writes_back { sem 𝓛 (lends_items T.row self.entry result) }
        ensures value { result.now ≡ self.old }
    {
        self.vec.as_mut_slice()
    }

    /// Puts an item at the end. Without memory the sequence stays as it was.
    pub fn push(&mut self, item: T) -> Result<(), NoMemory>
    where
        T: Drop,
        ensures ok { OnOk result (self.new ≡ self.old ++ item ∷ []) }
        ensures err { OnErr result (self.new ≡ self.old) }
    {
        self.vec.push(item)?;
        Ok(())
    }

    /// Makes room for so many items more.
    pub fn reserve(&mut self, more: usize) -> Result<(), NoMemory>
        ensures { self.new ≡ self.old }
    {
        self.vec.reserve(more)?;
        Ok(())
    }

    /// Puts an item in the place of another.
    pub fn set(&mut self, at: usize, item: T)
    where
        T: Drop,
        requires { at < length self.old }
        ensures { self.new ≡ slice_set self.old at item }
    {
        self.vec[at] = item;
    }

    /// Takes the last item away; none where there is no item.
    pub fn pop(&mut self) -> Option<T>
        ensures item { self.old ≡ self.new ++ option_to_list result }
        ensures some { IsSome result ↔ (0 < length self.old) }
    {
        self.vec.pop()
    }

    /// Takes the item at a place away, and moves those behind it one place forward.
    pub fn remove(&mut self, at: usize) -> T
        requires { at < length self.old }
        ensures value { slice_get self.old at ≡ Some result }
        ensures rest { self.new ≡ remove self.old at }
    {
        self.vec.remove(at)
    }
}

impl<T: Copy> Sequence<T> {
    /// A sequence of the same items.
    pub fn from_slice(alloc: Global, items: &[T]) -> Result<Self, NoMemory>
        ensures { IfOk result (λ s. s ≡ items.now) }
    {
        let vec = Vec::from_slice(alloc, items)?;
        Ok(Sequence { vec })
    }
}
