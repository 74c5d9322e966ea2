//! A list that has its room from the start.

ghost use Rattle.std.specs.Prelude.{◌≡◌, ◌<◌, ◌∷◌, ◌++◌, [], length, IfOk, IsSome, ◌↔◌};
ghost use Rattle.std.specs.Option.{option_to_list};

use gh_base::NoMemory;
use std::alloc::Global;
use std::marker::Model;

/// Items in order, with room for `ROOM`. Only `new` takes memory.
#[derive(Debug, Drop)]
pub struct Reserved<T, const ROOM: usize> {
    vec: Vec<T>,
}

impl<T, const ROOM: usize> Model for Reserved<T, ROOM> {
    ghost use Rattle.std.specs.Prelude.{List, ◌≤◌, vec_capacity};
    ghost use Rattle.std.specs.Coded.{coded_list};

    ghost Value = { List T };

    ghost coded = { coded_list T.code };

    ghost view = { λ s. s.vec.items };

    ghost invariant = { λ s. ROOM ≤ vec_capacity s.vec };
}

impl<T: Drop, const ROOM: usize> Reserved<T, ROOM> {
    /// An empty list with its room.
    pub fn new(alloc: Global) -> Result<Self, NoMemory>
        ensures { IfOk result (λ list. list ≡ []) }
    {
        let vec = Vec::with_capacity(alloc, ROOM)?;
        Ok(Reserved { vec })
    }

    /// Puts an item at the end, where there is room.
    pub fn push(&mut self, item: T)
        requires { length self.old < ROOM }
        ensures { self.new ≡ self.old ++ item ∷ [] }
    {
        self.vec.push_reserved(item);
    }

    /// Takes the last item away; none where there is no item.
    pub fn pop(&mut self) -> Option<T>
        ensures item { self.old ≡ self.new ++ option_to_list result }
        ensures some { IsSome result ↔ (0 < length self.old) }
    {
        self.vec.pop()
    }

    pub fn len(&self) -> usize
        ensures { result ≡ length self.now }
    {
        self.vec.len()
    }

    pub fn as_slice(&self) -> &[T]
        ensures { result.now ≡ self.now }
    {
        self.vec.as_slice()
    }
}
