//! A table of fixed length, which contracts see as a list.

ghost use Rattle.std.specs.Prelude.{◌≡◌, ◌<◌, IfOk, Some, replicate, slice_get, slice_set};

use gh_base::NoMemory;
use std::alloc::Global;
use std::marker::Model;

/// So many items. No call but `filled` takes memory.
#[derive(Debug, Drop)]
pub struct Table<T, const LENGTH: usize> {
    vec: Vec<T>,
}

impl<T, const LENGTH: usize> Model for Table<T, LENGTH> {
    ghost use Rattle.std.specs.Prelude.{◌≡◌, List, length};
    ghost use Rattle.std.specs.Coded.{coded_list};

    ghost Value = { List T };

    ghost coded = { coded_list T.code };

    ghost view = { λ table. table.vec.items };

    ghost invariant = { λ table. length table.vec.items ≡ LENGTH };
}

impl<T: Copy + Drop, const LENGTH: usize> Table<T, LENGTH> {
    /// A table of one item all over.
    pub fn filled(alloc: Global, item: T) -> Result<Self, NoMemory>
        ensures { IfOk result (λ table. table ≡ replicate LENGTH item) }
    {
        let mut vec = Vec::with_capacity(alloc, LENGTH)?;
        for done in 0..LENGTH {
            vec.push(item)?;
        }
        Ok(Table { vec })
    }

    pub fn get(&self, at: usize) -> T
        requires { at < LENGTH }
        ensures { slice_get self.now at ≡ Some result }
    {
        self.vec[at]
    }

    /// Puts an item in the place of another.
    pub fn set(&mut self, at: usize, item: T)
        requires { at < LENGTH }
        ensures set { self.new ≡ slice_set self.old at item }
        ensures put { slice_get self.new at ≡ Some item }
    {
        self.vec[at] = item;
    }
}
