//! The entries of the tables that stand above other tables.

ghost use Rattle.std.specs.Prelude.{◌≡◌, ℕ, ◌*◌, List};
ghost use Rattle.gh_pagetable.specs.Entry.{tables_below};
ghost use Rattle.gh_pagetable.specs.Map.{Target};

use crate::descriptor::{Descriptor, Target, further};
use crate::entry::{Entry, LowerEntry};
use crate::table;
use crate::table::ENTRIES;
use gh_base::NoMemory;
use std::alloc::Global;
use std::marker::Model;

/// An entry that is empty, a block, or points to a table of entries `E`. The table's room is the
/// entry's own from the start, and what stands there means nothing while the range is uniform.
#[derive(Debug, Drop)]
pub struct UpperEntry<E: LowerEntry> {
    descriptor: Descriptor,
    table: Vec<E>,
}

impl<E: LowerEntry> Model for UpperEntry<E> {
    ghost use Rattle.std.specs.Prelude.{List};
    ghost use Rattle.gh_pagetable.specs.Entry.{IsExact, targets_of};
    ghost use Rattle.gh_pagetable.specs.Map.{Target};

    ghost Value = { List Target };

    ghost view = { λ e. targets_of E.targets E.PAGES e.descriptor e.table.items };

    ghost invariant = { λ e. IsExact E.targets E.PAGES e.descriptor e.table.items };
}

impl<E: LowerEntry> Entry for UpperEntry<E> {
    ghost use Rattle.std.proofs.Common.{arith};
    ghost use Rattle.gh_pagetable.specs.declared.table.TheConstants.{ENTRIES};

    ghost PAGES = { ENTRIES * E.PAGES };

    ghost targets = { λ e. e };

    ghost tables_in = { tables_below E.tables_in E.PAGES };

    const PAGES: u16 = ENTRIES * E::PAGES;

    fn new(alloc: Global) -> Result<Self, NoMemory> {
        let table = table::new(alloc)?;
        Ok(UpperEntry {
            descriptor: Descriptor::Uniform(None),
            table,
        })
    }

    fn get(&self, page: u16) -> Target {
        match self.descriptor {
            Descriptor::Uniform(target) => further(target, page),
            Descriptor::Table => table::get(&self.table, page),
        }
    }

    fn set(&mut self, first: u16, count: u16, target: Target) {
        if count == Self::PAGES {
            self.descriptor = Descriptor::Uniform(target);
            return;
        }
        self.descriptor = table::update(self.descriptor, &mut self.table, first, count, target);
    }

    fn descriptor(&self) -> Descriptor {
        self.descriptor
    }

    fn tables(&self) -> u32 {
        match self.descriptor {
            Descriptor::Uniform(_) => 0,
            Descriptor::Table => 1 + table::tables(&self.table),
        }
    }

    ghost some = { Prim.omega (arith, E.some) };

    ghost few = { Prim.omega (arith, E.fewer) };
}
