//! The entries of tables, and those of the lowest tables.

ghost use Rattle.std.specs.Prelude.{◌≡◌, ℕ, ◌+◌, ◌<◌, ◌≤◌, List, IfOk, None};
ghost use Rattle.gh_pagetable.specs.Entry.{AreNumbered, BlockIsNumbered};
ghost use Rattle.gh_pagetable.specs.Entry.{descriptor_of, overwritten, run};
ghost use Rattle.gh_pagetable.specs.Map.{Target, at, second_pages, top_pages};

use crate::descriptor::{Descriptor, Target};
use gh_base::NoMemory;
use std::alloc::Global;
use std::marker::Model;

/// An entry of a table, which covers a range of pages. Pages are counted from the range's first.
pub trait Entry: Drop {
    ghost PAGES: { ℕ };

    // Where the pages of the range lead.
    ghost targets: { Self → List Target };

    // How many tables an entry has whose pages lead so: its own, and those below.
    ghost tables_in: { List Target → ℕ };

    /// Pages of the range.
    const PAGES: u16;

    /// An empty entry, with room for all tables that it can ever need.
    fn new(alloc: Global) -> Result<Self, NoMemory>
        ensures { IfOk result (λ e. targets e ≡ run None PAGES) };

    /// Where a page leads.
    fn get(&self, page: u16) -> Target
        requires { page < PAGES }
        ensures { result ≡ at (targets self.now) page };

    /// Sets `count` pages from `first` on, to lead to the targets from `target` on. Where these are
    /// all pages, no table is visited.
    fn set(&mut self, first: u16, count: u16, target: Target)
        requires some { 0 < count }
        requires inside { first + count ≤ PAGES }
        requires machine { AreNumbered target count }
        ensures { targets self.new ≡ overwritten (targets self.old) first (run target count) };

    /// What the entry says.
    fn descriptor(&self) -> Descriptor
        ensures value { result ≡ descriptor_of (targets self.now) }
        ensures machine { BlockIsNumbered result PAGES };

    /// How many tables the entry has: its own, and those below.
    fn tables(&self) -> u32
        ensures exact { result ≡ tables_in (targets self.now) }
        ensures fewer { result < PAGES };

    ghost some: { 0 < PAGES };

    ghost few: { PAGES ≤ top_pages };
}

/// An entry that can stand in a table that has another above it.
pub trait LowerEntry: Entry {
    ghost fewer: { Self.PAGES ≤ second_pages };
}

/// An entry of a lowest table, which covers one page.
#[derive(Debug, Drop)]
pub struct LeafEntry {
    target: Target,
}

impl Model for LeafEntry {
    ghost use Rattle.gh_pagetable.specs.Entry.{AreNumbered};
    ghost use Rattle.gh_pagetable.specs.Map.{Target};

    ghost Value = { Target };

    ghost view = { λ e. e.target };

    ghost invariant = { λ e. AreNumbered e.target 1 };
}

impl Entry for LeafEntry {
    ghost use Rattle.std.specs.Prelude.{[], ◌∷◌};
    ghost use Rattle.std.proofs.Common.{arith};

    ghost PAGES = { 1 };

    ghost targets = { λ e. e ∷ [] };

    ghost tables_in = { λ _. 0 };

    const PAGES: u16 = 1;

    #[tactic(auto, unfolding(crate::specs::Entry::run))]
    fn new(_alloc: Global) -> Result<Self, NoMemory> {
        Ok(LeafEntry { target: None })
    }

    fn get(&self, _page: u16) -> Target {
        self.target
    }

    fn set(&mut self, _first: u16, _count: u16, target: Target) {
        self.target = target;
    }

    fn descriptor(&self) -> Descriptor {
        Descriptor::Uniform(self.target)
    }

    fn tables(&self) -> u32 {
        0
    }

    ghost some = { Prim.omega (arith) };

    ghost few = { Prim.omega (arith) };
}

impl LowerEntry for LeafEntry {
    ghost use Rattle.std.proofs.Common.{arith};

    ghost fewer = { Prim.omega (arith) };
}
