//! The page table of an address space.

ghost use Rattle.std.specs.Prelude.{◌≡◌, ◌+◌, ◌<◌, ◌≤◌, length, IfOk};
ghost use Rattle.gh_pagetable.specs.Entry.{AreNumbered};
ghost use Rattle.gh_pagetable.specs.Map.{ClearsRun, IsEmpty, MapsRun, SetsRun, at, tables_of};

use crate::descriptor::{NUMBERED_PAGES, Target};
use crate::entry::{LeafEntry, LowerEntry};
use crate::table;
use crate::upper::UpperEntry;
use gh_base::{NoMemory, PageNo, SPACE_PAGES};
use std::alloc::Global;
use std::marker::Model;

/// An entry of a second table, which covers 16 pages.
type SecondEntry = UpperEntry<LeafEntry>;

/// An entry of the top table, which covers 256 pages.
type TopEntry = UpperEntry<SecondEntry>;

impl LowerEntry for SecondEntry {
    ghost use Rattle.std.proofs.Common.{arith};

    ghost fewer = { Prim.omega (arith) };
}

/// Where each of the 4,096 pages of an address space leads: nowhere, or to a machine page with a
/// mode, a byte that the table doesn't read.
///
/// A call visits the tables at the two ends of its run, and writes a block for each whole range of
/// 256 or 16 pages between them.
#[derive(Debug, Drop)]
pub struct PageTable {
    top: Vec<TopEntry>,
}

impl Model for PageTable {
    ghost use Rattle.std.specs.Prelude.{List};
    ghost use Rattle.std.specs.List.{flat_map};
    ghost use Rattle.gh_pagetable.specs.Entry.{IsTable};
    ghost use Rattle.gh_pagetable.specs.Map.{Target, top_pages};

    ghost Value = { List Target };

    ghost view = { λ t. flat_map (λ e. e) t.top.items };

    ghost invariant = { λ t. IsTable (λ e. e) top_pages t.top.items };
}

impl PageTable {
    /// A page table that maps no page. It takes the room of all 272 tables that it can ever need,
    /// and no other call takes memory.
    pub fn new(alloc: Global) -> Result<PageTable, NoMemory>
        ensures { IfOk result IsEmpty }
    {
        let top = table::new(alloc)?;
        Ok(PageTable { top })
    }

    /// Maps `count` pages from `first` on to as many machine pages from `page` on, all with the
    /// mode. All else stays.
    pub fn set_run(&mut self, first: u16, count: u16, page: PageNo, mode: u8)
        requires some { 0 < count }
        requires space { first + count ≤ SPACE_PAGES }
        requires machine { page.0 + count ≤ NUMBERED_PAGES }
        ensures { MapsRun self.old self.new first count page mode }
    {
        self.set(first, count, Some((page, mode)));
    }

    /// Takes `count` pages from `first` on away. All else stays.
    pub fn clear_run(&mut self, first: u16, count: u16)
        requires some { 0 < count }
        requires space { first + count ≤ SPACE_PAGES }
        ensures { ClearsRun self.old self.new first count }
    {
        self.set(first, count, None);
    }

    /// Where page `v` leads.
    pub fn get(&self, v: u16) -> Option<(PageNo, u8)>
        requires { v < SPACE_PAGES }
        ensures target { result ≡ at self.now v }
        ensures size { length self.now ≡ SPACE_PAGES }
    {
        table::get(&self.top, v)
    }

    /// How many tables stand below the top table: one for each aligned range of 256 pages that
    /// isn't uniform, and one for each of 16.
    pub fn tables(&self) -> u32
        ensures { result ≡ tables_of self.now }
    {
        table::tables(&self.top)
    }

    /// Sets `count` pages from `first` on, to lead to the targets from `target` on.
    fn set(&mut self, first: u16, count: u16, target: Target)
        requires space { first + count ≤ SPACE_PAGES }
        requires machine { AreNumbered target count }
        ensures { SetsRun self.old self.new first count target }
    {
        table::set(&mut self.top, first, count, target);
    }
}
