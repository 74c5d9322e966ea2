//! An address space.

ghost use Rattle.std.specs.Prelude.{◌≡◌, ℕ, ◌+◌, ◌<◌, ◌≤◌};
ghost use Rattle.std.specs.Prelude.{false, List, Option, IfNone, IfOk};
ghost use Rattle.std.specs.Prelude.{IsSomeAnd, OnErr, OnOk, None, Some, length};
ghost use Rattle.std.specs.List.{list_any};
ghost use Rattle.std.specs.Result.{result_err};
ghost use Rattle.gh_base.specs.declared.ids.Serial.{Serial as Number};
ghost use Rattle.gh_addrspace.specs.Rows.{is_chosen, others, overlaps};
ghost use Rattle.gh_addrspace.specs.Space.{Follows, IsEmptySpace, LeavesOthers, MapsIn, Shows};
ghost use Rattle.gh_addrspace.specs.Space.{chosen_row, lookup_at, row_at, span_map_refusal};
ghost use Rattle.gh_addrspace.specs.Space.{unmap_refusal};
ghost use Rattle.gh_model.specs.Boot.{access_fits, move_pages};
ghost use Rattle.gh_model.specs.Memory.{HoldsRun};
ghost use Rattle.gh_pagetable.specs.Map.{at, tables_of};
ghost use Rattle.gh_model.specs.declared.memory.Span.{Span as Spanned};

use crate::mapping::{Chosen, Mapping};
use crate::pages::{follow_all, hide_chosen, show};
use gh_base::{Access, Errno, NoMemory, PageNo, SPACE_PAGES, SPACE_ROWS, Serial};
use gh_model::{Holders, MapRow, Span};
use gh_pagetable::{NUMBERED_PAGES, PageTable, tables_are_their_answers};
use std::alloc::Global;
use std::marker::Model;

/// An address space of 4,096 pages.
#[derive(Debug, Drop)]
pub struct Space {
    mappings: Vec<Mapping>,
    table: PageTable,
}

impl Model for Space {
    ghost use Rattle.gh_addrspace.specs.Space.{IsSpace, Space as State};

    ghost Value = { State };

    ghost view = { λ s. record { mappings = s.mappings.items; pages = s.table } };

    ghost invariant = { λ s. IsSpace (record { mappings = s.mappings.items; pages = s.table }) };
}

/// Where a page leads; nowhere past the end of the space.
fn target(table: &PageTable, v: u16) -> Option<(PageNo, u8)>
    requires { length table.now ≡ SPACE_PAGES }
    ensures { result ≡ at table.now v }
{
    if v as u64 >= SPACE_PAGES {
        return None;
    }
    table.get(v)
}

/// Whether a row overlaps one of these.
fn overlaps_any(mappings: &[Mapping], row: MapRow) -> bool
    ensures { result ≡ list_any (overlaps row) mappings.now }
{
    mappings.iter().any(|mapping| mapping.overlaps(row))
}

/// Whether one of these is chosen.
fn has_chosen(mappings: &[Mapping], chosen: Chosen) -> bool
    ensures { result ≡ list_any (is_chosen chosen) mappings.now }
{
    mappings.iter().any(|mapping| chosen.has(mapping))
}

/// Takes the chosen rows away.
fn remove_chosen(mappings: &mut Vec<Mapping>, chosen: Chosen)
    ensures { mappings.new.items ≡ others chosen mappings.old.items }
{
    mappings.retain(|mapping| !chosen.has(mapping));
}

/// Whether `wider` has every bit of the access.
fn fits(access: Access, wider: Access) -> bool
    ensures { result ≡ access_fits access.0 wider.0 }
{
    access.0 & wider.0 == access.0
}

impl Space {
    /// An address space without rows. It takes the room of all its tables and rows.
    pub fn new(alloc: Global) -> Result<Space, NoMemory>
        ensures empty { IfOk result IsEmptySpace }
        ensures shows { (spans : ℕ → Option Spanned) (holders : List Number)
            → IfOk result (Shows spans holders) }
    {
        let mappings = Vec::with_capacity(alloc, SPACE_ROWS)?;
        let table = PageTable::new(alloc)?;
        Ok(Space { mappings, table })
    }

    /// Puts a row last, and maps those of its pages whose machine pages its extent holds.
    ///
    /// `AddrOvfl` where the row passes the end of the space, else `ArgSize` where it passes the
    /// end of its extent's span, else `Denied` where its access isn't within the extent's, else
    /// `Busy` where it overlaps a row, else `Nomem` where there are 64 rows.
    pub fn map<H: Holders>(
        &mut self,
        row: MapRow,
        holders: &H,
    ) -> Result<Result<(), Errno>, NoMemory>
        requires { IsSomeAnd (H.span_of holders.now row.extent.0)
            (λ span. span.first.0 + span.count ≤ NUMBERED_PAGES) }
        ensures refusal { IfOk result (λ answer. result_err answer
            ≡ span_map_refusal self.old row (H.span_of holders.now row.extent.0)) }
        ensures mapped { IfOk result (λ answer. OnOk answer (MapsIn self.old self.new
            (H.holders holders.now) row (H.span_of holders.now row.extent.0))) }
        ensures refused { IfOk result (λ answer. OnErr answer (self.new ≡ self.old)) }
        ensures no_memory { OnErr result (self.new ≡ self.old) }

        // It shows who holds the pages, if it did before.
        ensures shows { Shows (H.span_of holders.now) (H.holders holders.now) self.old
            → Shows (H.span_of holders.now) (H.holders holders.now) self.new }
    {
        let span = holders.span(row.extent).unwrap();
        if let Some(refusal) = self.map_refusal(row, span) {
            return Ok(Err(refusal));
        }
        let mapping = Mapping {
            row,
            page: PageNo(span.first.0 + row.offset as u16),
        };
        self.mappings.push(mapping)?;
        show(&mut self.table, mapping, holders);
        Ok(Ok(()))
    }

    /// Takes the row of the map call away that is of these pages of the extent; its pages lead
    /// nowhere.
    ///
    /// `AddrInval` where there is none.
    pub fn unmap(&mut self, extent: Serial, base: u64, offset: u64, count: u64) -> Result<(), Errno>
        ensures refusal { result_err result
            ≡ unmap_refusal self.old (Chosen.Pages extent base offset count) }
        ensures unmapped { OnOk result
            (LeavesOthers self.old self.new (Chosen.Pages extent base offset count)) }
        ensures refused { OnErr result (self.new ≡ self.old) }
        ensures shows { (spans : ℕ → Option Spanned) (holders : List Number)
            → Shows spans holders self.old → Shows spans holders self.new }
    {
        let chosen = Chosen::Pages {
            extent,
            base,
            offset,
            count,
        };
        if !has_chosen(&self.mappings, chosen) {
            return Err(Errno::AddrInval);
        }
        self.take_away(chosen);
        Ok(())
    }

    /// Takes the rows of a parcel's handle away; their pages lead nowhere.
    pub fn clear(&mut self, handle: u32)
        ensures cleared { LeavesOthers self.old self.new (Chosen.Parcel handle) }
        ensures shows { (spans : ℕ → Option Spanned) (holders : List Number)
            → Shows spans holders self.old → Shows spans holders self.new }
    {
        self.take_away(Chosen::Parcel(handle));
    }

    /// The row that covers a page; none where no row does.
    pub fn row_at(&self, v: u16) -> Option<MapRow>
        ensures { result ≡ row_at self.now v }
    {
        let mapping = self.mappings.iter().find(|mapping| mapping.covers(v))?;
        Some(mapping.row)
    }

    /// How many rows there are.
    pub fn rows(&self) -> usize
        ensures { result ≡ length self.now.mappings }
    {
        self.mappings.len()
    }

    /// Whether the row has a page of the space in common with one that is mapped.
    pub fn overlaps(&self, row: MapRow) -> bool
        ensures { result ≡ list_any (overlaps row) self.now.mappings }
    {
        overlaps_any(&self.mappings, row)
    }

    /// Whether a row of the map call is of these pages of the extent.
    pub fn has(&self, extent: Serial, base: u64, offset: u64, count: u64) -> bool
        ensures { result
            ≡ list_any (is_chosen (Chosen.Pages extent base offset count)) self.now.mappings }
    {
        let chosen = Chosen::Pages {
            extent,
            base,
            offset,
            count,
        };
        has_chosen(&self.mappings, chosen)
    }

    /// The row of the map call that is of these pages of the extent; none where none is.
    pub fn row(&self, extent: Serial, base: u64, offset: u64, count: u64) -> Option<MapRow>
        ensures { result ≡ chosen_row (Chosen.Pages extent base offset count) self.now }
    {
        let chosen = Chosen::Pages {
            extent,
            base,
            offset,
            count,
        };
        let mapping = self.mappings.iter().find(|mapping| chosen.has(mapping))?;
        Some(mapping.row)
    }

    /// Follows a run of machine pages that moved from one extent to another. Its cost grows with
    /// the rows, and with the tables that the pages of each that meets the run take.
    pub fn moved(&mut self, from: Serial, to: Serial, first: PageNo, count: u16)
        ensures followed { Follows self.old self.new from.0 to.0 first.0 count }

        // It shows who holds the pages now, if it did before and the giver held the run.
        ensures shows { (spans : ℕ → Option Spanned) (holders : List Number)
            → Shows spans holders self.old → HoldsRun holders from.0 first.0 count
            → Shows spans (move_pages first.0 count to holders) self.new }
    {
        follow_all(&mut self.table, &self.mappings, from, to, first, count);
    }

    /// The machine page at a page, and the access; none where no row covers the page, or the row's
    /// extent doesn't hold the machine page.
    pub fn lookup(&self, v: u16) -> Option<(PageNo, Access)>
        ensures { result ≡ lookup_at self.now v }
    {
        let (page, mode) = target(&self.table, v)?;
        Some((page, Access(mode)))
    }

    /// How many page tables stand below the top table.
    pub fn tables(&self) -> u32
        ensures { result ≡ tables_of self.now.pages }
    {
        self.table.tables()
    }

    /// With nothing to run: where each page of two spaces leads to the same, their page tables are
    /// equal.
    pub(crate) fn compare_tables(&self, other: &Space)
        ensures { ((v : ℕ) → v < SPACE_PAGES → at self.now.pages v ≡ at other.now.pages v)
            → self.now.pages ≡ other.now.pages }
    {
        tables_are_their_answers(&self.table, &other.table);
    }

    /// Why a row of an extent of this span can't be mapped.
    fn map_refusal(&self, row: MapRow, span: Span) -> Option<Errno>
        ensures refusal { result ≡ span_map_refusal self.now row (Some span) }
        ensures space { IfNone result (row.base + row.count ≤ SPACE_PAGES) }
        ensures span { IfNone result (row.offset + row.count ≤ span.count) }
        ensures free { IfNone result (list_any (overlaps row) self.now.mappings ≡ false) }
    {
        if row.base as u128 + row.count as u128 > SPACE_PAGES as u128 {
            Some(Errno::AddrOvfl)
        } else if row.offset as u128 + row.count as u128 > span.count as u128 {
            Some(Errno::ArgSize)
        } else if !fits(row.access, span.access) {
            Some(Errno::Denied)
        } else if overlaps_any(&self.mappings, row) {
            Some(Errno::Busy)
        } else if self.mappings.len() >= SPACE_ROWS {
            Some(Errno::Nomem)
        } else {
            None
        }
    }

    /// Takes the chosen rows away, and their pages.
    fn take_away(&mut self, chosen: Chosen)
        ensures left { LeavesOthers self.old self.new chosen }
        ensures shows { (spans : ℕ → Option Spanned) (holders : List Number)
            → Shows spans holders self.old → Shows spans holders self.new }
    {
        hide_chosen(&mut self.table, &self.mappings, chosen);
        remove_chosen(&mut self.mappings, chosen);
    }
}
