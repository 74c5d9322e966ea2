//! The tree of extents, with the holder of each page.

ghost use Rattle.std.specs.Prelude.{◌≡◌, ◌+◌, ◌<◌, ◌≤◌, IfOk};
ghost use Rattle.std.specs.Prelude.{IfNone, IfSome, IsSomeAnd, OnErr, OnOk, IsOk};
ghost use Rattle.std.specs.Prelude.{Some, All, filter, find, length, slice_get};
ghost use Rattle.std.specs.List.{list_any};
ghost use Rattle.std.specs.Result.{result_err};
ghost use Rattle.gh_extent.specs.Extents.{CanGiveBack, HasRow, IsNewChild, IsSpanIn, IsTree};
ghost use Rattle.gh_extent.specs.Extents.{after_give_back, derive_refusal, derived};
ghost use Rattle.gh_extent.specs.Extents.{donate_refusal, donated, first_run, is_child_of};
ghost use Rattle.gh_extent.specs.Extents.{is_other};
ghost use Rattle.gh_extent.specs.Extents.{is_related, moved, root_alone, row_derive_refusal};
ghost use Rattle.gh_extent.specs.Extents.{row_of, rows_donate_refusal, span_row, spans_all};
ghost use Rattle.gh_extent.specs.Extents.{with_parcel, with_row, without_row};
ghost use Rattle.gh_model.specs.Boot.{access_fits};
ghost use Rattle.gh_model.specs.Memory.{HoldsRun};
ghost use Rattle.gh_model.specs.MemoryCalls.{holds_run};
ghost use Rattle.gh_model.specs.Rows.{is_extent};

use crate::runs::Runs;
use gh_base::{Access, Errno, NoMemory, PageNo, Relation, Serial};
use gh_model::{ExtentRow, Holders, Span};
use std::alloc::Global;
use std::marker::Model;

/// The most pages of a machine whose extents can be kept; the least is 1. It is this project's own.
pub const EXTENT_PAGES: u16 = 4096;

/// The extents, and the holder of each page. Offsets and counts are in pages.
///
/// `new` takes the room for as many runs of pages as there are pages, so no move of pages takes
/// memory.
#[derive(Debug, Drop)]
pub struct Extents {
    rows: Vec<ExtentRow>,
    holders: Runs,
}

impl Model for Extents {
    ghost use Rattle.gh_extent.specs.Extents.{Extents as State, IsTree};

    ghost Value = { State };

    ghost view = { λ e. record { rows = e.rows.items; holders = e.holders } };

    ghost invariant = { λ e. IsTree (record { rows = e.rows.items; holders = e.holders }) };
}

/// The row of an extent.
fn row_in(rows: &[ExtentRow], extent: Serial) -> Option<ExtentRow>
    ensures { result ≡ find (is_extent extent.0) rows.now }
{
    rows.iter().copied().find(|row| row.serial == extent)
}

/// Takes the row of an extent away.
fn remove_row(rows: &mut Vec<ExtentRow>, extent: Serial)
    ensures { rows.new.items ≡ filter (is_other extent.0) rows.old.items }
{
    rows.retain(|row| row.serial != extent);
}

/// Whether the one extent is related to the other so.
fn is_related(relation: Relation, from: ExtentRow, to: ExtentRow) -> bool
    ensures { result ≡ is_related relation from to }
{
    match relation {
        Relation::ToChild => to.parent == from.serial,
        Relation::ToParent => from.parent == to.serial,
        Relation::ToSibling => from.serial != to.serial && from.parent == to.parent,
    }
}

/// Whether `wider` has every bit of the access.
fn fits(access: Access, wider: Access) -> bool
    ensures { result ≡ access_fits access.0 wider.0 }
{
    access.0 & wider.0 == access.0
}

/// Whether each page of a run is in the span of the row.
fn spans(row: ExtentRow, first: u128, count: u64) -> bool
    ensures { result ≡ spans_all row first count }
{
    let end = row.first.0 as u128 + row.count as u128;
    count == 0 || row.first.0 as u128 <= first && first <= end && count as u128 <= end - first
}

impl Extents {
    /// The root extent of a machine of 1 to 4,096 pages. It spans and holds them all, with every
    /// access.
    pub fn new(alloc: Global, pages: u16, root: Serial) -> Result<Extents, NoMemory>
        requires some { 0 < pages }
        requires most { pages ≤ EXTENT_PAGES }
        ensures { IfOk result (λ e. e ≡ root_alone pages root) }
    {
        let row = ExtentRow {
            serial: root,
            parent: Serial(0),
            first: PageNo(0),
            count: pages,
            access: Access::ALL,
            parcel: false,
        };
        let mut rows = Vec::new(alloc);
        rows.push(row)?;
        let holders = Runs::new(alloc, pages, root)?;
        Ok(Extents { rows, holders })
    }

    /// Makes an extent of a range of its parent's span, and moves the range's pages to it.
    ///
    /// `ArgSize` where the range passes the end of the parent's span, else `Denied` where the
    /// access isn't within the parent's or the parent doesn't hold each page.
    pub fn derive(
        &mut self,
        child: Serial,
        parent: Serial,
        offset: u64,
        count: u64,
        access: Access,
    ) -> Result<Result<(), Errno>, NoMemory>
        requires { IsNewChild self.old child.0 parent.0 }
        ensures refusal { IfOk result (λ answer.
            result_err answer ≡ derive_refusal self.old parent.0 offset count access.0) }
        ensures derived { IfOk result (λ answer. OnOk answer
            (self.new ≡ derived self.old child parent.0 offset count access)) }
        ensures refused { IfOk result (λ answer. OnErr answer (self.new ≡ self.old)) }
        ensures no_memory { OnErr result (self.new ≡ self.old) }
    {
        let row = self.row(parent).unwrap();
        if let Some(refusal) = self.derive_refusal(row, offset, count, access) {
            return Ok(Err(refusal));
        }
        self.push(ExtentRow {
            serial: child,
            parent,
            first: PageNo(row.first.0 + offset as u16),
            count: count as u16,
            access,
            parcel: false,
        })?;
        self.give_from(row, offset, count, child);
        Ok(Ok(()))
    }

    /// Moves pages that the one extent holds to the other, which is related to it so. The offset
    /// counts from the first page of the giver's span.
    ///
    /// `ArgInval` where the two aren't so related, else `AddrInval` where a page is outside the
    /// receiver's span, else `Denied` where the giver doesn't hold each page. It takes no memory.
    pub fn donate(
        &mut self,
        relation: Relation,
        from: Serial,
        to: Serial,
        offset: u64,
        count: u64,
    ) -> Result<Result<(), Errno>, NoMemory>
        requires from { HasRow self.old from.0 }
        requires to { HasRow self.old to.0 }
        ensures memory { IsOk result }
        ensures refusal { IfOk result (λ answer.
            result_err answer ≡ donate_refusal self.old relation from.0 to.0 offset count) }
        ensures donated { IfOk result (λ answer. OnOk answer
            (self.new ≡ donated self.old from.0 to offset count)) }
        ensures refused { IfOk result (λ answer. OnErr answer (self.new ≡ self.old)) }
    {
        let giver = self.row(from).unwrap();
        let receiver = self.row(to).unwrap();
        if let Some(refusal) = self.donate_refusal(relation, giver, receiver, offset, count) {
            return Ok(Err(refusal));
        }
        self.give_from(giver, offset, count, to);
        Ok(Ok(()))
    }

    /// Makes an extent without pages.
    pub fn add(&mut self, serial: Serial, parent: Serial, span: Span) -> Result<(), NoMemory>
        requires child { IsNewChild self.old serial.0 parent.0 }
        requires span { IsSomeAnd (row_of self.old parent.0) (IsSpanIn span) }
        ensures ok { OnOk result (self.new ≡ with_row self.old (span_row serial parent span)) }
        ensures err { OnErr result (self.new ≡ self.old) }
    {
        self.rows.push(ExtentRow {
            serial,
            parent,
            first: span.first,
            count: span.count,
            access: span.access,
            parcel: false,
        })?;
        Ok(())
    }

    /// Makes a parcel's extent, without pages. It spans what its parent spans.
    pub fn add_parcel(&mut self, serial: Serial, parent: Serial) -> Result<(), NoMemory>
        requires { IsNewChild self.old serial.0 parent.0 }
        ensures ok { OnOk result
            (self.new ≡ with_parcel self.old serial (row_of self.old parent.0)) }
        ensures err { OnErr result (self.new ≡ self.old) }
    {
        let row = self.row(parent).unwrap();
        self.push(ExtentRow {
            serial,
            parent,
            first: row.first,
            count: row.count,
            access: row.access,
            parcel: true,
        })
    }

    /// Moves a run of pages to another extent.
    pub fn move_run(&mut self, from: Serial, to: Serial, first: PageNo, count: u16)
        requires run { HoldsRun self.old.holders from.0 first.0 count }
        requires to { HasRow self.old to.0 }
        ensures { self.new ≡ moved self.old first.0 count to }
    {
        self.holders.give(first.0, count, to);
    }

    /// Moves the first run of an extent to its parent, and answers the run. Where the extent holds
    /// no page its row goes, and there is none.
    pub fn give_back(&mut self, extent: Serial) -> Option<(PageNo, u16)>
        requires { CanGiveBack self.old extent.0 }
        ensures run { result ≡ first_run extent.0 self.old.holders }
        ensures state { self.new ≡ after_give_back self.old extent.0 result }
    {
        let Some((first, count)) = self.holders.first_run(extent) else {
            remove_row(&mut self.rows, extent);
            return None;
        };
        let parent = self.row(extent).unwrap().parent;
        self.holders.give(first.0, count, parent);
        Some((first, count))
    }

    /// The pages of the machine.
    pub fn pages(&self) -> u16
        ensures { result ≡ length self.now.holders }
    {
        self.holders.pages()
    }

    /// The holder of a page of the machine. It finds the page's run by a binary search.
    pub fn holder(&self, page: PageNo) -> Serial
        requires { page.0 < length self.now.holders }
        ensures holder { slice_get self.now.holders page.0 ≡ Some result }
        ensures row { HasRow self.now result.0 }
        ensures tree { IsTree self.now }
    {
        self.holders.holder(page.0)
    }

    /// The row of an extent; none where it has none. It looks at one row after another.
    pub fn row(&self, extent: Serial) -> Option<ExtentRow>
        ensures row { result ≡ row_of self.now extent.0 }
        ensures within { IfSome result
            (λ row. row.first.0 + row.count ≤ length self.now.holders) }
        ensures serial { IfSome result (λ row. row.serial ≡ extent) }
        ensures pages { length self.now.holders ≤ EXTENT_PAGES }
        ensures tree { IsTree self.now }
    {
        row_in(&self.rows, extent)
    }

    /// Whether it is the parent of an extent. Serial 0 is that of the root, which is the first row,
    /// so the test for it ends at once.
    pub fn has_child(&self, extent: Serial) -> bool
        ensures { result ≡ list_any (is_child_of extent.0) self.now.rows }
    {
        self.rows.iter().any(|row| row.parent == extent)
    }

    /// The holder of a page, and how many pages from it on, `most` at most, it holds without a gap.
    pub fn run_at(&self, page: PageNo, most: u16) -> (Serial, u16)
        requires some { 0 < most }
        requires within { page.0 + most ≤ length self.now.holders }
        ensures some { 0 < result.1 }
        ensures most { result.1 ≤ most }
        ensures held { HoldsRun self.now.holders result.0.0 page.0 result.1 }
    {
        self.holders.run_at(page.0, most)
    }

    /// Whether the extent holds each page of a run of the machine's pages. It finds the first
    /// page's run by a binary search.
    pub fn holds_run(&self, extent: Serial, first: u128, count: u128) -> bool
        ensures { result ≡ holds_run self.now.holders extent first count }
    {
        let pages = self.holders.pages() as u128;
        if first > pages || count > pages - first {
            return false;
        }
        self.holders.holds(extent, first as u16, count as u16)
    }

    /// Puts a row last.
    fn push(&mut self, row: ExtentRow) -> Result<(), NoMemory>
        requires span { row.first.0 + row.count ≤ length self.old.holders }
        requires parent { HasRow self.old row.parent.0 }
        ensures ok { OnOk result (self.new ≡ with_row self.old row) }
        ensures err { OnErr result (self.new ≡ self.old) }
    {
        self.rows.push(row)?;
        Ok(())
    }

    /// Gives pages from an offset in an extent's span to another extent.
    fn give_from(&mut self, row: ExtentRow, offset: u64, count: u64, to: Serial)
        requires span { 0 < count → row.first.0 + offset + count ≤ length self.old.holders }
        requires to { HasRow self.old to.0 }
        ensures { self.new ≡ moved self.old (row.first.0 + offset) count to }
    {
        if count > 0 {
            let first = row.first.0 + offset as u16;
            self.holders.give(first, count as u16, to);
        }
    }

    /// Why a range of the extent can't be derived.
    fn derive_refusal(
        &self,
        parent: ExtentRow,
        offset: u64,
        count: u64,
        access: Access,
    ) -> Option<Errno>
        requires span { parent.first.0 + parent.count ≤ length self.now.holders }
        requires pages { length self.now.holders ≤ EXTENT_PAGES }
        ensures refusal { result
            ≡ row_derive_refusal self.now offset count access.0 (Some parent) }
        ensures within { IfNone result (offset + count ≤ parent.count) }
    {
        if offset as u128 + count as u128 > parent.count as u128 {
            return Some(Errno::ArgSize);
        }
        let first = parent.first.0 + offset as u16;
        if fits(access, parent.access) && self.holders.holds(parent.serial, first, count as u16) {
            None
        } else {
            Some(Errno::Denied)
        }
    }

    /// Why the one extent can't donate pages to the other.
    fn donate_refusal(
        &self,
        relation: Relation,
        from: ExtentRow,
        to: ExtentRow,
        offset: u64,
        count: u64,
    ) -> Option<Errno>
        requires span { to.first.0 + to.count ≤ length self.now.holders }
        requires pages { length self.now.holders ≤ EXTENT_PAGES }
        ensures refusal { result
            ≡ rows_donate_refusal self.now relation offset count (Some from) (Some to) }
        ensures within { IfNone result (0 < count
            → from.first.0 + offset + count ≤ length self.now.holders) }
    {
        if !is_related(relation, from, to) {
            return Some(Errno::ArgInval);
        }
        let first = from.first.0 as u128 + offset as u128;
        if !spans(to, first, count) {
            return Some(Errno::AddrInval);
        }
        if count == 0 || self.holders.holds(from.serial, first as u16, count as u16) {
            None
        } else {
            Some(Errno::Denied)
        }
    }
}

impl Holders for Extents {
    ghost use Rattle.gh_extent.specs.Extents.{span_of};

    ghost holders = { λ e. e.holders };

    ghost span_of = { λ e extent. span_of e extent };

    fn holds(&self, extent: Serial, page: PageNo) -> bool {
        page.0 < self.holders.pages() && self.holders.holder(page.0) == extent
    }

    fn span(&self, extent: Serial) -> Option<Span> {
        let row = self.row(extent)?;
        Some(Span {
            first: row.first,
            count: row.count,
            access: row.access,
        })
    }
}
