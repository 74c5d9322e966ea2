//! What extents, pages and address spaces tell of the rows. No read takes memory.

ghost use Rattle.std.specs.Prelude.{◌≡◌, ◌==◌, ◌||◌, count_by, find};
ghost use Rattle.std.specs.List.{list_any};
ghost use Rattle.gh_model.specs.Access.{access_at};
ghost use Rattle.gh_model.specs.Boot.{is_row_of, overlaps};
ghost use Rattle.gh_model.specs.MemoryCalls.{holds_run, mapping_row};
ghost use Rattle.gh_model.specs.Rows.{is_extent};
ghost use Rattle.gh_model.specs.declared.state.State.{State};
ghost use Rattle.gh_parts.specs.SpaceReads.{access_in, overlaps_in, row_in, row_with, rows_in};
ghost use Rattle.gh_parts.specs.SpaceReads.{run_row};
ghost use Rattle.gh_parts.specs.Reading.{IsReadable};
ghost use Rattle.gh_parts.specs.Stands.{Stands, extent_rows, page_holders};

use crate::body::Body;
use crate::journal::Memory;
use crate::parts::Parts;
use gh_base::{Access, PageNo, Serial};
use gh_model::{ExtentRow, MapRow, MappingRow};

/// The row of an extent.
fn extent_row(memory: &Memory, extent: Serial) -> Option<ExtentRow>
    ensures { result ≡ find (is_extent extent.0) (extent_rows memory.now) }
{
    match memory {
        Memory::Bare(_) => None,
        Memory::Held(extents) => extents.row(extent),
    }
}

/// Whether the extent holds each of so many pages, which are serial 0's.
fn holds_bare(extent: Serial, count: u128) -> bool
    ensures { result ≡ ((count == 0) || (extent.0 == 0)) }
{
    count == 0 || extent.0 == 0
}

/// Whether the extent holds each page of a run, where serial 0 holds all pages.
fn bare_run(pages: u16, extent: Serial, first: u128, count: u128) -> bool
    ensures { result ≡ holds_run (page_holders (Memory.Bare pages)) extent first count }
{
    let pages = pages as u128;
    if first > pages || count > pages - first {
        return false;
    }
    holds_bare(extent, count)
}

/// Whether the extent holds each page of a run of the machine's pages.
fn holds_run(memory: &Memory, extent: Serial, first: u128, count: u128) -> bool
    ensures { result ≡ holds_run (page_holders memory.now) extent first count }
{
    match memory {
        Memory::Bare(pages) => bare_run(*pages, extent, first, count),
        Memory::Held(extents) => extents.holds_run(extent, first, count),
    }
}

/// A row of these pages of an address space, whatever is mapped there.
fn run_row(base: u64, count: u64) -> MapRow
    ensures { result ≡ run_row base count }
{
    MapRow {
        extent: Serial(0),
        base,
        offset: 0,
        count,
        access: Access(0),
        handle: 0,
    }
}

/// Whether a row of an address space's body has one of these pages; none of any other body has.
fn overlaps_in(body: &Body, base: u64, count: u64) -> bool
    ensures { result ≡ overlaps_in base count body.now }
{
    match body {
        Body::Space(space) => space.overlaps(run_row(base, count)),
        _ => false,
    }
}

/// How many rows an address space's body has; any other has none.
fn rows_in(body: &Body) -> usize
    ensures { result ≡ rows_in body.now }
{
    match body {
        Body::Space(space) => space.rows(),
        _ => 0,
    }
}

/// A row with its address space.
fn row_with(space: Serial, row: MapRow) -> MappingRow
    ensures { result ≡ row_with space row }
{
    MappingRow {
        space,
        extent: row.extent,
        base: row.base,
        offset: row.offset,
        count: row.count,
        access: row.access,
        handle: row.handle,
    }
}

/// The row of the map call in an address space's body that is of these pages of the extent.
fn row_in(
    body: &Body,
    space: Serial,
    extent: Serial,
    base: u64,
    offset: u64,
    count: u64,
) -> Option<MappingRow>
    ensures { result ≡ row_in space extent base offset count body.now }
{
    match body {
        Body::Space(mapped) => {
            let row = mapped.row(extent, base, offset, count)?;
            Some(row_with(space, row))
        }
        _ => None,
    }
}

/// The machine page and the access at a page of an address space's body.
fn access_in(body: &Body, page: u16) -> Option<(PageNo, Access)>
    ensures { result ≡ access_in page body.now }
{
    match body {
        Body::Space(space) => space.lookup(page),
        _ => None,
    }
}

impl Parts {
    /// The row of an extent. It looks at one extent after another.
    pub fn extent(&self, extent: Serial) -> Option<ExtentRow>
        ensures { (s : State) → Stands self.now s → result ≡ find (is_extent extent.0) s.extents }
    {
        extent_row(&self.journal.memory, extent)
    }

    /// Whether the extent holds each page of a run of the machine's pages, by a binary search for
    /// the first.
    pub fn holds_run(&self, extent: Serial, first: u128, count: u128) -> bool
        ensures { (s : State) → Stands self.now s
            → result ≡ holds_run s.holders extent first count }
    {
        holds_run(&self.journal.memory, extent, first, count)
    }

    /// Whether a mapping row of the address space has one of these pages. It looks at the space's
    /// rows.
    pub fn overlaps(&self, space: Serial, base: u64, count: u64) -> bool
        requires { IsReadable self.now }
        ensures { (s : State) → Stands self.now s
            → result ≡ list_any (overlaps space.0 base count) s.mappings }
    {
        match self.index(space) {
            None => false,
            Some(index) => overlaps_in(self.shares.body(index), base, count),
        }
    }

    /// How many mapping rows the address space has, by a binary search for it.
    pub fn mappings(&self, space: Serial) -> usize
        requires { IsReadable self.now }
        ensures { (s : State) → Stands self.now s
            → result ≡ count_by (is_row_of space.0) s.mappings }
    {
        match self.index(space) {
            None => 0,
            Some(index) => rows_in(self.shares.body(index)),
        }
    }

    /// The row of the map call with this extent, base, offset and count. It looks at the space's
    /// rows.
    pub fn mapping(
        &self,
        space: Serial,
        extent: Serial,
        base: u64,
        offset: u64,
        count: u64,
    ) -> Option<MappingRow>
        requires { IsReadable self.now }
        ensures { (s : State) → Stands self.now s
            → result ≡ mapping_row s space extent base offset count }
    {
        match self.index(space) {
            None => None,
            Some(index) => row_in(self.shares.body(index), space, extent, base, offset, count),
        }
    }

    /// The machine page and the access at a page of an address space, by a binary search for the
    /// space and a walk of its page table.
    pub fn access(&self, space: Serial, page: u16) -> Option<(PageNo, Access)>
        requires { IsReadable self.now }
        ensures { (s : State) → Stands self.now s → result ≡ access_at s space.0 page }
    {
        match self.index(space) {
            None => None,
            Some(index) => access_in(self.shares.body(index), page),
        }
    }
}
