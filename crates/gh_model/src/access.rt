//! Which machine page stands at a page of an address space.

ghost use Rattle.std.specs.Prelude.{◌≡◌, ◌<◌, ◌≤◌, ◌+◌, ◌^◌, Option};
ghost use Rattle.std.specs.Prelude.{OnSome, length, find, slice_get, nat_le, nat_lt, ◌&&◌};
ghost use Rattle.std.specs.Bool.{OnTrue};
ghost use Rattle.gh_model.specs.Access.{access_at, covers, covered_access};
ghost use Rattle.gh_model.specs.Access.{row_access, is_holder, named_page};

use crate::lookup::extent_row;
use crate::rows::{ExtentRow, MappingRow};
use crate::state::State;
use gh_base::{Access, PageNo, Serial};

/// Pages of an address space whose machine pages are consecutive and whose access is the same.
#[derive(Clone, Copy, Debug)]
pub struct PageRun {
    pub page: u16,
    /// 0 where there is no run yet.
    pub count: u16,
    /// The machine page at `page`.
    pub machine: PageNo,
    pub access: Access,
}

impl PageRun {
    /// No page yet.
    pub const NONE: PageRun = PageRun {
        page: 0,
        count: 0,
        machine: PageNo(0),
        access: Access(0),
    };
}

/// Whether a run of pages from a base on has this page.
fn maps(base: u64, count: u64, page: u16) -> bool
    ensures { result ≡ (nat_le base page && nat_lt page (base + count)) }
{
    let end = base as u128 + count as u128;
    base <= page as u64 && end > page as u128
}

/// The row that maps the page.
fn covering(rows: &[MappingRow], space: Serial, page: u16) -> Option<MappingRow>
    ensures { result ≡ find (covers space.0 page) rows.now }
{
    rows.iter().copied().find(|row| row.space == space && maps(row.base, row.count, page))
}

fn holder_at(holders: &[Serial], page: u128) -> Option<Serial>
    ensures within { OnSome result (page < length holders.now) }
    ensures holder { result ≡ slice_get holders.now page }
{
    if page < holders.len() as u128 {
        holders.get(page as usize).copied()
    } else {
        None
    }
}

fn holds(holders: &[Serial], extent: Serial, page: u128) -> bool
    ensures within { OnTrue result (page < length holders.now) }
    ensures holds { result ≡ is_holder extent.0 (slice_get holders.now page) }
{
    match holder_at(holders, page) {
        None => false,
        Some(holder) => holder == extent,
    }
}

/// The machine page that a row names at a page which it covers.
fn named(extent: ExtentRow, row: MappingRow, page: u16) -> u128
    ensures { result ≡ named_page extent row page }
{
    (extent.first.0 as u128 + row.offset as u128 + page as u128).saturating_sub(row.base as u128)
}

fn of_row(
    state: &State,
    page: u16,
    row: MappingRow,
    extent: Option<ExtentRow>,
) -> Option<(PageNo, Access)>
    requires { length state.now.holders < 65536 }
    ensures { result ≡ row_access state.now page row extent }
{
    let extent = extent?;
    let machine = named(extent, row, page);
    if holds(state.holders.as_slice(), row.extent, machine) {
        Some((PageNo(machine as u16), row.access))
    } else {
        None
    }
}

fn of_covering(state: &State, page: u16, row: Option<MappingRow>) -> Option<(PageNo, Access)>
    requires { length state.now.holders < 65536 }
    ensures { result ≡ covered_access state.now page row }
{
    let row = row?;
    of_row(
        state,
        page,
        row,
        extent_row(state.extents.as_slice(), row.extent),
    )
}

/// The machine page and the access at a page of an address space.
pub(crate) fn access(state: &State, space: Serial, page: u16) -> Option<(PageNo, Access)>
    requires { length state.now.holders < 65536 }
    ensures { result ≡ access_at state.now space.0 page }
{
    of_covering(
        state,
        page,
        covering(state.mappings.as_slice(), space, page),
    )
}
