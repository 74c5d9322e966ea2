//! What a mapping row writes into the page table.

ghost use Rattle.std.specs.Prelude.{◌≡◌, ℕ, ◌+◌, ◌<◌, ◌≤◌, true};
ghost use Rattle.std.specs.Prelude.{false, None, All, fold, length, if◌then◌else◌};
ghost use Rattle.std.specs.List.{list_any};
ghost use Rattle.gh_addrspace.specs.Rows.{IsBounded, covers, hides, page_at};
ghost use Rattle.gh_addrspace.specs.Space.{followed, follows};
ghost use Rattle.gh_model.specs.Memory.{held_access, holds_page};
ghost use Rattle.gh_pagetable.specs.Map.{at};

use crate::mapping::{Chosen, Mapping};
use gh_base::{PageNo, Serial};
use gh_model::Holders;
use gh_pagetable::PageTable;

/// How many of at most so many machine pages from the first on the extent holds without a gap.
fn held_pages<H: Holders>(holders: &H, extent: Serial, first: u16, most: u16) -> u16
    requires { first + most ≤ 4096 }
    ensures most { result ≤ most }
    ensures held { (k : ℕ) → k < result
        → holds_page (H.holders holders.now) extent.0 (first + k) ≡ true }
    ensures end { result < most
        → holds_page (H.holders holders.now) extent.0 (first + result) ≡ false }
{
    for page in 0..most {
        if !holders.holds(extent, PageNo(first + page)) {
            return page;
        }
    }
    most
}

/// Maps those pages of a row whose machine pages its extent holds. None of them leads anywhere yet.
pub fn show<H: Holders>(table: &mut PageTable, mapping: Mapping, holders: &H)
    requires bounded { IsBounded mapping }
    requires bare { (v : ℕ) → covers v mapping ≡ true → at table.old v ≡ None }
    ensures shown { (v : ℕ) → at table.new v ≡ (if covers v mapping
        then held_access (H.holders holders.now) mapping.row (page_at mapping v)
        else at table.old v) }
    ensures size { length table.new ≡ length table.old }
{
    let base = mapping.row.base as u16;
    let count = mapping.row.count as u16;
    let page = mapping.page.0;
    let mut done = 0;
    while done < count {
        let held = held_pages(holders, mapping.row.extent, page + done, count - done);
        if held > 0 {
            table.set_run(base + done, held, PageNo(page + done), mapping.row.access.0);
            done += held;
        } else {
            done += 1;
        }
    }
}

/// Takes the pages of a row away.
pub fn hide(table: &mut PageTable, mapping: Mapping)
    requires { IsBounded mapping }
    ensures hidden { (v : ℕ) → at table.new v
        ≡ (if covers v mapping then None else at table.old v) }
    ensures size { length table.new ≡ length table.old }
{
    if mapping.row.count > 0 {
        table.clear_run(mapping.row.base as u16, mapping.row.count as u16);
    }
}

/// Maps the pages of a row whose machine pages moved to its extent, or takes them away if they left
/// it.
pub fn follow(
    table: &mut PageTable,
    mapping: Mapping,
    from: Serial,
    to: Serial,
    first: PageNo,
    count: u16,
)
    requires { IsBounded mapping }
    ensures followed { (v : ℕ) → at table.new v
        ≡ followed from.0 to.0 first.0 count v mapping (at table.old v) }
    ensures size { length table.new ≡ length table.old }
{
    let page = mapping.page.0 as u32;
    let low = page.max(first.0 as u32);
    let high = (page + mapping.row.count as u32).min(first.0 as u32 + count as u32);
    if low < high {
        let base = mapping.row.base as u16 + (low - page) as u16;
        let pages = (high - low) as u16;
        if mapping.row.extent == to {
            table.set_run(base, pages, PageNo(low as u16), mapping.row.access.0);
        } else if mapping.row.extent == from {
            table.clear_run(base, pages);
        }
    }
}

/// Takes the pages of the chosen rows away.
pub fn hide_chosen(table: &mut PageTable, mappings: &[Mapping], chosen: Chosen)
    requires { All IsBounded mappings.now }
    ensures hidden { (v : ℕ) → at table.new v ≡ (if list_any (hides chosen v) mappings.now
        then None else at table.old v) }
    ensures size { length table.new ≡ length table.old }
{
    for mapping in mappings {
        if chosen.has(mapping) {
            hide(table, *mapping);
        }
    }
}

/// Follows machine pages that moved, at each row.
pub fn follow_all(
    table: &mut PageTable,
    mappings: &[Mapping],
    from: Serial,
    to: Serial,
    first: PageNo,
    count: u16,
)
    requires { All IsBounded mappings.now }
    ensures followed { (v : ℕ) → at table.new v ≡ fold
        (follows from.0 to.0 first.0 count v) (at table.old v) mappings.now }
    ensures size { length table.new ≡ length table.old }
{
    for mapping in mappings {
        follow(table, *mapping, from, to, first, count);
    }
}
