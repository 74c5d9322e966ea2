//! Worked runs, with where their pages lead and the tables that they take.

use crate::outcome::holds;
use gh_base::{NoMemory, PageNo};
use gh_pagetable::PageTable;
use std::alloc::Global;

/// Whether a page leads to this machine page with this mode.
fn leads(space: &PageTable, at: u16, page: u16, mode: u8) -> bool {
    at < 4096 && space.get(at) == Some((PageNo(page), mode))
}

/// Whether the page leads to the machine page of its number with mode 7.
fn leads_to_itself(space: &PageTable, at: u16) -> bool {
    leads(space, at, at, 7)
}

fn leads_nowhere(space: &PageTable, at: u16) -> bool {
    at < 4096 && space.get(at).is_none()
}

/// An address space whose first pages lead to the machine pages of their number.
fn first_pages(alloc: Global, count: u16, mode: u8) -> Result<PageTable, NoMemory> {
    let mut space = PageTable::new(alloc)?;
    if 0 < count && count <= 4096 {
        space.set_run(0, count, PageNo(0), mode);
    }
    Ok(space)
}

fn eight_pages_take_two_tables(alloc: Global) -> Result<bool, NoMemory> {
    let none = PageTable::new(alloc)?;
    let eight = first_pages(alloc, 8, 7)?;
    Ok(
        none.tables() == 0
            && leads_nowhere(&none, 0)
            && eight.tables() == 2
            && leads_to_itself(&eight, 7)
            && leads_nowhere(&eight, 8),
    )
}

#[test]
fn eight_pages_take_a_table_of_each_level(rt: HostRuntime) {
    assert!(rt; holds(eight_pages_take_two_tables(rt.alloc())));
}

/// Whether the pages 2 and 3 alone of the block are missing, and the block is split.
fn is_split(space: &PageTable) -> bool {
    space.tables() == 2
        && leads_to_itself(space, 1)
        && leads_nowhere(space, 2)
        && leads_nowhere(space, 3)
        && leads_to_itself(space, 4)
}

fn is_joined(space: &PageTable) -> bool {
    space.tables() == 0 && leads_to_itself(space, 3)
}

fn block_is_split_and_joined(alloc: Global) -> Result<bool, NoMemory> {
    let mut space = first_pages(alloc, 512, 7)?;
    let whole = is_joined(&space);
    space.clear_run(2, 2);
    let split = is_split(&space);
    space.set_run(2, 2, PageNo(2), 7);
    Ok(whole && split && is_joined(&space))
}

#[test]
fn a_lend_splits_a_block_and_its_return_joins_it(rt: HostRuntime) {
    assert!(rt; holds(block_is_split_and_joined(rt.alloc())));
}

/// The machine page and the mode of the second 128 pages, and the tables that 256 pages take.
const SECOND_RUNS: [(u16, u8, u32); 4] = [(128, 7, 0), (127, 7, 1), (256, 7, 1), (128, 5, 1)];

fn takes_tables(alloc: Global, page: u16, mode: u8, tables: u32) -> Result<bool, NoMemory> {
    let mut space = first_pages(alloc, 128, 7)?;
    if page > 256 {
        return Ok(false);
    }
    space.set_run(128, 128, PageNo(page), mode);
    Ok(space.tables() == tables && leads(&space, 129, page + 1, mode))
}

fn take_their_tables(alloc: Global) -> bool {
    let mut all = true;
    for (page, mode, tables) in SECOND_RUNS {
        all = all && holds(takes_tables(alloc, page, mode, tables));
    }
    all
}

#[test]
fn a_range_is_uniform_by_its_machine_pages_and_mode(rt: HostRuntime) {
    assert!(rt; take_their_tables(rt.alloc()));
}

fn whole_space_comes_and_goes(alloc: Global) -> Result<bool, NoMemory> {
    let mut space = first_pages(alloc, 4096, 1)?;
    let mapped = leads(&space, 4095, 4095, 1);
    space.clear_run(1, 4094);
    let ends_left = space.tables() == 4 && leads(&space, 4095, 4095, 1);
    space.clear_run(0, 4096);
    Ok(mapped && ends_left && space.tables() == 0 && leads_nowhere(&space, 0))
}

#[test]
fn the_whole_space_is_mapped_and_cleared(rt: HostRuntime) {
    assert!(rt; holds(whole_space_comes_and_goes(rt.alloc())));
}
