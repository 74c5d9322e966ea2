//! Operations on a page table.

use crate::checksum::checksum;
use gh_base::{NoMemory, PageNo, SPACE_PAGES};
use gh_pagetable::PageTable;
use std::alloc::Global;

/// Pages of the address space.
const PAGES: u16 = SPACE_PAGES as u16;

/// Read and write for user and kernel.
const MODE: u8 = 0x66;

/// Maps a page to the machine page of the same number.
fn set_page(table: &mut PageTable, page: u16) {
    if page < PAGES {
        table.set_run(page, 1, PageNo(page), MODE);
    }
}

fn clear_page(table: &mut PageTable, page: u16) {
    if page < PAGES {
        table.clear_run(page, 1);
    }
}

/// Another page at each turn: 0, 2, 4 and so on, and again from 0.
fn even_page(turn: u64) -> u16 {
    (turn % (SPACE_PAGES / 2)) as u16 * 2
}

/// The page behind that.
fn odd_page(turn: u64) -> u16 {
    (turn % (SPACE_PAGES / 2)) as u16 * 2 + 1
}

/// A page table that maps every second page, so that no range is uniform.
fn every_second(alloc: Global) -> Result<PageTable, NoMemory> {
    let mut table = PageTable::new(alloc)?;
    for page in 0..PAGES / 2 {
        set_page(&mut table, page * 2);
    }
    Ok(table)
}

/// Sets a page in a range that isn't uniform.
pub fn set_one(alloc: Global, count: u64) -> Result<u64, NoMemory> {
    let mut table = every_second(alloc)?;
    let sum = checksum(count, |turn| {
        set_page(&mut table, even_page(turn));
        turn
    });
    Ok(sum ^ table.tables() as u64)
}

/// Clears a page in a range that isn't uniform.
pub fn clear_one(alloc: Global, count: u64) -> Result<u64, NoMemory> {
    let mut table = every_second(alloc)?;
    let sum = checksum(count, |turn| {
        clear_page(&mut table, odd_page(turn));
        turn
    });
    Ok(sum ^ table.tables() as u64)
}

/// Clears a page of a block, which splits it, and sets the page again, which joins it.
pub fn split_and_join(alloc: Global, count: u64) -> Result<u64, NoMemory> {
    let mut table = PageTable::new(alloc)?;
    table.set_run(0, PAGES, PageNo(0), MODE);
    let sum = checksum(count, |turn| {
        let page = even_page(turn);
        clear_page(&mut table, page);
        set_page(&mut table, page);
        turn
    });
    Ok(sum ^ table.tables() as u64)
}

/// Sets all 4,096 pages.
pub fn set_all(alloc: Global, count: u64) -> Result<u64, NoMemory> {
    let mut table = every_second(alloc)?;
    let sum = checksum(count, |turn| {
        table.set_run(0, PAGES, PageNo(0), (turn % 8) as u8);
        turn
    });
    Ok(sum ^ table.tables() as u64)
}

/// Clears all 4,096 pages.
pub fn clear_all(alloc: Global, count: u64) -> Result<u64, NoMemory> {
    let mut table = every_second(alloc)?;
    let sum = checksum(count, |turn| {
        table.clear_run(0, PAGES);
        turn
    });
    Ok(sum ^ table.tables() as u64)
}

/// Sets a run of 4,094 pages, from the second page on, which splits the ranges at both ends.
pub fn set_most(alloc: Global, count: u64) -> Result<u64, NoMemory> {
    let mut table = PageTable::new(alloc)?;
    let sum = checksum(count, |turn| {
        table.set_run(1, PAGES - 2, PageNo(1), (turn % 8) as u8);
        turn
    });
    Ok(sum ^ table.tables() as u64)
}

/// Clears a run of 4,094 pages, from the second page on, of a table whose ends are mapped.
pub fn clear_most(alloc: Global, count: u64) -> Result<u64, NoMemory> {
    let mut table = every_second(alloc)?;
    let sum = checksum(count, |turn| {
        table.clear_run(1, PAGES - 2);
        turn
    });
    Ok(sum ^ table.tables() as u64)
}

/// Asks where a page leads.
pub fn get(alloc: Global, count: u64) -> Result<u64, NoMemory> {
    let table = every_second(alloc)?;
    Ok(checksum(count, |turn| {
        let page = (turn % SPACE_PAGES) as u16;
        table.get(page).map_or(0, |target| target.0.0 as u64)
    }))
}

/// Counts the tables, of which there are 272.
pub fn tables(alloc: Global, count: u64) -> Result<u64, NoMemory> {
    let mut table = every_second(alloc)?;
    Ok(checksum(count, |turn| {
        set_page(&mut table, even_page(turn));
        table.tables() as u64
    }))
}
