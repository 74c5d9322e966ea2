//! Worked rows of address spaces over extents, with the tables that they take.

ghost use Rattle.std.specs.Prelude.{◌<◌, ◌≤◌};

use crate::outcome::holds;
use gh_addrspace::Space;
use gh_base::{Access, Errno, NoMemory, PageNo, Serial};
use gh_extent::{EXTENT_PAGES, Extents};
use gh_model::{Holders, MapRow};
use std::alloc::Global;

const ROOT: Serial = Serial(4);

const FIRST: Serial = Serial(5);

const SECOND: Serial = Serial(6);

const LENT: Serial = Serial(7);

fn row(extent: Serial, base: u64, count: u64) -> MapRow {
    MapRow {
        extent,
        base,
        offset: 0,
        count,
        access: Access::ALL,
        handle: 0,
    }
}

/// The root extent of a machine.
fn machine(alloc: Global, pages: u16) -> Result<Extents, NoMemory>
    requires some { 0 < pages }
    requires most { pages ≤ 4096 }
{
    Extents::new(alloc, pages, ROOT)
}

/// Derives a new extent from one that is there; whether it was made.
fn derive(extents: &mut Extents, child: Serial, parent: Serial, offset: u64, count: u64) -> bool {
    if extents.span(child).is_some() || extents.span(parent).is_none() {
        return false;
    }
    match extents.derive(child, parent, offset, count, Access::ALL) {
        Ok(answer) => answer.is_ok(),
        Err(_) => false,
    }
}

/// Maps a row of an extent that is there; none where it isn't, or there is no memory.
fn map(space: &mut Space, extents: &Extents, row: MapRow) -> Option<Result<(), Errno>> {
    let span = extents.span(row.extent)?;
    if span.first.0 as u32 + span.count as u32 > EXTENT_PAGES as u32 {
        return None;
    }
    space.map(row, extents).ok()
}

/// Whether the rows' pages end at page 8, and take a table of each level.
fn has_eight_pages(space: &Space) -> bool {
    space.tables() == 2
        && space.lookup(7) == Some((PageNo(7), Access::ALL))
        && space.lookup(8).is_none()
        && space.row_at(7) == Some(row(ROOT, 0, 8))
        && space.row_at(8).is_none()
}

/// Whether a row of the root extent is refused so.
fn refuses(space: &mut Space, extents: &Extents, base: u64, count: u64, refusal: Errno) -> bool {
    map(space, extents, row(ROOT, base, count)) == Some(Err(refusal))
}

fn refuses_rows(space: &mut Space, extents: &Extents) -> bool {
    refuses(space, extents, 7, 1, Errno::Busy)
        && refuses(space, extents, 4090, 7, Errno::AddrOvfl)
        && refuses(space, extents, 8, 9, Errno::ArgSize)
}

/// Whether the row of eight pages goes as a whole alone, and nothing is left.
fn is_unmapped(space: &mut Space) -> bool {
    let of_seven = space.unmap(ROOT, 0, 0, 7);
    let of_eight = space.unmap(ROOT, 0, 0, 8);
    of_seven == Err(Errno::AddrInval)
        && of_eight == Ok(())
        && space.lookup(7).is_none()
        && space.tables() == 0
}

fn eight_pages_come_and_go(alloc: Global) -> Result<bool, NoMemory> {
    let extents = machine(alloc, 8)?;
    let mut space = Space::new(alloc)?;
    Ok(
        map(&mut space, &extents, row(ROOT, 0, 8)) == Some(Ok(()))
            && has_eight_pages(&space)
            && refuses_rows(&mut space, &extents)
            && is_unmapped(&mut space),
    )
}

#[test]
fn eight_pages_take_two_tables(rt: HostRuntime) {
    assert!(rt; holds(eight_pages_come_and_go(rt.alloc())));
}

/// Whether the first extent is derived from the root, and the second from half of it.
fn derives_both(extents: &mut Extents) -> bool {
    derive(extents, FIRST, ROOT, 0, 1024) && derive(extents, SECOND, FIRST, 512, 512)
}

/// Whether the pages that the first extent holds are a block.
fn is_block(space: &Space) -> bool {
    space.tables() == 0
        && space.lookup(511) == Some((PageNo(511), Access::ALL))
        && space.lookup(512).is_none()
}

/// Whether the block is split once two of its pages are lent, and joined once they are back.
fn splits_and_joins(space: &mut Space) -> bool {
    space.moved(FIRST, LENT, PageNo(2), 2);
    let split = space.tables() == 2 && space.lookup(2).is_none();
    space.moved(LENT, FIRST, PageNo(2), 2);
    let joined = space.tables() == 0;
    space.clear(9);
    split && joined && space.lookup(3) == Some((PageNo(3), Access::ALL))
}

fn lends_and_gets_back(alloc: Global) -> Result<bool, NoMemory> {
    let mut extents = machine(alloc, 1024)?;
    let mut space = Space::new(alloc)?;
    Ok(
        derives_both(&mut extents)
            && map(&mut space, &extents, row(FIRST, 0, 1024)) == Some(Ok(()))
            && is_block(&space)
            && derive(&mut extents, LENT, FIRST, 2, 2)
            && splits_and_joins(&mut space),
    )
}

#[test]
fn a_lend_splits_a_block_and_its_return_joins_it(rt: HostRuntime) {
    assert!(rt; holds(lends_and_gets_back(rt.alloc())));
}
