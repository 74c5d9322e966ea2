//! Operations on extents and address spaces.

ghost use Rattle.std.specs.Prelude.{◌≤◌, IfOk, length};

use crate::checksum::{checksum, folded};
use gh_addrspace::Space;
use gh_base::{Access, NoMemory, PageNo, Relation, SPACE_PAGES, Serial};
use gh_extent::{EXTENT_PAGES, Extents};
use gh_model::{Holders, MapRow};
use std::alloc::Global;

const ROOT: Serial = Serial(1);

const CHILD: Serial = Serial(2);

/// Donates a page to a relative, where both have rows; 1 if it moved.
fn donate(extents: &mut Extents, relation: Relation, from: Serial, to: Serial, page: u64) -> u64
    ensures { length extents.old.holders ≤ length extents.new.holders }
{
    if extents.span(from).is_none() || extents.span(to).is_none() {
        return 0;
    }
    match extents.donate(relation, from, to, page, 1) {
        Ok(Ok(())) => 1,
        _ => 0,
    }
}

/// Maps a row, where its extent has a span within the pages that can be kept; 1 if it was mapped.
fn map(space: &mut Space, extents: &Extents, row: MapRow) -> u64 {
    let Some(span) = extents.span(row.extent) else {
        return 0;
    };
    if span.first.0 as u32 + span.count as u32 > EXTENT_PAGES as u32 {
        return 0;
    }
    match space.map(row, extents) {
        Ok(Ok(())) => 1,
        _ => 0,
    }
}

/// Pages of the root extent at the same pages of the space.
fn row(base: u64, count: u64) -> MapRow {
    MapRow {
        extent: ROOT,
        base,
        offset: base,
        count,
        access: Access::ALL,
        handle: 0,
    }
}

/// Extents of 4,096 pages, of which the root and its child hold every second one.
fn every_second(alloc: Global) -> Result<Extents, NoMemory>
    ensures { IfOk result (λ e. EXTENT_PAGES ≤ length e.holders) }
{
    let mut extents = Extents::new(alloc, EXTENT_PAGES, ROOT)?;
    let _ = extents.derive(CHILD, ROOT, 0, SPACE_PAGES, Access::ALL)?;
    for page in 0..SPACE_PAGES / 2 {
        let _ = donate(&mut extents, Relation::ToParent, CHILD, ROOT, page * 2);
    }
    Ok(extents)
}

/// A space with one row of all pages.
fn mapped(alloc: Global, extents: &Extents) -> Result<Space, NoMemory> {
    let mut space = Space::new(alloc)?;
    let _ = map(&mut space, extents, row(0, SPACE_PAGES));
    Ok(space)
}

/// Asks for the holder of a page, of 4,096 runs.
pub fn holder(alloc: Global, count: u64) -> Result<u64, NoMemory> {
    let extents = every_second(alloc)?;
    let mut sum = 0;
    for turn in 0..count {
        let page = PageNo((turn % SPACE_PAGES) as u16);
        sum = folded(sum, extents.holder(page).0 as u64);
    }
    Ok(sum)
}

/// Derives a page of the root extent as a new extent; 1 if it was derived.
fn derive_page(extents: &mut Extents, page: u64) -> u64 {
    let child = Serial(CHILD.0 + (page % 64) as u32);
    if extents.span(child).is_some() || extents.span(ROOT).is_none() {
        return 0;
    }
    match extents.derive(child, ROOT, page, 1, Access::ALL) {
        Ok(Ok(())) => 1,
        _ => 0,
    }
}

/// Derives one page after another, with new extents after every 64.
pub fn derive(alloc: Global, count: u64) -> Result<u64, NoMemory> {
    let mut extents = Extents::new(alloc, 64, ROOT)?;
    let mut sum = 0;
    for turn in 0..count {
        if turn % 64 == 0 {
            extents = Extents::new(alloc, 64, ROOT)?;
        }
        sum = folded(sum, derive_page(&mut extents, turn % 64));
    }
    Ok(sum)
}

/// Asks whether an extent holds a page, of 4,096 runs.
pub fn holds(alloc: Global, count: u64) -> Result<u64, NoMemory> {
    let extents = every_second(alloc)?;
    Ok(checksum(count, |turn| {
        extents.holds(ROOT, PageNo((turn % SPACE_PAGES) as u16)) as u64
    }))
}

/// Donates a page to the parent and back, among 4,096 runs.
pub fn donate_both_ways(alloc: Global, count: u64) -> Result<u64, NoMemory> {
    let mut extents = every_second(alloc)?;
    Ok(checksum(count, |turn| {
        let page = turn % (SPACE_PAGES / 2) * 2;
        donate(&mut extents, Relation::ToChild, ROOT, CHILD, page)
            & donate(&mut extents, Relation::ToParent, CHILD, ROOT, page)
    }))
}

/// Maps and unmaps so many pages.
fn map_and_unmap(alloc: Global, count: u64, pages: u64) -> Result<u64, NoMemory> {
    let extents = Extents::new(alloc, EXTENT_PAGES, ROOT)?;
    let mut space = Space::new(alloc)?;
    Ok(checksum(count, |turn| {
        let base = turn % 1024;
        let done = map(&mut space, &extents, row(base, pages));
        done & space.unmap(ROOT, base, base, pages).is_ok() as u64
    }))
}

/// Maps and unmaps one page.
pub fn map_one(alloc: Global, count: u64) -> Result<u64, NoMemory> {
    map_and_unmap(alloc, count, 1)
}

/// Maps and unmaps 512 pages.
pub fn map_many(alloc: Global, count: u64) -> Result<u64, NoMemory> {
    map_and_unmap(alloc, count, 512)
}

/// Follows a page that leaves a row's extent, and its return.
pub fn moved(alloc: Global, count: u64) -> Result<u64, NoMemory> {
    let extents = Extents::new(alloc, EXTENT_PAGES, ROOT)?;
    let mut space = mapped(alloc, &extents)?;
    let sum = checksum(count, |turn| {
        let page = PageNo((turn % SPACE_PAGES) as u16);
        space.moved(ROOT, CHILD, page, 1);
        space.moved(CHILD, ROOT, page, 1);
        turn
    });
    Ok(sum ^ space.tables() as u64)
}

/// Asks where a page leads, where every second one leads nowhere.
pub fn lookup(alloc: Global, count: u64) -> Result<u64, NoMemory> {
    let extents = every_second(alloc)?;
    let space = mapped(alloc, &extents)?;
    Ok(checksum(count, |turn| {
        space
            .lookup((turn % SPACE_PAGES) as u16)
            .map_or(0, |found| found.0.0 as u64)
    }))
}
