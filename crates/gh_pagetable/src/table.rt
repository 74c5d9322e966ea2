//! Tables: the 16 entries that cover a range of pages, one after another. Pages are counted from
//! the range's first.

ghost use Rattle.std.specs.Prelude.{◌≡◌, ℕ, ◌+◌, ◌*◌, ◌<◌};
ghost use Rattle.std.specs.Prelude.{◌≤◌, length, sum_by, IfOk, None};
ghost use Rattle.std.specs.Bool.{OnTrue};
ghost use Rattle.std.specs.List.{flat_map};
ghost use Rattle.gh_pagetable.specs.Entry.{AreNumbered, BlockIsNumbered, IsExact, IsTable};
ghost use Rattle.gh_pagetable.specs.Entry.{descriptor_of, leads_on, overwritten, run, targets_of};
ghost use Rattle.gh_pagetable.specs.Map.{at};

use crate::descriptor::{Descriptor, Target, further};
use crate::entry::Entry;
use gh_base::NoMemory;
use std::alloc::Global;

/// Entries of a table.
pub const ENTRIES: u16 = 16;

/// A table of empty entries.
pub fn new<E: Entry>(alloc: Global) -> Result<Vec<E>, NoMemory>
    ensures table { IfOk result (λ entries. IsTable E.targets E.PAGES entries.items) }
    ensures empty { IfOk result (λ entries.
        flat_map E.targets entries.items ≡ run None (ENTRIES * E.PAGES)) }
{
    let mut entries = Vec::with_capacity(alloc, ENTRIES as usize)?;
    for _ in 0..ENTRIES {
        let entry = E::new(alloc)?;
        entries.push(entry)?;
    }
    Ok(entries)
}

/// Where a page leads.
pub fn get<E: Entry>(entries: &[E], page: u16) -> Target
    requires table { IsTable E.targets E.PAGES entries.now }
    requires inside { page < ENTRIES * E.PAGES }
    ensures { result ≡ at (flat_map E.targets entries.now) page }
{
    let pages = E::PAGES;
    entries[(page / pages) as usize].get(page % pages)
}

/// Sets `count` pages from `first` on, entry by entry, to lead to the targets from `target` on.
pub fn set<E: Entry>(entries: &mut [E], first: u16, count: u16, target: Target)
    requires table { IsTable E.targets E.PAGES entries.old }
    requires inside { first + count ≤ ENTRIES * E.PAGES }
    requires machine { AreNumbered target count }
    ensures table { IsTable E.targets E.PAGES entries.new }
    ensures targets { flat_map E.targets entries.new
        ≡ overwritten (flat_map E.targets entries.old) first (run target count) }
{
    let pages = E::PAGES;
    let mut at = first;
    let mut left = count;
    let mut next = target;
    while left > 0 {
        let place = at % pages;
        let part = left.min(pages - place);
        entries[(at / pages) as usize].set(place, part, next);
        next = further(next, part);
        at += part;
        left -= part;
    }
}

/// Sets `count` pages from `first` on of a range whose entry says `descriptor` and has this table,
/// and answers what the entry is to say then.
pub fn update<E: Entry>(
    descriptor: Descriptor,
    entries: &mut [E],
    first: u16,
    count: u16,
    target: Target,
) -> Descriptor
    requires exact { IsExact E.targets E.PAGES descriptor entries.old }
    requires inside { first + count ≤ ENTRIES * E.PAGES }
    requires machine { AreNumbered target count }
    ensures exact { IsExact E.targets E.PAGES result entries.new }
    ensures targets { let old = targets_of E.targets E.PAGES descriptor entries.old in
        targets_of E.targets E.PAGES result entries.new
        ≡ overwritten old first (run target count) }
{
    split(descriptor, entries);
    set(entries, first, count, target);
    describe(entries)
}

/// How many tables the entries have.
pub fn tables<E: Entry>(entries: &[E]) -> u32
    requires { IsTable E.targets E.PAGES entries.now }
    ensures exact { result ≡ sum_by (λ e. E.tables_in (E.targets e)) entries.now }
    ensures fewer { result + ENTRIES ≤ ENTRIES * E.PAGES }
{
    let mut count = 0;
    for entry in entries {
        count += entry.tables();
    }
    count
}

/// Makes the table say what the entry of its range says: a block becomes a block in each entry.
fn split<E: Entry>(descriptor: Descriptor, entries: &mut [E])
    requires { IsExact E.targets E.PAGES descriptor entries.old }
    ensures table { IsTable E.targets E.PAGES entries.new }
    ensures targets { flat_map E.targets entries.new
        ≡ targets_of E.targets E.PAGES descriptor entries.old }
{
    if let Descriptor::Uniform(target) = descriptor {
        set(entries, 0, ENTRIES * E::PAGES, target);
    }
}

/// What an entry for the whole range is to say.
fn describe<E: Entry>(entries: &[E]) -> Descriptor
    requires { IsTable E.targets E.PAGES entries.now }
    ensures value { result ≡ descriptor_of (flat_map E.targets entries.now) }
    ensures machine { BlockIsNumbered result (ENTRIES * E.PAGES) }
{
    match entries[0].descriptor() {
        Descriptor::Uniform(target) if leads_on(entries, target) => Descriptor::Uniform(target),
        _ => Descriptor::Table,
    }
}

/// Whether all pages lead to the targets from `target` on.
fn leads_on<E: Entry>(entries: &[E], target: Target) -> bool
    requires table { IsTable E.targets E.PAGES entries.now }
    requires machine { AreNumbered target E.PAGES }
    ensures value { result ≡ leads_on target (flat_map E.targets entries.now) }
    ensures machine { OnTrue result (AreNumbered target (ENTRIES * E.PAGES)) }
{
    let mut expected = target;
    for entry in entries {
        if !entry.descriptor().is_from(expected) {
            return false;
        }
        expected = further(expected, E::PAGES);
    }
    true
}
