//! A worked derivation and its return, and donations between siblings.

ghost use Rattle.std.specs.Prelude.{◌≤◌, length};
ghost use Rattle.gh_extent.specs.Extents.{CanGiveBack};

use crate::outcome::holds;
use gh_base::{Access, Errno, NoMemory, PageNo, Relation, Serial};
use gh_extent::Extents;
use gh_model::{Holders, Span};
use std::alloc::Global;

const ROOT: Serial = Serial(4);

const FIRST: Serial = Serial(5);

const SECOND: Serial = Serial(6);

/// Whether the pages 2 to 4 of eight are the derived extent's.
fn are_derived(extents: &Extents) -> bool
    requires { 8 ≤ length extents.now.holders }
{
    extents.holder(PageNo(1)) == ROOT
        && extents.holder(PageNo(4)) == FIRST
        && extents.holder(PageNo(5)) == ROOT
}

/// Whether an extent gives these pages back to the root, and has no row once it has no page.
fn gives_back(extents: &mut Extents, extent: Serial) -> bool
    requires { CanGiveBack extents.old extent.0 }
{
    if extents.give_back(extent) != Some((PageNo(2), 3)) {
        return false;
    }
    let returned = extents.holds(ROOT, PageNo(4));
    let none = extents.give_back(extent).is_none();
    returned && none && extents.span(extent).is_none()
}

fn is_derived_and_given_back(alloc: Global) -> Result<bool, NoMemory> {
    let mut extents = Extents::new(alloc, 8, ROOT)?;
    if extents.derive(FIRST, ROOT, 6, 3, Access(7))? != Err(Errno::ArgSize) {
        return Ok(false);
    }
    if extents.derive(FIRST, ROOT, 2, 3, Access(5))?.is_err() {
        return Ok(false);
    }
    Ok(are_derived(&extents) && gives_back(&mut extents, FIRST))
}

#[test]
fn a_derived_range_goes_back_to_its_parent(rt: HostRuntime) {
    assert!(rt; holds(is_derived_and_given_back(rt.alloc())));
}

/// Whether the extent spans all of eight pages with every access.
fn spans_all(extents: &Extents) -> bool {
    let all = Span {
        first: PageNo(0),
        count: 8,
        access: Access::ALL,
    };
    extents.span(FIRST) == Some(all)
}

/// Whether the pages that were moved end at page 4.
fn holds_moved(extents: &Extents) -> bool {
    extents.holds(FIRST, PageNo(3))
        && !extents.holds(FIRST, PageNo(4))
        && !extents.holds(FIRST, PageNo(8))
}

fn parcel_holds(alloc: Global) -> Result<bool, NoMemory> {
    let mut extents = Extents::new(alloc, 8, ROOT)?;
    extents.add_parcel(FIRST, ROOT)?;
    let spans = spans_all(&extents);
    extents.move_run(ROOT, FIRST, PageNo(2), 2);
    Ok(spans && holds_moved(&extents))
}

#[test]
fn a_parcel_holds_the_pages_that_move_to_it(rt: HostRuntime) {
    assert!(rt; holds(parcel_holds(rt.alloc())));
}

fn is_denied(alloc: Global) -> Result<bool, NoMemory> {
    let mut extents = Extents::new(alloc, 8, ROOT)?;
    extents.add_parcel(FIRST, ROOT)?;
    extents.move_run(ROOT, FIRST, PageNo(0), 4);
    let answer = extents.derive(SECOND, ROOT, 0, 8, Access(7))?;
    Ok(answer == Err(Errno::Denied))
}

#[test]
fn a_range_that_another_holds_is_denied(rt: HostRuntime) {
    assert!(rt; holds(is_denied(rt.alloc())));
}

/// Two siblings of all pages, of which each holds half.
fn siblings(alloc: Global) -> Result<Extents, NoMemory> {
    let span = Span {
        first: PageNo(0),
        count: 8,
        access: Access::ALL,
    };
    let mut extents = Extents::new(alloc, 8, ROOT)?;
    extents.add(FIRST, ROOT, span)?;
    extents.move_run(ROOT, FIRST, PageNo(0), 4);
    extents.add(SECOND, ROOT, span)?;
    extents.move_run(ROOT, SECOND, PageNo(4), 4);
    Ok(extents)
}

/// How the giver stands to the taker, both, the offset in the giver, the pages and the answer.
type Donation = (Relation, Serial, Serial, u64, u64, Result<(), Errno>);

fn donations() -> [Donation; 6] {
    let (giver, other) = (FIRST, SECOND);
    [
        (Relation::ToSibling, giver, other, 0, 2, Ok(())),
        (Relation::ToSibling, giver, other, 1, 3, Err(Errno::Denied)),
        (Relation::ToChild, giver, other, 2, 1, Err(Errno::ArgInval)),
        (
            Relation::ToSibling,
            giver,
            giver,
            2,
            1,
            Err(Errno::ArgInval),
        ),
        (Relation::ToParent, other, ROOT, 7, 2, Err(Errno::AddrInval)),
        (Relation::ToParent, other, ROOT, 7, 1, Ok(())),
    ]
}

/// Whether both have rows, and the donation is answered so.
fn is_answered(extents: &mut Extents, donation: Donation) -> bool {
    let (relation, from, to, offset, count, answer) = donation;
    if extents.span(from).is_none() || extents.span(to).is_none() {
        return false;
    }
    extents.donate(relation, from, to, offset, count) == Ok(answer)
}

fn are_answered(extents: &mut Extents) -> bool {
    let mut all = true;
    for donation in donations() {
        all = all && is_answered(extents, donation);
    }
    all
}

/// Whether the pages are where the donations left them.
fn are_donated(extents: &Extents) -> bool {
    extents.holds(SECOND, PageNo(0))
        && extents.holds(FIRST, PageNo(2))
        && extents.holds(SECOND, PageNo(6))
        && extents.holds(ROOT, PageNo(7))
}

fn siblings_donate(alloc: Global) -> Result<bool, NoMemory> {
    let mut extents = siblings(alloc)?;
    Ok(are_answered(&mut extents) && are_donated(&extents))
}

#[test]
fn siblings_donate_the_pages_that_they_hold(rt: HostRuntime) {
    assert!(rt; holds(siblings_donate(rt.alloc())));
}
