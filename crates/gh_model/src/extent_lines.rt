//! The changes of boot lines that make an extent.

ghost use Rattle.std.specs.Prelude.{◌≡◌, ◌+◌, ◌≤◌, ◌∷◌, [], true, length, IsTrue, IfOk};
ghost use Rattle.gh_base.specs.declared.kind.Kind.TheVariants as kinds;
ghost use Rattle.gh_base.specs.declared.limits.TheConstants.{MACHINE_PAGES};
ghost use Rattle.gh_model.specs.Boot.{changes_of_line, child_span as child_span_of, first_page, line_fits, makes_extent, root_span as root_span_of, serial_of, span_first};
ghost use Rattle.gh_model.specs.Changes.{boot_object as boot_object_of};
ghost use Rattle.gh_model.specs.Fitting.{IsFitting};
ghost use Rattle.gh_model.specs.declared.change.Change.TheVariants.{AddExtent, AddObject, AddRoot, MovePages};

use crate::boot_changes::boot_object;
use crate::boot_line::BootLine;
use crate::change::Change;
use crate::change_lists::{three, two};
use crate::lookup::extent_row;
use crate::rows::ExtentRow;
use crate::state::State;
use gh_base::{Access, Kind, NoMemory, PageNo, Sequence, Serial};
use std::alloc::Global;

/// The span of the root extent: all pages.
fn root_span(state: &State) -> ExtentRow
    requires { length state.now.holders ≤ MACHINE_PAGES }
    ensures { result ≡ root_span_of state.now }
{
    ExtentRow {
        serial: Serial(state.next_serial),
        parent: Serial(0),
        first: PageNo(0),
        count: state.holders.len() as u16,
        access: Access::ALL,
        parcel: false,
    }
}

/// The root extent with all pages.
fn new_root(alloc: Global, state: &State, partition: Serial) -> Result<Sequence<Change>, NoMemory>
    requires { length state.now.holders ≤ MACHINE_PAGES }
    ensures { IfOk result (λ changes. changes
        ≡ AddObject (boot_object_of state.now kinds.Extent partition.0 1)
        ∷ AddRoot (root_span_of state.now) ∷ []) }
{
    let row = boot_object(state, Kind::Extent, partition, 1);
    two(
        alloc,
        Change::AddObject { row },
        Change::AddRoot {
            row: root_span(state),
        },
    )
}

/// The first machine page of an extent's span.
fn span_start(extents: &[ExtentRow], extent: Serial) -> PageNo
    ensures { result.0 ≡ span_first extents.now extent.0 }
{
    match extent_row(extents, extent) {
        None => PageNo(0),
        Some(row) => row.first,
    }
}

/// Where an extent line puts its extent.
#[derive(Clone, Copy)]
struct NewExtent {
    partition: Serial,
    parent: Serial,
    offset: u16,
    count: u16,
    access: Access,
    held_offset: u16,
    held_count: u16,
}

/// The span of an extent line's extent.
fn child_span(state: &State, new: NewExtent) -> ExtentRow
    requires pages { length state.now.holders ≤ MACHINE_PAGES }
    requires span { first_page state.now new.parent.0 + new.offset + new.count
        ≤ length state.now.holders }
    ensures { result ≡ child_span_of state.now new.parent.0 new.offset new.count new.access.0 }
{
    let first = span_start(state.extents.as_slice(), new.parent).0 + new.offset;
    ExtentRow {
        serial: Serial(state.next_serial),
        parent: new.parent,
        first: PageNo(first),
        count: new.count,
        access: new.access,
        parcel: false,
    }
}

/// An extent with its span, and the pages that its parent hands over.
fn new_child(alloc: Global, state: &State, new: NewExtent) -> Result<Sequence<Change>, NoMemory>
    requires pages { length state.now.holders ≤ MACHINE_PAGES }
    requires span { first_page state.now new.parent.0 + new.offset + new.count
        ≤ length state.now.holders }
    requires held { new.held_offset + new.held_count ≤ new.count }
    ensures { IfOk result (λ changes. changes
        ≡ AddObject (boot_object_of state.now kinds.Extent new.partition.0 1)
        ∷ AddExtent (child_span_of state.now new.parent.0 new.offset new.count new.access.0)
        ∷ MovePages (first_page state.now new.parent.0 + new.offset + new.held_offset)
        new.held_count (serial_of state.now.next_serial)
        ∷ []) }
{
    let row = boot_object(state, Kind::Extent, new.partition, 1);
    let span = child_span(state, new);
    let moved = Change::MovePages {
        first: span.first.0 + new.held_offset,
        count: new.held_count,
        holder: row.serial,
    };
    three(
        alloc,
        Change::AddObject { row },
        Change::AddExtent { row: span },
        moved,
    )
}

/// The changes of a line that makes an extent.
pub(crate) fn extent_line(
    alloc: Global,
    state: &State,
    line: BootLine,
) -> Result<Sequence<Change>, NoMemory>
    requires makes { makes_extent line ≡ true }
    requires fits { IsTrue (line_fits state.now line) }
    requires fitting { IsFitting state.now }
    ensures { IfOk result (λ changes. changes ≡ changes_of_line state.now line) }
{
    match line {
        BootLine::RootExtent { partition } => new_root(alloc, state, partition),
        BootLine::Extent {
            partition,
            parent,
            offset,
            count,
            access,
            held_offset,
            held_count,
        } => {
            let new = NewExtent {
                partition,
                parent,
                offset,
                count,
                access,
                held_offset,
                held_count,
            };
            new_child(alloc, state, new)
        }
        _ => unreachable!(),
    }
}
