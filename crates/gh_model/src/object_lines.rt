//! The changes of boot lines that make an object.

ghost use Rattle.std.specs.Prelude.{◌≡◌, ◌≤◌, ◌∷◌, [], true, IsTrue, IfOk};
ghost use Rattle.gh_base.specs.declared.kind.Kind.TheVariants as kinds;
ghost use Rattle.gh_base.specs.declared.limits.TheConstants.{MESSAGE_BYTES, QUEUE_DEPTH};
ghost use Rattle.gh_model.specs.Boot.{changes_of_line, line_fits, makes_object, queue_cost, serial_of};
ghost use Rattle.gh_model.specs.Changes.{boot_object as boot_object_of};
ghost use Rattle.gh_model.specs.Fitting.{IsFitting};
ghost use Rattle.gh_model.specs.declared.change.Change.TheVariants.{AddObject, SetRoom};

use crate::boot::cost_of_queue;
use crate::boot_changes::boot_object;
use crate::boot_line::BootLine;
use crate::change::Change;
use crate::change_lists::{one, two};
use crate::extent_lines::extent_line;
use crate::state::State;
use gh_base::{Kind, NoMemory, Sequence, Serial};
use std::alloc::Global;

/// An object without pages.
fn new_object(
    alloc: Global,
    state: &State,
    kind: Kind,
    partition: Serial,
    cost: u16,
) -> Result<Sequence<Change>, NoMemory>
    ensures { IfOk result (λ changes. changes
        ≡ AddObject (boot_object_of state.now kind partition.0 cost) ∷ []) }
{
    let row = boot_object(state, kind, partition, cost);
    one(alloc, Change::AddObject { row })
}

/// A queue with its room.
fn new_queue(
    alloc: Global,
    state: &State,
    partition: Serial,
    depth: u16,
    size: u16,
) -> Result<Sequence<Change>, NoMemory>
    requires depth { depth ≤ QUEUE_DEPTH }
    requires size { size ≤ MESSAGE_BYTES }
    ensures { IfOk result (λ changes. changes
        ≡ AddObject (boot_object_of state.now kinds.Queue partition.0 (queue_cost depth size))
        ∷ SetRoom (serial_of state.now.next_serial) depth size ∷ []) }
{
    let row = boot_object(state, Kind::Queue, partition, cost_of_queue(depth, size));
    let queue = row.serial;
    two(
        alloc,
        Change::AddObject { row },
        Change::SetRoom { queue, depth, size },
    )
}

/// The changes of a line that makes an object.
pub(crate) fn object_line(
    alloc: Global,
    state: &State,
    line: BootLine,
) -> Result<Sequence<Change>, NoMemory>
    requires makes { makes_object line ≡ true }
    requires fits { IsTrue (line_fits state.now line) }
    requires fitting { IsFitting state.now }
    ensures { IfOk result (λ changes. changes ≡ changes_of_line state.now line) }
{
    match line {
        BootLine::Partition { quota } => one(alloc, Change::AddPartition { quota }),
        BootLine::Cspace { partition } => new_object(alloc, state, Kind::Cspace, partition, 4),
        BootLine::Addrspace { partition } => new_object(alloc, state, Kind::Space, partition, 4),
        BootLine::Doorbell { partition } => new_object(alloc, state, Kind::Bell, partition, 1),
        BootLine::Msgqueue {
            partition,
            depth,
            size,
        } => new_queue(alloc, state, partition, depth, size),
        BootLine::RootExtent { .. } | BootLine::Extent { .. } => extent_line(alloc, state, line),
        _ => unreachable!(),
    }
}
