//! Changes of the state, made on the rows in order.

ghost use Rattle.std.specs.Prelude.{◌≡◌, ◌∷◌, [], drop, false, true, OnOk, OnErr};
ghost use Rattle.std.specs.List.{list_any};
ghost use Rattle.gh_model.specs.Changes.{changed, changed_all};
ghost use Rattle.gh_model.specs.Room.{HasRoom, takes_memory};

use crate::boot_changes::{add_cpu, add_link, add_partition, add_root, fill_slot, set_pages};
use crate::change::Change;
use crate::object_changes::{add_object, give_quota, reclaim_object, retire_object, set_stage};
use crate::page_changes::{add_extent, drop_mapping, move_pages, put_mapping};
use crate::queue_changes::{
    configure_queue, drop_message, empty_queue, exit_cpu, put_message, ring, set_bell, set_room,
};
use crate::slots::{drop_capability, put_capability, revoke_capability};
use crate::state::State;
use gh_base::{NoMemory, Sequence};
use std::alloc::Global;

/// Whether a change may want memory.
fn takes_memory(change: &Change) -> bool
    ensures { result ≡ takes_memory change.now }
{
    match change {
        Change::PutCapability { .. }
        | Change::DropCapability { .. }
        | Change::RevokeCapability { .. }
        | Change::AddObject { .. }
        | Change::AddExtent { .. }
        | Change::PutMapping { .. }
        | Change::PutMessage { .. }
        | Change::SetPages { .. }
        | Change::AddPartition { .. }
        | Change::AddRoot { .. }
        | Change::FillSlot { .. }
        | Change::AddCpu { .. }
        | Change::AddLink { .. } => true,
        _ => false,
    }
}

/// A change that takes no memory.
fn make_free(alloc: Global, state: &mut State, change: Change)
    requires room { HasRoom state.old (change ∷ []) }
    requires free { takes_memory change ≡ false }
    ensures { state.new ≡ changed state.old change }
{
    match change {
        Change::SetStage { object, stage } => set_stage(state, object, stage),
        Change::Retire { object, seen } => retire_object(state, object, seen),
        Change::Reclaim { object } => reclaim_object(alloc, state, object),
        Change::GiveQuota { partition, quota } => give_quota(state, partition, quota),
        Change::MovePages {
            first,
            count,
            holder,
        } => move_pages(state, first, count, holder),
        Change::DropMapping { row } => drop_mapping(alloc, state, row),
        Change::SetBell { row } => set_bell(state, row),
        Change::ConfigureQueue {
            queue,
            depth,
            size,
            cost,
        } => configure_queue(alloc, state, queue, depth, size, cost),
        Change::DropMessage { queue } => drop_message(&mut state.queues, queue),
        Change::EmptyQueue { queue } => empty_queue(alloc, &mut state.queues, queue),
        Change::Exit { cpu } => exit_cpu(state, cpu),
        Change::Ring => ring(state),
        Change::SetRoom { queue, depth, size } => {
            set_room(alloc, &mut state.queues, queue, depth, size)
        }
        _ => unreachable!(),
    }
}

/// A change. Without memory the state stays as it was.
pub(crate) fn make(alloc: Global, state: &mut State, change: Change) -> Result<(), NoMemory>
    requires { HasRoom state.old (change ∷ []) }
    ensures ok { OnOk result (state.new ≡ changed state.old change) }
    ensures err { OnErr result (state.new ≡ state.old) }
    ensures memory { OnErr result (takes_memory change ≡ true) }
{
    match change {
        Change::PutCapability { row } => put_capability(state, row),
        Change::DropCapability { cspace, slot } => drop_capability(alloc, state, cspace, slot),
        Change::RevokeCapability { cspace, slot } => revoke_capability(state, cspace, slot),
        Change::AddObject { row } => add_object(alloc, state, row),
        Change::AddExtent { row } => add_extent(state, row),
        Change::PutMapping { row } => put_mapping(state, row),
        Change::PutMessage { queue, message } => put_message(&mut state.queues, queue, message),
        Change::SetPages { count } => set_pages(alloc, state, count),
        Change::AddPartition { quota } => add_partition(state, quota),
        Change::AddRoot { row } => add_root(state, row),
        Change::FillSlot { row } => fill_slot(state, row),
        Change::AddCpu { row } => add_cpu(state, row),
        Change::AddLink { row } => add_link(state, row),
        other => {
            make_free(alloc, state, other);
            Ok(())
        }
    }
}

/// Changes in order. Without memory those before are made.
pub(crate) fn make_each(
    alloc: Global,
    state: &mut State,
    changes: Sequence<Change>,
) -> Result<(), NoMemory>
    requires { HasRoom state.old changes }
    ensures ok { OnOk result (state.new ≡ changed_all state.old changes) }
    ensures memory { OnErr result (list_any takes_memory changes ≡ true) }
{
    if changes.is_empty() {
        return Ok(());
    }
    let mut others = changes;
    let first = others.remove(0);
    make(alloc, state, first)?;
    make_each(alloc, state, others)
}

/// Whether a change behind the first may want memory.
fn takes_later(changes: &[Change]) -> bool
    ensures { result ≡ list_any takes_memory (drop 1 changes.now) }
{
    match changes.split_first() {
        None => false,
        Some((_, others)) => others.iter().any(|change| takes_memory(change)),
    }
}

/// Changes in order of which only the first may want memory. Without it the state stays as it was.
fn make_in_place(
    alloc: Global,
    state: &mut State,
    changes: Sequence<Change>,
) -> Result<(), NoMemory>
    requires room { HasRoom state.old changes }
    requires free { list_any takes_memory (drop 1 changes) ≡ false }
    ensures ok { OnOk result (state.new ≡ changed_all state.old changes) }
    ensures err { OnErr result (state.new ≡ state.old) }
{
    if changes.is_empty() {
        return Ok(());
    }
    let mut others = changes;
    let first = others.remove(0);
    make(alloc, state, first)?;
    make_each(alloc, state, others)
}

/// Changes in order. Without memory the state stays as it was: where one behind the first may want
/// it, the changes are made on a copy.
pub(crate) fn make_all(
    alloc: Global,
    state: &mut State,
    changes: Sequence<Change>,
) -> Result<(), NoMemory>
    requires { HasRoom state.old changes }
    ensures ok { OnOk result (state.new ≡ changed_all state.old changes) }
    ensures err { OnErr result (state.new ≡ state.old) }
{
    if !takes_later(changes.as_slice()) {
        return make_in_place(alloc, state, changes);
    }
    let mut copy = state.copied(alloc)?;
    make_each(alloc, &mut copy, changes)?;
    *state = copy;
    Ok(())
}
