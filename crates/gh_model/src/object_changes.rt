//! What the changes of objects and their units make of the rows.

ghost use Rattle.std.specs.Prelude.{◌≡◌, ◌<◌, ◌++◌, map, position, OnOk, OnErr};
ghost use Rattle.gh_model.specs.Changes.{add_object as add_object_of, extent_parent};
ghost use Rattle.gh_model.specs.Changes.{give_quota as give_quota_of, given_back};
ghost use Rattle.gh_model.specs.Changes.{with_cost, new_bells, new_partitions};
ghost use Rattle.gh_model.specs.Changes.{new_queues, reclaim_object as reclaim_object_of};
ghost use Rattle.gh_model.specs.Changes.{retire_object as retire_object_of};
ghost use Rattle.gh_model.specs.Changes.{set_stage as set_stage_of};
ghost use Rattle.gh_model.specs.Rows.{change_row, is_object, is_partition};

use crate::lookup::extent_row;
use crate::row_filter::{
    drop_bell, drop_extent, drop_mappings, drop_object, drop_partition, drop_queue, drop_settings,
    drop_slots,
};
use crate::rows::{BellRow, ExtentRow, ObjectRow, PartitionRow, QueueRow};
use crate::slots::drop_last;
use crate::state::State;
use gh_base::{
    Kind, NEW_BELL_ACK, NEW_BELL_ENABLE, NEW_BELL_FLAGS, NoMemory, Sequence, Serial, Stage,
};
use std::alloc::Global;

/// A partition's units, which begin without a quota.
fn add_units(partitions: &mut Sequence<PartitionRow>, row: ObjectRow) -> Result<(), NoMemory>
    ensures ok { OnOk result
        (partitions.new ≡ partitions.old ++ new_partitions row.kind row.serial row.partition) }
    ensures err { OnErr result (partitions.new ≡ partitions.old) }
{
    match row.kind {
        Kind::Partition => partitions.push(PartitionRow {
            serial: row.serial,
            parent: row.partition,
            quota: 0,
        }),
        _ => Ok(()),
    }
}

/// A doorbell's words.
fn add_bell(bells: &mut Sequence<BellRow>, row: ObjectRow) -> Result<(), NoMemory>
    ensures ok { OnOk result (bells.new ≡ bells.old ++ new_bells row.kind row.serial) }
    ensures err { OnErr result (bells.new ≡ bells.old) }
{
    match row.kind {
        Kind::Bell => bells.push(BellRow {
            serial: row.serial,
            flags: NEW_BELL_FLAGS,
            enable: NEW_BELL_ENABLE,
            ack: NEW_BELL_ACK,
        }),
        _ => Ok(()),
    }
}

/// A message queue without room.
fn add_queue(alloc: Global, queues: &mut Sequence<QueueRow>, row: ObjectRow) -> Result<(), NoMemory>
    ensures ok { OnOk result (queues.new ≡ queues.old ++ new_queues row.kind row.serial) }
    ensures err { OnErr result (queues.new ≡ queues.old) }
{
    match row.kind {
        Kind::Queue => queues.push(QueueRow {
            serial: row.serial,
            depth: 0,
            size: 0,
            messages: Sequence::new(alloc),
        }),
        _ => Ok(()),
    }
}

/// The row that an object of its kind has beside its own.
fn add_part(alloc: Global, state: &mut State, row: ObjectRow) -> Result<(), NoMemory>
    ensures ok { OnOk result (state.new ≡ record state.old {
      partitions = state.old.partitions ++ new_partitions row.kind row.serial row.partition;
      bells = state.old.bells ++ new_bells row.kind row.serial;
      queues = state.old.queues ++ new_queues row.kind row.serial;
    }) }
    ensures err { OnErr result (state.new ≡ state.old) }
{
    match row.kind {
        Kind::Partition => add_units(&mut state.partitions, row),
        Kind::Bell => add_bell(&mut state.bells, row),
        Kind::Queue => add_queue(alloc, &mut state.queues, row),
        _ => Ok(()),
    }
}

/// An object is added.
pub(crate) fn add_object(alloc: Global, state: &mut State, row: ObjectRow) -> Result<(), NoMemory>
    requires { state.old.next_serial < 4294967295 }
    ensures ok { OnOk result (state.new ≡ add_object_of row state.old) }
    ensures err { OnErr result (state.new ≡ state.old) }
{
    state.objects.push(row)?;
    let added = add_part(alloc, state, row);
    if added.is_err() {
        drop_last(&mut state.objects);
    } else {
        state.next_serial += 1;
    }
    added
}

fn object_place(rows: &[ObjectRow], object: Serial) -> Option<usize>
    ensures { result ≡ position (is_object object.0) rows.now }
{
    rows.iter().position(|row| row.serial == object)
}

/// An object comes to another stage.
pub(crate) fn set_stage(state: &mut State, object: Serial, stage: Stage)
    ensures { state.new ≡ set_stage_of object stage state.old }
{
    if let Some(at) = object_place(state.objects.as_slice(), object) {
        let row = state.objects.as_slice()[at];
        state.objects.set(at, ObjectRow { stage, ..row });
    }
}

/// An object's row gets the CPUs' counters at its retirement.
pub(crate) fn retire_object(state: &mut State, object: Serial, seen: [u64; 9])
    ensures { state.new ≡ retire_object_of object seen state.old }
{
    if let Some(at) = object_place(state.objects.as_slice(), object) {
        let row = state.objects.as_slice()[at];
        state.objects.set(
            at,
            ObjectRow {
                retired: Some(seen),
                ..row
            },
        );
    }
}

/// An object's cost becomes another.
pub(crate) fn set_cost(objects: &mut Sequence<ObjectRow>, object: Serial, cost: u16)
    ensures { objects.new ≡ change_row (is_object object.0) (with_cost cost) objects.old }
{
    if let Some(at) = object_place(objects.as_slice(), object) {
        let row = objects.as_slice()[at];
        objects.set(at, ObjectRow { cost, ..row });
    }
}

fn partition_place(rows: &[PartitionRow], partition: Serial) -> Option<usize>
    ensures { result ≡ position (is_partition partition.0) rows.now }
{
    rows.iter().position(|row| row.serial == partition)
}

/// A partition gets its quota.
pub(crate) fn give_quota(state: &mut State, partition: Serial, quota: u16)
    ensures { state.new ≡ give_quota_of partition quota state.old }
{
    if let Some(at) = partition_place(state.partitions.as_slice(), partition) {
        let row = state.partitions.as_slice()[at];
        state.partitions.set(at, PartitionRow { quota, ..row });
    }
}

/// The extent that gets the pages of another back.
fn parent_of(extents: &[ExtentRow], extent: Serial) -> Serial
    ensures { result ≡ extent_parent extents.now extent.0 }
{
    match extent_row(extents, extent) {
        None => Serial(0),
        Some(row) => row.parent,
    }
}

fn holder_behind(extent: Serial, parent: Serial, holder: Serial) -> Serial
    ensures { result ≡ given_back extent.0 parent holder }
{
    if holder == extent { parent } else { holder }
}

/// An extent's pages go to its parent.
fn give_back(holders: &mut [Serial], extent: Serial, parent: Serial)
    ensures { holders.new ≡ map (given_back extent.0 parent) holders.old }
{
    for holder in holders.iter_mut() {
        *holder = holder_behind(extent, parent, *holder);
    }
}

/// All rows of an object go, but for the capabilities that name it.
pub(crate) fn reclaim_object(alloc: Global, state: &mut State, object: Serial)
    ensures { state.new ≡ reclaim_object_of object state.old }
{
    let parent = parent_of(state.extents.as_slice(), object);
    give_back(state.holders.as_mut_slice(), object, parent);
    drop_object(alloc, &mut state.objects, object);
    drop_partition(alloc, &mut state.partitions, object);
    drop_extent(alloc, &mut state.extents, object);
    drop_slots(alloc, &mut state.caps, object);
    drop_settings(alloc, &mut state.set_at, object);
    drop_mappings(alloc, &mut state.mappings, object);
    drop_bell(alloc, &mut state.bells, object);
    drop_queue(alloc, &mut state.queues, object);
}
