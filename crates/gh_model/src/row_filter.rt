//! The rows that stay where some go. None of it takes memory.

ghost use Rattle.std.specs.Prelude.{◌≡◌};
ghost use Rattle.std.specs.Fn.{CalledAt};
ghost use Rattle.std.specs.List.Retain.{IsFiltered};
ghost use Rattle.gh_model.specs.Changes.{is_in_cspace, is_mapping, is_set_in, without};
ghost use Rattle.gh_model.specs.References.{is_mapping_of};
ghost use Rattle.gh_model.specs.Rows.{fills, is_bell, is_extent, is_object, is_partition, is_queue};

use crate::rows::{
    BellRow, CapabilityRow, ExtentRow, MappingRow, ObjectRow, PartitionRow, QueueRow, SetAtRow,
};
use gh_base::{Sequence, Serial};
use std::alloc::Global;

/// Leaves the rows that are to be kept.
fn keep_rows<T: Drop, F: FnMut(&T) -> bool + Drop>(alloc: Global, rows: &mut Sequence<T>, keep: F)
    requires { F.IsAlwaysCallable keep }
    ensures { IsFiltered (CalledAt F.FnMut) keep rows.old rows.new }
{
    let none = Sequence::new(alloc);
    let mut all = std::mem::replace(rows, none).into_vec();
    all.retain(keep);
    *rows = Sequence::from_vec(all);
}

/// Whether a row is one of the map call with the same extent, base, offset and count.
fn is_mapping(row: &MappingRow, other: &MappingRow) -> bool
    ensures { result
        ≡ is_mapping other.now.space.0 other.now.extent.0 other.now.base other.now.offset
        other.now.count row.now }
{
    row.handle == 0
        && row.space == other.space
        && row.extent == other.extent
        && row.base == other.base
        && row.offset == other.offset
        && row.count == other.count
}

/// A slot is emptied.
pub(crate) fn empty_slot(
    alloc: Global,
    caps: &mut Sequence<CapabilityRow>,
    cspace: Serial,
    slot: u8,
)
    ensures { caps.new ≡ without (fills cspace.0 slot) caps.old }
{
    keep_rows(
        alloc,
        caps,
        |row| !(row.cspace == cspace && row.slot == slot),
    );
}

/// An object's row goes.
pub(crate) fn drop_object(alloc: Global, objects: &mut Sequence<ObjectRow>, object: Serial)
    ensures { objects.new ≡ without (is_object object.0) objects.old }
{
    keep_rows(alloc, objects, |row| row.serial != object);
}

/// A partition's units go.
pub(crate) fn drop_partition(alloc: Global, partitions: &mut Sequence<PartitionRow>, object: Serial)
    ensures { partitions.new ≡ without (is_partition object.0) partitions.old }
{
    keep_rows(alloc, partitions, |row| row.serial != object);
}

/// An extent's span goes.
pub(crate) fn drop_extent(alloc: Global, extents: &mut Sequence<ExtentRow>, object: Serial)
    ensures { extents.new ≡ without (is_extent object.0) extents.old }
{
    keep_rows(alloc, extents, |row| row.serial != object);
}

/// The filled slots of a capability space go.
pub(crate) fn drop_slots(alloc: Global, caps: &mut Sequence<CapabilityRow>, cspace: Serial)
    ensures { caps.new ≡ without (is_in_cspace cspace.0) caps.old }
{
    keep_rows(alloc, caps, |row| row.cspace != cspace);
}

/// The settings of a capability space's slots go.
pub(crate) fn drop_settings(alloc: Global, set_at: &mut Sequence<SetAtRow>, cspace: Serial)
    ensures { set_at.new ≡ without (is_set_in cspace.0) set_at.old }
{
    keep_rows(alloc, set_at, |row| row.cspace != cspace);
}

/// The mapping rows of an address space, or of an extent, go.
pub(crate) fn drop_mappings(alloc: Global, mappings: &mut Sequence<MappingRow>, object: Serial)
    ensures { mappings.new ≡ without (is_mapping_of object.0) mappings.old }
{
    keep_rows(
        alloc,
        mappings,
        |row| !(row.space == object || row.extent == object),
    );
}

/// A doorbell's words go.
pub(crate) fn drop_bell(alloc: Global, bells: &mut Sequence<BellRow>, object: Serial)
    ensures { bells.new ≡ without (is_bell object.0) bells.old }
{
    keep_rows(alloc, bells, |row| row.serial != object);
}

/// A message queue's messages go.
pub(crate) fn drop_queue(alloc: Global, queues: &mut Sequence<QueueRow>, object: Serial)
    ensures { queues.new ≡ without (is_queue object.0) queues.old }
{
    keep_rows(alloc, queues, |row| row.serial != object);
}

/// A row of the map call goes.
pub(crate) fn unmap_row(alloc: Global, mappings: &mut Sequence<MappingRow>, row: MappingRow)
    ensures { mappings.new
        ≡ without (is_mapping row.space.0 row.extent.0 row.base row.offset row.count) mappings.old }
{
    keep_rows(alloc, mappings, |other| !is_mapping(other, &row));
}
