//! What the changes that boot lines alone make do to the rows.

ghost use Rattle.std.specs.Prelude.{◌≡◌, ◌<◌, ◌≤◌, OnOk, OnErr};
ghost use Rattle.gh_model.specs.Changes.{add_cpu as add_cpu_of, add_link as add_link_of, add_partition as add_partition_of, add_root as add_root_of, boot_object, fill_slot as fill_slot_of, set_pages as set_pages_of};

use crate::rows::{CapabilityRow, CpuRow, ExtentRow, LinkRow, ObjectRow, PartitionRow};
use crate::slots::drop_last;
use crate::state::State;
use gh_base::{Kind, NoMemory, Sequence, Serial, Stage};
use std::alloc::Global;

/// An active object of the next serial.
pub(crate) fn boot_object(state: &State, kind: Kind, partition: Serial, cost: u16) -> ObjectRow
    ensures { result ≡ boot_object state.now kind partition.0 cost }
{
    ObjectRow {
        serial: Serial(state.next_serial),
        kind,
        partition,
        stage: Stage::Active,
        cost,
        retired: None,
    }
}

/// The machine gets its pages, which no extent holds yet.
pub(crate) fn set_pages(alloc: Global, state: &mut State, count: u16) -> Result<(), NoMemory>
    ensures ok { OnOk result (state.new ≡ set_pages_of count state.old) }
    ensures err { OnErr result (state.new ≡ state.old) }
{
    state.holders = Sequence::from_vec(vec![in alloc; Serial(0); count as usize]?);
    Ok(())
}

/// A partition, which lives in itself, with its quota.
pub(crate) fn add_partition(state: &mut State, quota: u16) -> Result<(), NoMemory>
    requires { state.old.next_serial < 4294967295 }
    ensures ok { OnOk result (state.new ≡ add_partition_of quota state.old) }
    ensures err { OnErr result (state.new ≡ state.old) }
{
    let serial = Serial(state.next_serial);
    let row = boot_object(&*state, Kind::Partition, serial, 1);
    state.objects.push(row)?;
    let added = state.partitions.push(PartitionRow {
        serial,
        parent: Serial(0),
        quota,
    });
    if added.is_err() {
        drop_last(&mut state.objects);
    } else {
        state.next_serial += 1;
    }
    added
}

/// The root extent gets its span, and holds all pages.
pub(crate) fn add_root(state: &mut State, row: ExtentRow) -> Result<(), NoMemory>
    ensures ok { OnOk result (state.new ≡ add_root_of row state.old) }
    ensures err { OnErr result (state.new ≡ state.old) }
{
    state.extents.push(row)?;
    state.holders.as_mut_slice().fill(row.serial);
    Ok(())
}

/// A slot is filled, which no entry has set.
pub(crate) fn fill_slot(state: &mut State, row: CapabilityRow) -> Result<(), NoMemory>
    ensures ok { OnOk result (state.new ≡ fill_slot_of row state.old) }
    ensures err { OnErr result (state.new ≡ state.old) }
{
    state.caps.push(row)
}

/// A CPU is attached to its spaces.
pub(crate) fn add_cpu(state: &mut State, row: CpuRow) -> Result<(), NoMemory>
    ensures ok { OnOk result (state.new ≡ add_cpu_of row state.old) }
    ensures err { OnErr result (state.new ≡ state.old) }
{
    state.cpus.push(row)
}

/// A VM is linked to the resource manager.
pub(crate) fn add_link(state: &mut State, row: LinkRow) -> Result<(), NoMemory>
    ensures ok { OnOk result (state.new ≡ add_link_of row state.old) }
    ensures err { OnErr result (state.new ≡ state.old) }
{
    state.links.push(row)
}
