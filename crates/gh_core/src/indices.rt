//! Indices of objects, and what lives at an index.

ghost use Rattle.std.specs.Prelude.{◌≡◌, ◌<◌, ◌^◌, count_by};
ghost use Rattle.gh_events.specs.Config.{object_at, references_at};
ghost use Rattle.gh_core.specs.Running.{index_in};
ghost use Rattle.gh_events.specs.Start.{serial_at};
ghost use Rattle.gh_model.specs.References.{is_attached_to, is_boot_partition, is_capability_of};
ghost use Rattle.gh_model.specs.References.{is_child_of, is_inhabitant_of, is_link_of};
ghost use Rattle.gh_model.specs.References.{is_mapping_of, is_root_extent, is_share as is_share_kind};
ghost use Rattle.gh_model.specs.References.{is_share_of, is_slot_of, references, uses_link};

use crate::table::{Written, last_number};
use gh_base::{CpuNo, Serial};
use gh_model::{
    CapabilityRow, CpuRow, ExtentRow, LinkRow, MappingRow, ObjectRow, Parcel, ParcelKind,
    PartitionRow, State, cpu_row,
};

/// The index of an object, by what was given at the boot and since; 0 where none was.
pub(crate) fn index_of(first: &[Written], given: &[Written], serial: Serial) -> u64
    ensures { result ≡ index_in first.now given.now serial.0 }
{
    match last_number(given, serial.0 as u64) {
        Some(index) => index,
        None => last_number(first, serial.0 as u64).unwrap_or(0),
    }
}

/// The object that lives at an index.
pub(crate) fn object_at(
    state: &State,
    first: &[Written],
    given: &[Written],
    at: u64,
) -> Option<ObjectRow>
    ensures { result ≡ object_at state.now (index_in first.now given.now) at }
{
    state
        .objects
        .as_slice()
        .iter()
        .copied()
        .find(|row| index_of(first, given, row.serial) == at)
}

/// Its serial, 0 where none does.
pub(crate) fn serial_at(state: &State, first: &[Written], given: &[Written], at: u64) -> Serial
    ensures { result.0 ≡ serial_at state.now (index_in first.now given.now) at }
{
    match object_at(state, first, given, at) {
        None => Serial(0),
        Some(row) => row.serial,
    }
}

fn capabilities(rows: &[CapabilityRow], serial: Serial) -> usize
    ensures { result ≡ count_by (is_capability_of serial.0) rows.now }
{
    rows.iter()
        .filter(|row| row.valid && row.serial == serial)
        .count()
}

fn mappings(rows: &[MappingRow], serial: Serial) -> usize
    ensures { result ≡ count_by (is_mapping_of serial.0) rows.now }
{
    rows.iter()
        .filter(|row| row.space == serial || row.extent == serial)
        .count()
}

fn children(rows: &[ExtentRow], serial: Serial) -> usize
    ensures { result ≡ count_by (is_child_of serial.0) rows.now }
{
    rows.iter().filter(|row| row.parent == serial).count()
}

fn inhabitants(rows: &[ObjectRow], serial: Serial) -> usize
    ensures { result ≡ count_by (is_inhabitant_of serial.0) rows.now }
{
    rows.iter()
        .filter(|row| row.partition == serial && row.serial != serial)
        .count()
}

fn slots(rows: &[CapabilityRow], serial: Serial) -> usize
    ensures { result ≡ count_by (is_slot_of serial.0) rows.now }
{
    rows.iter().filter(|row| row.cspace == serial).count()
}

fn attachments(rows: &[CpuRow], serial: Serial) -> usize
    ensures { result ≡ count_by (is_attached_to serial.0) rows.now }
{
    rows.iter()
        .filter(|row| (row.cspace == serial || row.space == serial) && !row.exited)
        .count()
}

/// Whether the link uses it: the VM's address space, the extent or a queue.
fn link_uses(cpus: &[CpuRow], link: LinkRow, serial: Serial) -> bool
    ensures { result ≡ uses_link cpus.now serial.0 link }
{
    let space = match cpu_row(cpus, CpuNo(link.vm.0)) {
        None => false,
        Some(row) => row.space == serial,
    };
    space || link.extent == serial || link.request == serial || link.reply == serial
}

fn links(cpus: &[CpuRow], rows: &[LinkRow], serial: Serial) -> usize
    ensures { result ≡ count_by (uses_link cpus.now serial.0) rows.now }
{
    rows.iter()
        .filter(|row| link_uses(cpus, **row, serial))
        .count()
}

fn is_share(kind: ParcelKind) -> bool
    ensures { result ≡ is_share_kind kind }
{
    match kind {
        ParcelKind::Lend => false,
        ParcelKind::Share => true,
    }
}

fn shares(rows: &[Parcel], serial: Serial) -> usize
    ensures { result ≡ count_by (is_share_of serial.0) rows.now }
{
    rows.iter()
        .filter(|row| is_share(row.kind) && row.extent == serial)
        .count()
}

fn boot_partitions(rows: &[PartitionRow], serial: Serial) -> usize
    ensures { result ≡ count_by (is_boot_partition serial.0) rows.now }
{
    rows.iter()
        .filter(|row| row.serial == serial && row.parent.0 == 0)
        .count()
}

fn root_extents(rows: &[ExtentRow], serial: Serial) -> usize
    ensures { result ≡ count_by (is_root_extent serial.0) rows.now }
{
    rows.iter()
        .filter(|row| row.serial == serial && row.parent.0 == 0)
        .count()
}

/// The references of an object, added up.
pub(crate) fn references(state: &State, serial: Serial) -> u128
    ensures value { result ≡ references state.now serial.0 }
    ensures small { result < 2 ^ 68 }
{
    let capabilities = capabilities(state.caps.as_slice(), serial);
    let mappings = mappings(state.mappings.as_slice(), serial);
    let children = children(state.extents.as_slice(), serial);
    let inhabitants = inhabitants(state.objects.as_slice(), serial);
    let slots = slots(state.caps.as_slice(), serial);
    let attachments = attachments(state.cpus.as_slice(), serial);
    let links = links(state.cpus.as_slice(), state.links.as_slice(), serial);
    let shares = shares(state.parcels.as_slice(), serial);
    let boot_partitions = boot_partitions(state.partitions.as_slice(), serial);
    let root_extents = root_extents(state.extents.as_slice(), serial);
    capabilities as u128
        + mappings as u128
        + children as u128
        + inhabitants as u128
        + slots as u128
        + attachments as u128
        + links as u128
        + shares as u128
        + boot_partitions as u128
        + root_extents as u128
}

/// The references of the object that lives at an index, 0 where none does.
pub(crate) fn references_at(state: &State, first: &[Written], given: &[Written], at: u64) -> u128
    ensures value { result ≡ references_at state.now (index_in first.now given.now) at }
    ensures small { result < 2 ^ 68 }
{
    match object_at(state, first, given, at) {
        None => 0,
        Some(row) => references(state, row.serial),
    }
}
