//! What refers to an object.

ghost use Rattle.std.specs.Prelude.{◌≡◌, count_by};
ghost use Rattle.gh_model.specs.References.{is_doomed, is_capability_of, is_mapping_of};
ghost use Rattle.gh_model.specs.References.{is_child_of, is_inhabitant_of, is_slot_of};
ghost use Rattle.gh_model.specs.References.{is_attached_to, is_link_of, uses_link};
ghost use Rattle.gh_model.specs.References.{is_share as is_share_kind, is_share_of};
ghost use Rattle.gh_model.specs.References.{is_boot_partition, is_root_extent};

use crate::lookup::cpu_row;
use crate::rows::{
    CapabilityRow, CpuRow, ExtentRow, LinkRow, MappingRow, ObjectRow, Parcel, ParcelKind,
    PartitionRow,
};
use crate::state::State;
use gh_base::{CpuNo, Serial};

fn capabilities(rows: &[CapabilityRow], serial: Serial) -> usize
    ensures { result ≡ count_by (is_capability_of serial.0) rows.now }
{
    rows.iter()
        .filter(|row| row.valid && row.serial == serial)
        .count()
}

fn mappings(rows: &[MappingRow], serial: Serial) -> usize
    ensures { result ≡ count_by (is_mapping_of serial.0) rows.now }
{
    rows.iter()
        .filter(|row| row.space == serial || row.extent == serial)
        .count()
}

fn children(rows: &[ExtentRow], serial: Serial) -> usize
    ensures { result ≡ count_by (is_child_of serial.0) rows.now }
{
    rows.iter().filter(|row| row.parent == serial).count()
}

fn inhabitants(rows: &[ObjectRow], serial: Serial) -> usize
    ensures { result ≡ count_by (is_inhabitant_of serial.0) rows.now }
{
    rows.iter()
        .filter(|row| row.partition == serial && row.serial != serial)
        .count()
}

fn slots(rows: &[CapabilityRow], serial: Serial) -> usize
    ensures { result ≡ count_by (is_slot_of serial.0) rows.now }
{
    rows.iter().filter(|row| row.cspace == serial).count()
}

fn attachments(rows: &[CpuRow], serial: Serial) -> usize
    ensures { result ≡ count_by (is_attached_to serial.0) rows.now }
{
    rows.iter()
        .filter(|row| (row.cspace == serial || row.space == serial) && !row.exited)
        .count()
}

/// Whether the link uses it: the VM's address space, the extent or a queue.
fn link_uses(cpus: &[CpuRow], link: LinkRow, serial: Serial) -> bool
    ensures { result ≡ uses_link cpus.now serial.0 link }
{
    let space = match cpu_row(cpus, CpuNo(link.vm.0)) {
        None => false,
        Some(row) => row.space == serial,
    };
    space || link.extent == serial || link.request == serial || link.reply == serial
}

fn links(cpus: &[CpuRow], rows: &[LinkRow], serial: Serial) -> usize
    ensures { result ≡ count_by (uses_link cpus.now serial.0) rows.now }
{
    rows.iter()
        .filter(|row| link_uses(cpus, **row, serial))
        .count()
}

fn is_share(kind: ParcelKind) -> bool
    ensures { result ≡ is_share_kind kind }
{
    match kind {
        ParcelKind::Lend => false,
        ParcelKind::Share => true,
    }
}

fn shares(rows: &[Parcel], serial: Serial) -> usize
    ensures { result ≡ count_by (is_share_of serial.0) rows.now }
{
    rows.iter()
        .filter(|row| is_share(row.kind) && row.extent == serial)
        .count()
}

fn boot_partitions(rows: &[PartitionRow], serial: Serial) -> usize
    ensures { result ≡ count_by (is_boot_partition serial.0) rows.now }
{
    rows.iter()
        .filter(|row| row.serial == serial && row.parent.0 == 0)
        .count()
}

fn root_extents(rows: &[ExtentRow], serial: Serial) -> usize
    ensures { result ≡ count_by (is_root_extent serial.0) rows.now }
{
    rows.iter()
        .filter(|row| row.serial == serial && row.parent.0 == 0)
        .count()
}

/// Whether nothing refers to the object.
pub(crate) fn doomed(state: &State, serial: Serial) -> bool
    ensures { result ≡ is_doomed state.now serial.0 }
{
    let capabilities = capabilities(state.caps.as_slice(), serial);
    let mappings = mappings(state.mappings.as_slice(), serial);
    let children = children(state.extents.as_slice(), serial);
    let inhabitants = inhabitants(state.objects.as_slice(), serial);
    let slots = slots(state.caps.as_slice(), serial);
    let attachments = attachments(state.cpus.as_slice(), serial);
    let links = links(state.cpus.as_slice(), state.links.as_slice(), serial);
    let shares = shares(state.parcels.as_slice(), serial);
    let boot_partitions = boot_partitions(state.partitions.as_slice(), serial);
    let root_extents = root_extents(state.extents.as_slice(), serial);
    capabilities == 0
        && mappings == 0
        && children == 0
        && inhabitants == 0
        && slots == 0
        && attachments == 0
        && links == 0
        && shares == 0
        && boot_partitions == 0
        && root_extents == 0
}
