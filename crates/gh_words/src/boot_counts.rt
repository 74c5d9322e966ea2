//! What refers to the objects of a boot.

ghost use Rattle.std.specs.Prelude.{◌≡◌, ◌<◌, count_by};
ghost use Rattle.gh_events.specs.Bounded.{many_references};
ghost use Rattle.gh_model.specs.References.{is_capability_of, is_child_of, is_mapping_of};
ghost use Rattle.gh_model.specs.References.{is_root_extent, is_share as is_share_kind};
ghost use Rattle.gh_model.specs.References.{is_share_of, is_slot_of, is_space_of, references};
ghost use Rattle.gh_model.specs.References.{uses_link};
ghost use Rattle.gh_words.specs.Booting.{by_memory, by_objects, by_slots, by_vms};

use gh_base::{CpuNo, Serial};
use gh_model::{
    CapabilityRow, CpuRow, ExtentRow, LinkRow, MappingRow, Parcel, ParcelKind, State, cpu_row,
};

fn valid_slots(rows: &[CapabilityRow], object: Serial) -> usize
    ensures { result ≡ count_by (is_capability_of object.0) rows.now }
{
    rows.iter()
        .filter(|row| row.valid && row.serial == object)
        .count()
}

fn filled_slots(rows: &[CapabilityRow], object: Serial) -> usize
    ensures { result ≡ count_by (is_slot_of object.0) rows.now }
{
    rows.iter().filter(|row| row.cspace == object).count()
}

/// The capabilities of an object, and the filled slots in it.
fn by_slots(boot: &State, object: Serial) -> u64
    requires { by_slots boot.now object.0 < many_references }
    ensures { result ≡ by_slots boot.now object.0 }
{
    let rows = boot.caps.as_slice();
    valid_slots(rows, object) as u64 + filled_slots(rows, object) as u64
}

/// The objects that live in an object, and the boot where it is a partition of its own.
fn by_objects(boot: &State, object: Serial) -> u64
    requires { by_objects boot.now object.0 < many_references }
    ensures { result ≡ by_objects boot.now object.0 }
{
    let inhabitants = boot
        .objects
        .as_slice()
        .iter()
        .filter(|row| row.partition == object && row.serial != object)
        .count();
    let own = boot
        .partitions
        .as_slice()
        .iter()
        .filter(|row| row.serial == object && row.parent.0 == 0)
        .count();
    inhabitants as u64 + own as u64
}

fn is_share(kind: ParcelKind) -> bool
    ensures { result ≡ is_share_kind kind }
{
    matches!(kind, ParcelKind::Share)
}

fn mappings(rows: &[MappingRow], object: Serial) -> usize
    ensures { result ≡ count_by (is_mapping_of object.0) rows.now }
{
    rows.iter()
        .filter(|row| row.space == object || row.extent == object)
        .count()
}

fn children(rows: &[ExtentRow], object: Serial) -> usize
    ensures { result ≡ count_by (is_child_of object.0) rows.now }
{
    rows.iter().filter(|row| row.parent == object).count()
}

fn shares(rows: &[Parcel], object: Serial) -> usize
    ensures { result ≡ count_by (is_share_of object.0) rows.now }
{
    rows.iter()
        .filter(|row| is_share(row.kind) && row.extent == object)
        .count()
}

fn roots(rows: &[ExtentRow], object: Serial) -> usize
    ensures { result ≡ count_by (is_root_extent object.0) rows.now }
{
    rows.iter()
        .filter(|row| row.serial == object && row.parent.0 == 0)
        .count()
}

/// The mappings, children and shares of an object, and the boot where it is the root extent.
fn by_memory(boot: &State, object: Serial) -> u64
    requires { by_memory boot.now object.0 < many_references }
    ensures { result ≡ by_memory boot.now object.0 }
{
    let extents = boot.extents.as_slice();
    let mapped = mappings(boot.mappings.as_slice(), object);
    let derived = children(extents, object);
    let shared = shares(boot.parcels.as_slice(), object);
    let own = roots(extents, object);
    mapped as u64 + derived as u64 + shared as u64 + own as u64
}

fn is_space(row: Option<CpuRow>, object: Serial) -> bool
    ensures { result ≡ is_space_of object.0 row }
{
    match row {
        None => false,
        Some(row) => row.space == object,
    }
}

/// Whether a link uses the object.
fn uses(cpus: &[CpuRow], row: LinkRow, object: Serial) -> bool
    ensures { result ≡ uses_link cpus.now object.0 row }
{
    is_space(cpu_row(cpus, CpuNo(row.vm.0)), object)
        || row.extent == object
        || row.request == object
        || row.reply == object
}

/// The CPUs that are attached to an object, and the links that use it.
fn by_vms(boot: &State, object: Serial) -> u64
    requires { by_vms boot.now object.0 < many_references }
    ensures { result ≡ by_vms boot.now object.0 }
{
    let cpus = boot.cpus.as_slice();
    let attached = cpus
        .iter()
        .filter(|row| (row.cspace == object || row.space == object) && !row.exited)
        .count();
    let links = boot
        .links
        .as_slice()
        .iter()
        .filter(|row| uses(cpus, **row, object))
        .count();
    attached as u64 + links as u64
}

/// The references of an object.
pub(crate) fn references(boot: &State, object: Serial) -> u64
    requires { references boot.now object.0 < many_references }
    ensures { result ≡ references boot.now object.0 }
{
    by_slots(boot, object)
        + by_objects(boot, object)
        + by_memory(boot, object)
        + by_vms(boot, object)
}
