//! The tables before any event.

ghost use Rattle.std.specs.Prelude.{◌≡◌, ◌<◌, ◌^◌, count_by, map, replicate, IfOk};
ghost use Rattle.gh_base.specs.declared.limits.TheConstants.{CPUS};
ghost use Rattle.gh_core.specs.Booted.{placed as placed_of};
ghost use Rattle.gh_core.specs.Running.{cpu_of};
ghost use Rattle.gh_events.specs.Start.{new_cpu};
ghost use Rattle.gh_schedules.specs.Indices.{boot_index as boot_index_of};
ghost use Rattle.gh_schedules.specs.Indices.{is_earlier_in};
ghost use Rattle.gh_schedules.specs.Places.{boot_place as boot_place_of, is_partition_kind as is_partition_kind_of};
ghost use Rattle.gh_schedules.specs.Indices.{row_index as row_index_of};

use crate::cpu::Seat;
use crate::reads::narrow;
use crate::table::Written;
use gh_base::{CPUS, Kind, NoMemory, PARTITION_PLACES, Sequence, Serial};
use gh_model::{ObjectRow, State, object_row};
use std::alloc::Global;

fn is_partition_kind(kind: Kind) -> bool
    ensures { result ≡ is_partition_kind_of kind }
{
    matches!(kind, Kind::Partition)
}

/// The place of a partition of the boot: the number of those before it.
fn boot_place(boot: &State, partition: Serial) -> usize
    ensures { result ≡ boot_place_of boot.now partition.0 }
{
    boot.objects
        .as_slice()
        .iter()
        .filter(|row| row.serial.0 < partition.0 && is_partition_kind(row.kind))
        .count()
}

/// The objects of a partition before one of them.
fn earlier_in(boot: &State, partition: Serial, serial: Serial) -> usize
    ensures { result ≡ count_by (is_earlier_in partition.0 serial.0) boot.now.objects }
{
    boot.objects
        .as_slice()
        .iter()
        .filter(|row| row.serial.0 < serial.0 && row.partition == partition)
        .count()
}

fn row_index(boot: &State, row: &ObjectRow) -> u128
    ensures { result ≡ row_index_of boot.now row.now }
{
    let place = boot_place(boot, row.partition) as u128;
    let before = earlier_in(boot, row.partition, row.serial) as u128;
    place * (PARTITION_PLACES as u128) + before
}

/// The index of an object of the boot: in the block of its partition's place.
fn boot_index(boot: &State, serial: Serial) -> u128
    ensures { result ≡ boot_index_of boot.now serial.0 }
{
    match object_row(boot.objects.as_slice(), serial) {
        None => 0,
        Some(row) => row_index(boot, &row),
    }
}

/// An object of the boot with its index.
fn placed(boot: &State, row: &ObjectRow) -> Result<Written, NoMemory>
    ensures { IfOk result (λ written. written ≡ placed_of boot.now row.now) }
{
    let at = row.serial.0 as u64;
    let value = narrow(boot_index(boot, row.serial))?;
    Ok(Written { at, value })
}

/// The indices of the boot's objects.
pub(crate) fn boot_indices(alloc: Global, boot: &State) -> Result<Sequence<Written>, NoMemory>
    ensures { IfOk result (λ indices. indices ≡ map (placed_of boot.now) boot.now.objects) }
{
    let rows = boot.objects.as_slice();
    let mut indices = Sequence::with_room(alloc, rows.len())?;
    for row in rows {
        indices.push(placed(boot, row)?)?;
    }
    Ok(indices)
}

/// A seat for each CPU.
pub(crate) fn new_seats(alloc: Global) -> Result<Sequence<Seat>, NoMemory>
    ensures { IfOk result (λ seats. map cpu_of seats ≡ replicate CPUS new_cpu) }
{
    let mut seats = Sequence::with_room(alloc, CPUS)?;
    for done in 0..CPUS {
        seats.push(Seat::new(alloc))?;
    }
    Ok(seats)
}
