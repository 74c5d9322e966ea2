//! The indices of a boot's objects, each in the block of its partition.

ghost use Rattle.std.specs.Prelude.{◌≡◌, ◌<◌, IfOk, count_by, map, slice_get};
ghost use Rattle.std.specs.List.{position};
ghost use Rattle.gh_base.specs.declared.limits.TheConstants.{OBJECT_INDICES};
ghost use Rattle.gh_events.specs.Config.{object_at};
ghost use Rattle.gh_schedules.specs.Indices.{boot_index, is_earlier_in, row_index};
ghost use Rattle.gh_schedules.specs.Places.{is_earlier_partition, is_partition_kind};
ghost use Rattle.gh_words.specs.Booting.{HasIndices, is_number, row_number};

use gh_base::{Kind, NoMemory, PARTITION_PLACES, Sequence, Serial};
use gh_model::{ObjectRow, State, object_row};
use std::alloc::Global;

fn is_partition(kind: Kind) -> bool
    ensures { result ≡ is_partition_kind kind }
{
    matches!(kind, Kind::Partition)
}

/// The partitions of the boot before one of them.
fn partitions_before(rows: &[ObjectRow], partition: Serial) -> usize
    ensures { result ≡ count_by (is_earlier_partition partition.0) rows.now }
{
    rows.iter()
        .filter(|row| row.serial.0 < partition.0 && is_partition(row.kind))
        .count()
}

/// The objects of a partition before one of them.
fn objects_before(rows: &[ObjectRow], row: ObjectRow) -> usize
    ensures { result ≡ count_by (is_earlier_in row.partition.0 row.serial.0) rows.now }
{
    let serial = row.serial.0;
    let partition = row.partition;
    rows.iter()
        .filter(|other| other.serial.0 < serial && other.partition == partition)
        .count()
}

/// The index of an object with this row.
fn row_index(boot: &State, row: ObjectRow) -> u16
    requires { row_index boot.now row < OBJECT_INDICES }
    ensures { result ≡ row_index boot.now row }
{
    let rows = boot.objects.as_slice();
    let block = partitions_before(rows, row.partition) * PARTITION_PLACES;
    (block + objects_before(rows, row)) as u16
}

/// The index of an object; 0 of a serial without one.
pub(crate) fn boot_index(boot: &State, serial: Serial) -> u16
    requires { HasIndices boot.now }
    ensures value { result ≡ boot_index boot.now serial.0 }
    ensures within { result < OBJECT_INDICES }
{
    match object_row(boot.objects.as_slice(), serial) {
        None => 0,
        Some(row) => row_index(boot, row),
    }
}

/// The index of each object, in the order of the rows.
pub(crate) fn boot_numbers(alloc: Global, boot: &State) -> Result<Sequence<u16>, NoMemory>
    requires { HasIndices boot.now }
    ensures { IfOk result (λ numbers. numbers ≡ map (row_number boot.now) boot.now.objects) }
{
    let rows = boot.objects.as_slice();
    let mut numbers = Sequence::with_room(alloc, rows.len())?;
    for row in rows {
        numbers.push(boot_index(boot, row.serial))?;
    }
    Ok(numbers)
}

/// The place of the first number that is this one.
fn place_of(numbers: &[u16], at: u16) -> Option<usize>
    ensures { result ≡ position (is_number at) numbers.now }
{
    numbers.iter().position(|number| *number == at)
}

fn row_at(rows: &[ObjectRow], place: usize) -> Option<ObjectRow>
    ensures { result ≡ slice_get rows.now place }
{
    rows.get(place).copied()
}

/// The object at an index.
pub(crate) fn object_at(boot: &State, numbers: &[u16], at: u16) -> Option<ObjectRow>
    requires { numbers.now ≡ map (row_number boot.now) boot.now.objects }
    ensures { result ≡ object_at boot.now (boot_index boot.now) at }
{
    match place_of(numbers, at) {
        None => None,
        Some(place) => row_at(boot.objects.as_slice(), place),
    }
}
