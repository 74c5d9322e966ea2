//! A run's progress before the first call.

ghost use Rattle.std.specs.Prelude.{◌≡◌, ◌+◌, ◌<◌, ◌≤◌, ℕ, [], IfOk, None, count_by, length, map, replicate};
ghost use Rattle.std.specs.List.{range_with_len};
ghost use Rattle.gh_base.specs.declared.limits.TheConstants.{CPUS, OBJECT_INDICES, PARTITIONS};
ghost use Rattle.gh_events.specs.Start.{start};
ghost use Rattle.gh_items.specs.Beginning.{AreAllNoted, ArePlaced, new_seat};
ghost use Rattle.gh_items.specs.Stands.{Stands};
ghost use Rattle.gh_model.specs.Boot.{boot_state};
ghost use Rattle.gh_schedules.specs.Indices.{boot_index, is_earlier_in, row_index};
ghost use Rattle.gh_schedules.specs.Places.{boot_place, is_earlier_partition, is_partition_kind};

use crate::progress::{Progress, Seat};
use gh_base::{CPUS, CpuNo, Kind, NoMemory, ObjIndex, PARTITION_PLACES, Sequence, Serial};
use gh_core::CurrentCall;
use gh_model::{Boot, ObjectRow, Plain, State, cpu_row, object_row};
use std::alloc::Global;

fn is_partition(kind: Kind) -> bool
    ensures { result ≡ is_partition_kind kind }
{
    matches!(kind, Kind::Partition)
}

/// The place of a partition of the boot: the earlier ones, counted.
fn boot_place(rows: &[ObjectRow], partition: Serial) -> usize
    ensures { result ≡ count_by (is_earlier_partition partition.0) rows.now }
{
    rows.iter()
        .filter(|row| row.serial.0 < partition.0 && is_partition(row.kind))
        .count()
}

/// The place of an object in its partition: the earlier ones of the partition, counted.
fn own_place(rows: &[ObjectRow], row: ObjectRow) -> usize
    ensures { result ≡ count_by (is_earlier_in row.partition.0 row.serial.0) rows.now }
{
    rows.iter()
        .filter(|other| other.serial.0 < row.serial.0 && other.partition == row.partition)
        .count()
}

/// The index of an object of the boot.
fn row_index(boot: &State, row: ObjectRow) -> u16
    requires { row_index boot.now row < OBJECT_INDICES }
    ensures { result ≡ row_index boot.now row }
{
    let rows = boot.objects.as_slice();
    let place = boot_place(rows, row.partition);
    let own = own_place(rows, row);
    (place * PARTITION_PLACES + own) as u16
}

/// The index of the boot's object of this serial, 0 where it has none.
fn boot_index(boot: &State, serial: Serial) -> ObjIndex
    requires { boot_index boot.now serial.0 < OBJECT_INDICES }
    ensures { result.0 ≡ boot_index boot.now serial.0 }
{
    match object_row(boot.objects.as_slice(), serial) {
        None => ObjIndex(0),
        Some(row) => ObjIndex(row_index(boot, row)),
    }
}

/// The index of each object of the boot, by serial from 1 on.
fn boot_places(alloc: Global, boot: &State) -> Result<Sequence<ObjIndex>, NoMemory>
    requires some { 0 < boot.now.next_serial }
    requires within { (serial : ℕ) → boot_index boot.now serial < OBJECT_INDICES }
    ensures { IfOk result (λ places. ArePlaced boot.now.next_serial places (boot_index boot.now)) }
{
    let mut places = Sequence::new(alloc);
    for serial in 1..boot.next_serial {
        places.push(boot_index(boot, Serial(serial)))?;
    }
    Ok(places)
}

/// The place that each object of the boot is noted with, by serial from 1 on.
fn boot_noted(alloc: Global, boot: &State) -> Result<Sequence<u8>, NoMemory>
    requires some { 0 < boot.now.next_serial }
    requires within { (serial : ℕ) → boot_place boot.now serial ≤ PARTITIONS }
    ensures { IfOk result (λ noted. AreAllNoted boot.now.next_serial noted (boot_place boot.now)) }
{
    let mut noted = Sequence::new(alloc);
    for serial in 1..boot.next_serial {
        let place = boot_place(boot.objects.as_slice(), Serial(serial));
        noted.push(place as u8)?;
    }
    Ok(noted)
}

/// The seat of a CPU that has made no call. One that isn't in the boot has no capability space.
fn new_seat(boot: &State, cpu: CpuNo) -> Seat
    ensures { result ≡ new_seat boot.now cpu.0 }
{
    let cspace = match cpu_row(boot.cpus.as_slice(), cpu) {
        None => Serial(0),
        Some(row) => row.cspace,
    };
    Seat {
        cpu,
        cspace,
        calls: 0,
        sections: 0,
        place: 0,
        ended: false,
    }
}

/// The nine CPUs have their seats.
fn new_seats(alloc: Global, boot: &State) -> Result<Sequence<Seat>, NoMemory>
    ensures { IfOk result (λ seats. seats ≡ map (new_seat boot.now) (range_with_len 0 CPUS)) }
{
    let mut seats = Sequence::with_room(alloc, CPUS)?;
    for cpu in 0..CPUS as u8 {
        seats.push(new_seat(boot, CpuNo(cpu)))?;
    }
    Ok(seats)
}

/// None of them has a call in progress.
fn no_calls(alloc: Global) -> Result<Sequence<Option<CurrentCall>>, NoMemory>
    ensures { IfOk result (λ calls. calls ≡ replicate CPUS None) }
{
    let mut calls = Sequence::with_room(alloc, CPUS)?;
    for made in 0..CPUS {
        calls.push(None)?;
    }
    Ok(calls)
}

/// The progress of a run before its first call. Each object of the boot has its index in the block
/// of its partition.
pub fn begin_run(alloc: Global, boot: &Boot) -> Result<Progress, NoMemory>
    ensures stands { IfOk result (λ progress. Stands progress
        (start (boot_state boot.now) (boot_index (boot_state boot.now)))) }
    ensures marks { IfOk result (λ progress. progress.marks ≡ []) }
{
    let _lines = boot.lines();
    let plain = Plain::boot(alloc, boot)?;
    let places = boot_places(alloc, plain.state())?;
    let noted = boot_noted(alloc, plain.state())?;
    let seats = new_seats(alloc, plain.state())?;
    let calls = no_calls(alloc)?;
    Ok(Progress {
        plain,
        entries: Sequence::new(alloc),
        marks: Sequence::new(alloc),
        places,
        noted,
        seats,
        calls,
    })
}
