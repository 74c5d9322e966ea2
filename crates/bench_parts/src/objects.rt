//! Operations on the live objects.

ghost use Rattle.std.specs.Prelude.{◌≡◌, ◌<◌, IfSome, count_by, is_some, length};
ghost use Rattle.std.specs.Bool.{OnTrue};
ghost use Rattle.bench_parts.specs.References.{HasReferences, HaveRoom};
ghost use Rattle.gh_objects.specs.Headers as Spec;
ghost use Rattle.gh_objects.specs.Headers.{header_at, headers_in};

use crate::checksum::{checksum, folded};
use gh_base::{
    Kind, NoMemory, OBJECT_INDICES, ObjIndex, PARTITION_PLACES, PARTITIONS, Serial, Stage,
};
use gh_objects::Objects;
use std::alloc::Global;

/// The index of the partition that a boot file would make.
const HOME: ObjIndex = ObjIndex(0);

/// The serial of the object that an operation is about. It is the least.
const SERIAL: Serial = Serial(1);

/// The first serial of the other objects.
const OTHER_SERIALS: u32 = 10;

/// Doorbells that leave room for one more in the partition of a boot file, which has all
/// partitions.
const BELLS: u32 = 952;

/// Whether a live partition has the index.
fn is_partition(objects: &Objects, index: ObjIndex) -> bool
    ensures partition { result ≡ Spec.is_partition (header_at objects.now.table.headers index.0) }
    ensures indices { length objects.now.table.headers ≡ OBJECT_INDICES }
{
    match objects.header(index) {
        Some(header) => header.kind == Kind::Partition,
        None => false,
    }
}

/// Whether the last index of a partition place is free.
#[tactic(auto, using(crate::proofs::ObjectsLemmas::room_last_free))]
fn is_last_free(objects: &Objects, place: usize) -> bool
    requires { place < PARTITIONS }
    ensures { OnTrue result
        (count_by is_some (headers_in objects.now.table.headers place) < PARTITION_PLACES) }
{
    let last = place * PARTITION_PLACES + PARTITION_PLACES - 1;
    objects.header(ObjIndex(last as u16)).is_none()
}

/// Whether the last index of every partition place is free.
#[tactic(auto, using(crate::proofs::ObjectsLemmas::room_places))]
fn have_room(objects: &Objects) -> bool
    requires { length objects.now.table.headers ≡ OBJECT_INDICES }
    ensures { OnTrue result (HaveRoom objects.now) }
{
    for place in 0..PARTITIONS {
        if !is_last_free(objects, place) {
            return false;
        }
    }
    true
}

/// Makes a doorbell, and answers its index; none where no partition has that index, or one is full.
fn make_bell(objects: &mut Objects, partition: ObjIndex, serial: Serial) -> Option<ObjIndex>
    ensures { IfSome result (λ index. HasReferences objects.new index.0 0) }
{
    if !is_partition(objects, partition) {
        return None;
    }
    if !have_room(objects) {
        return None;
    }
    Some(objects.insert(Kind::Bell, partition, serial, Stage::Ready))
}

/// Makes a partition in that of a boot file, where all have room and one more may live.
fn make_partition(objects: &mut Objects, serial: Serial) {
    if !is_partition(objects, HOME) {
        return;
    }
    if !have_room(objects) {
        return;
    }
    if objects.has_partition_place() {
        objects.insert(Kind::Partition, HOME, serial, Stage::Init);
    }
}

/// The partition of a boot file, and no other object.
fn home(alloc: Global) -> Result<Objects, NoMemory> {
    let mut objects = Objects::new(alloc)?;
    objects.insert(Kind::Partition, HOME, Serial(OTHER_SERIALS), Stage::Active);
    Ok(objects)
}

/// Eight partitions and nearly as many doorbells as there is room for, all of them doomed.
fn many(alloc: Global) -> Result<Objects, NoMemory> {
    let mut objects = home(alloc)?;
    for made in 1..PARTITIONS as u32 {
        make_partition(&mut objects, Serial(OTHER_SERIALS + made));
    }
    for made in 0..BELLS {
        let partition = ObjIndex((made % 8) as u16);
        make_bell(&mut objects, partition, Serial(OTHER_SERIALS + 8 + made));
    }
    Ok(objects)
}

/// Makes a doorbell with one reference; its index.
fn make_referred(objects: &mut Objects) -> Option<ObjIndex>
    ensures { IfSome result (λ index. HasReferences objects.new index.0 1) }
{
    let index = make_bell(objects, HOME, SERIAL)?;
    objects.add_ref(index);
    Some(index)
}

fn make_and_remove(objects: &mut Objects) -> u64 {
    match make_bell(objects, HOME, SERIAL) {
        None => 0,
        Some(index) => {
            objects.retire(index);
            objects.remove(index);
            index.0 as u64
        }
    }
}

fn add_and_drop(objects: &mut Objects, index: ObjIndex) -> u64
    requires { HasReferences objects.old index.0 1 }
    ensures { HasReferences objects.new index.0 1 }
{
    objects.add_ref(index);
    objects.drop_ref(index) as u64
}

fn drop_and_add(objects: &mut Objects, index: ObjIndex) -> u64
    requires { HasReferences objects.old index.0 1 }
    ensures { HasReferences objects.new index.0 1 }
{
    let doomed = objects.drop_ref(index);
    objects.add_ref(index);
    doomed as u64
}

fn add_and_drop_times(objects: &mut Objects, index: ObjIndex, count: u64) -> u64
    requires { HasReferences objects.old index.0 1 }
{
    let mut sum = 0;
    for _turn in 0..count {
        sum = folded(sum, add_and_drop(objects, index));
    }
    sum
}

fn drop_and_add_times(objects: &mut Objects, index: ObjIndex, count: u64) -> u64
    requires { HasReferences objects.old index.0 1 }
{
    let mut sum = 0;
    for _turn in 0..count {
        sum = folded(sum, drop_and_add(objects, index));
    }
    sum
}

fn stage_answer(objects: &mut Objects, index: ObjIndex, stage: Stage) -> u64 {
    if objects.header(index).is_none() {
        return 0;
    }
    objects.set_stage(index, stage);
    1
}

fn header_answer(objects: &Objects, index: ObjIndex) -> u64 {
    objects
        .header(index)
        .map_or(0, |header| header.serial.0 as u64)
}

/// Makes a doorbell among few objects, retires it and removes it. Besides, it looks whether there
/// is room.
pub fn insert(alloc: Global, count: u64) -> Result<u64, NoMemory> {
    let mut objects = home(alloc)?;
    Ok(checksum(count, |_| make_and_remove(&mut objects)))
}

/// Adds a reference to an object that has one, and drops it.
pub fn add_ref(alloc: Global, count: u64) -> Result<u64, NoMemory> {
    let mut objects = many(alloc)?;
    Ok(match make_referred(&mut objects) {
        None => 0,
        Some(index) => add_and_drop_times(&mut objects, index, count),
    })
}

/// Drops the only reference of the object with the least serial, where few others are doomed, and
/// adds one.
pub fn doom(alloc: Global, count: u64) -> Result<u64, NoMemory> {
    let mut objects = home(alloc)?;
    Ok(match make_referred(&mut objects) {
        None => 0,
        Some(index) => drop_and_add_times(&mut objects, index, count),
    })
}

/// The same where nearly all others are doomed.
pub fn doom_among_many(alloc: Global, count: u64) -> Result<u64, NoMemory> {
    let mut objects = many(alloc)?;
    Ok(match make_referred(&mut objects) {
        None => 0,
        Some(index) => drop_and_add_times(&mut objects, index, count),
    })
}

/// Reads the header of another index at each turn.
pub fn header(alloc: Global, count: u64) -> Result<u64, NoMemory> {
    let objects = many(alloc)?;
    Ok(checksum(count, |turn| {
        header_answer(&objects, ObjIndex((turn % 1024) as u16))
    }))
}

/// Puts another object into another stage at each turn.
pub fn set_stage(alloc: Global, count: u64) -> Result<u64, NoMemory> {
    let mut objects = many(alloc)?;
    Ok(checksum(count, |turn| {
        stage_answer(&mut objects, ObjIndex((turn % 1024) as u16), Stage::Active)
    }))
}

/// How many objects are doomed, where nearly all are.
pub fn doomed(alloc: Global, count: u64) -> Result<u64, NoMemory> {
    let objects = many(alloc)?;
    Ok(checksum(count, |turn| turn ^ objects.doomed().len() as u64))
}
