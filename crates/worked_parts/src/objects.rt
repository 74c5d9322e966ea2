//! A worked life of a few objects.

use crate::outcome::holds;
use gh_base::{Kind, NoMemory, ObjIndex, Serial, Stage};
use gh_objects::Objects;
use std::alloc::Global;

/// Three partitions, a doorbell and a capability space, and the indices that they were given.
fn five_objects(alloc: Global) -> Result<(Objects, [ObjIndex; 5]), NoMemory> {
    let mut objects = Objects::new(alloc)?;
    let first = ObjIndex(0);
    let second = ObjIndex(128);
    let made = ObjIndex(2);
    let indices = [
        objects.insert(Kind::Partition, first, Serial(1), Stage::Active),
        objects.insert(Kind::Partition, second, Serial(2), Stage::Active),
        objects.insert(Kind::Bell, first, Serial(3), Stage::Ready),
        objects.insert(Kind::Partition, first, Serial(4), Stage::Init),
        objects.insert(Kind::Cspace, made, Serial(5), Stage::Ready),
    ];
    Ok((objects, indices))
}

/// Whether each of the five has the least index that is free in its partition.
fn have_least_places(alloc: Global) -> Result<bool, NoMemory> {
    let made = five_objects(alloc)?;
    let least = [
        ObjIndex(0),
        ObjIndex(128),
        ObjIndex(1),
        ObjIndex(2),
        ObjIndex(256),
    ];
    Ok(made.1 == least)
}

#[test]
fn objects_get_the_least_free_places(rt: HostRuntime) {
    assert!(rt; holds(have_least_places(rt.alloc())));
}

/// The partition and the serial in a header.
fn home_and_serial(objects: &Objects, index: u16) -> Option<(u16, u32)> {
    objects
        .header(ObjIndex(index))
        .map(|header| (header.partition.0, header.serial.0))
}

/// Whether the third partition is seen as it was made, and other indices have no header.
fn have_headers(objects: &Objects) -> bool {
    home_and_serial(objects, 2) == Some((0, 4))
        && home_and_serial(objects, 3).is_none()
        && home_and_serial(objects, 1024).is_none()
}

/// Whether the third partition is found by its serial and has the third place, and there is a place
/// for one more.
fn are_found(objects: &Objects) -> bool {
    objects.place(ObjIndex(2)) == Some(2)
        && objects.place(ObjIndex(1)).is_none()
        && objects.index_of(Serial(4)) == Some(ObjIndex(2))
        && objects.index_of(Serial(6)).is_none()
        && objects.has_partition_place()
}

fn are_seen(alloc: Global) -> Result<bool, NoMemory> {
    let made = five_objects(alloc)?;
    Ok(have_headers(&made.0) && are_found(&made.0))
}

#[test]
fn live_objects_have_headers_and_are_found(rt: HostRuntime) {
    assert!(rt; holds(are_seen(rt.alloc())));
}

/// Whether just these serials are told as doomed, and just these as retired.
fn tells(objects: &Objects, doomed: &[Serial], retired: &[Serial]) -> bool {
    objects.doomed() == doomed && objects.retired() == retired
}

fn tells_none(objects: &Objects) -> bool {
    tells(objects, &[], &[])
}

fn tells_both_doomed(objects: &Objects) -> bool {
    tells(objects, &[Serial(4), Serial(9)], &[])
}

/// Whether the doorbell alone is doomed.
fn is_bell_doomed(objects: &Objects) -> bool {
    objects.is_doomed(ObjIndex(1))
        && !objects.is_doomed(ObjIndex(0))
        && tells(objects, &[Serial(4)], &[])
}

/// Whether the doorbell is retired, and in another stage than at first.
fn is_bell_retired(objects: &Objects) -> bool {
    let header = objects.header(ObjIndex(1));
    header.map(|header| header.stage) == Some(Stage::Active) && tells(objects, &[], &[Serial(4)])
}

/// Whether no doorbell lives.
fn is_bell_gone(objects: &Objects) -> bool {
    objects.header(ObjIndex(1)).is_none()
        && objects.index_of(Serial(4)).is_none()
        && tells_none(objects)
}

/// What is seen of a doorbell of serial 4 in a partition of serial 9: once both are made, once both
/// have a reference, once the doorbell's is dropped (two facts), once it is retired, once it is
/// removed, and once an object is made in its place.
fn life_of_a_doorbell(alloc: Global) -> Result<[bool; 7], NoMemory> {
    let mut objects = Objects::new(alloc)?;
    let home = ObjIndex(0);
    let bell = ObjIndex(1);
    objects.insert(Kind::Partition, home, Serial(9), Stage::Active);
    objects.insert(Kind::Bell, home, Serial(4), Stage::Ready);
    let made = tells_both_doomed(&objects);
    objects.add_ref(home);
    objects.add_ref(bell);
    let referred = tells_none(&objects);
    let dropped = objects.drop_ref(bell);
    let doomed = is_bell_doomed(&objects);
    objects.set_stage(bell, Stage::Active);
    objects.retire(bell);
    let retired = is_bell_retired(&objects);
    objects.remove(bell);
    let gone = is_bell_gone(&objects);
    let next = objects.insert(Kind::Queue, home, Serial(10), Stage::Init);
    Ok([made, referred, dropped, doomed, retired, gone, next == bell])
}

fn lives_as_told(alloc: Global) -> Result<bool, NoMemory> {
    Ok(life_of_a_doorbell(alloc)? == [true; 7])
}

#[test]
fn an_object_without_references_is_doomed(rt: HostRuntime) {
    assert!(rt; holds(lives_as_told(rt.alloc())));
}
