//! Operations on a capability space.

use crate::checksum::checksum;
use gh_base::{CapState, CapWord, Kind, ObjIndex, Rights};
use gh_cspace::Cspace;

/// The master capability of a doorbell.
fn master() -> CapWord {
    CapWord::valid(Kind::Bell, true, ObjIndex(7), Rights(0x103), 0)
}

/// Another slot at each turn.
fn slot_of(turn: u64) -> u64 {
    turn % 128
}

/// A capability space in which every slot but the last is filled.
fn filled() -> Cspace {
    let mut space = Cspace::new();
    for _ in 0..126 {
        if let Some(slot) = space.free_slot() {
            space.insert(slot, master());
        }
    }
    space
}

fn delete(space: &mut Cspace, slot: u64) -> u64 {
    match space.delete(slot, 1) {
        Ok(word) => word.0,
        Err(errno) => errno.number(),
    }
}

fn insert_and_delete(space: &mut Cspace) -> u64 {
    match space.free_slot() {
        None => 0,
        Some(slot) => {
            space.insert(slot, master());
            delete(space, slot as u64)
        }
    }
}

fn copy_and_delete(space: &mut Cspace, source: CapWord) -> u64 {
    match (space.free_slot(), source.state()) {
        (Some(slot), CapState::Valid) => {
            let word = space.copy(slot, source, 0x3, 1);
            word.0 ^ delete(space, slot as u64)
        }
        _ => 0,
    }
}

fn copy_and_revoke(space: &mut Cspace, source: CapWord) -> u64 {
    match (space.free_slot(), source.state()) {
        (Some(slot), CapState::Valid) => {
            space.copy(slot, source, 0x3, 1);
            revoke_and_delete(space, slot as u64)
        }
        _ => 0,
    }
}

fn revoke_and_delete(space: &mut Cspace, slot: u64) -> u64 {
    match space.revoke(slot, 2) {
        Ok(word) => word.0 ^ delete(space, slot),
        Err(errno) => errno.number(),
    }
}

/// Finds the free slot, puts a capability there and deletes it.
pub fn insert(count: u64) -> u64 {
    let mut space = filled();
    checksum(count, |_| insert_and_delete(&mut space))
}

/// Reads a slot.
pub fn get(count: u64) -> u64 {
    let space = filled();
    checksum(count, |turn| space.get(slot_of(turn)).0)
}

/// Deletes a slot that was filled just now, and finds the least free slot.
pub fn free_slot(count: u64) -> u64 {
    let mut space = filled();
    checksum(count, |turn| {
        delete(&mut space, slot_of(turn));
        space.free_slot().map_or(0, |slot| slot as u64)
    })
}

/// Puts a copy into the free slot and deletes it.
pub fn copy(count: u64) -> u64 {
    let mut space = filled();
    checksum(count, |_| copy_and_delete(&mut space, master()))
}

/// Puts a copy into the free slot, revokes it and deletes it.
pub fn revoke(count: u64) -> u64 {
    let mut space = filled();
    checksum(count, |_| copy_and_revoke(&mut space, master()))
}
