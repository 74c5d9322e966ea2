//! Worked slots of one capability space.

use gh_base::{CapState, CapWord, Errno, Kind, ObjIndex, Rights};
use gh_cspace::Cspace;

const BELL: ObjIndex = ObjIndex(7);

/// A space whose slot 1 has the master capability of a doorbell, and slot 2 a copy of it.
fn space_with_copy() -> Cspace {
    let mut space = Cspace::new();
    let master = CapWord::valid(Kind::Bell, true, BELL, Rights(0x103), 9);
    space.insert(1, master);
    space.copy(2, master, 0x2, 10);
    space
}

fn is_masked(copy: CapWord) -> bool {
    copy.rights() == Rights(0x2) && copy.set_at() == 10 && !copy.master()
}

/// Whether the copy is the only child of its object, and another object has none.
fn has_one_child(space: &Cspace) -> bool {
    space.children(BELL).as_slice() == [2].as_slice()
        && space.children(ObjIndex(8)).as_slice().is_empty()
}

fn copy_is_masked() -> bool {
    let space = space_with_copy();
    is_masked(space.get(2)) && has_one_child(&space)
}

#[test]
fn a_copy_has_the_masked_rights_and_no_master_mark(rt: HostRuntime) {
    assert!(rt; copy_is_masked());
}

/// Whether slots that are revoked one after another are refused so.
fn revokes(space: &mut Cspace) -> bool {
    let mut all = true;
    for (slot, answer) in [
        (0, Some(Errno::CapNull)),
        (1, Some(Errno::InsufRights)),
        (2, None),
        (2, Some(Errno::CapRevoked)),
        (3, Some(Errno::CapNull)),
        (128, Some(Errno::CapNull)),
    ] {
        all = all && space.revoke(slot, 11).err() == answer;
    }
    all
}

/// The same of slots that are deleted.
fn deletes(space: &mut Cspace) -> bool {
    let mut all = true;
    for (slot, answer) in [
        (0, Some(Errno::CapNull)),
        (1, None),
        (1, Some(Errno::CapNull)),
        (2, None),
        (u64::MAX, Some(Errno::CapNull)),
    ] {
        all = all && space.delete(slot, 12).err() == answer;
    }
    all
}

fn causes_are_named() -> bool {
    let mut space = space_with_copy();
    revokes(&mut space)
        && deletes(&mut space)
        && space.get(2).state() == CapState::Empty
        && space.get(2).set_at() == 12
        && space.free_slot() == Some(1)
}

#[test]
fn refusals_name_their_cause(rt: HostRuntime) {
    assert!(rt; causes_are_named());
}
