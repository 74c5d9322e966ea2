//! Calls that cross by a schedule: what each comes to, item by item.

use crate::boots::{lone_doorbell, narrow_partition, shared_doorbell};
use crate::run::{scheduled, tells};
use std::test::Fail;

/// The second VM's looks come before the first VM's revoke, and its first act behind it.
#[test]
fn a_look_before_a_revoke_still_acts(rt: HostRuntime) -> Result<(), Fail> {
    let alloc = rt.alloc();
    let boot = shared_doorbell(alloc)?;
    let files = ["c6008212 6 7\n", "c6008012 7 1\nc6008012 7 1\n"];
    let text = scheduled(alloc, boot.as_str(), "2211111222", &files)?;
    assert_eq!(rt; text.as_str(), revoked_text());
    Ok(())
}

fn revoked_text() -> &'static str {
    "history 4\n1 act 1 1\n2 act 2 1\n3 act 1 2\n4 act 2 3\ncalls 5\n\
     call 1 1 1 look 6 0 entry 1 = 0 0 0 0\n\
     call 1 2 0 entry 3 = 0 0 0 0\n\
     call 2 1 1 look 7 0 entry 2 = 0 0 0 0\n\
     call 2 2 3 look 7 2 refused = 33 0 0 0\n\
     call 2 3 0 entry 4 = 0 0 0 0\n\
     state\nunits 1 19 21 0\nend\n"
}

/// The last capability goes, and a sweep kills the object, between a look and its pin.
#[test]
fn a_pin_behind_a_kill_is_dead(rt: HostRuntime) -> Result<(), Fail> {
    let alloc = rt.alloc();
    let boot = lone_doorbell(alloc)?;
    let files = ["c6008211 6 7\nc6008201 1 2 5\n", "c6008012 7 1\n"];
    let text = scheduled(alloc, boot.as_str(), "22111111111111222", &files)?;
    assert_eq!(rt; text.as_str(), killed_text());
    Ok(())
}

fn killed_text() -> &'static str {
    "history 5\n1 act 1 1\n2 retire 7 0 4 1 0 0 0 0 0 0\n3 act 1 2\n4 act 1 3\n5 act 2 2\n\
     calls 5\n\
     call 1 1 1 look 6 0 entry 1 = 0 0 0 0\n\
     call 1 2 3 look 1 1 look 2 1 entry 3 = 0 3 0 0\n\
     call 1 3 0 entry 4 = 0 0 0 0\n\
     call 2 1 1 look 7 0 dead = 33 0 0 0\n\
     call 2 2 0 entry 5 = 0 0 0 0\n\
     state\nunits 1 20 20 0\nend\n"
}

/// A create that lacks units waits for a reader: the first finds it, the second finds it gone.
#[test]
fn a_create_is_short_while_a_cpu_reads(rt: HostRuntime) -> Result<(), Fail> {
    let alloc = rt.alloc();
    let boot = narrow_partition(alloc)?;
    let files = [
        "c6008211 6 7\nc6008201 1 2 5\nc6008201 1 2 5\n",
        "c6008012 7 1\n",
    ];
    let text = scheduled(alloc, boot.as_str(), "221111111111112221111111", &files)?;
    assert_eq!(rt; text.as_str(), short_text());
    Ok(())
}

fn short_text() -> &'static str {
    "history 6\n1 act 1 1\n2 retire 8 0 4 1 0 0 0 0 0 0\n3 reclaim 8 0 6 2 0 0 0 0 0 0\n\
     4 act 1 3\n5 act 1 4\n6 act 2 2\ncalls 6\n\
     call 1 1 1 look 6 0 entry 1 = 0 0 0 0\n\
     call 1 2 3 look 1 1 look 2 1 short 2 reading 8 2 1 = a 0 0 0\n\
     call 1 3 5 look 1 2 look 2 2 entry 4 = 0 3 0 0\n\
     call 1 4 0 entry 5 = 0 0 0 0\n\
     call 2 1 1 look 7 0 dead = 33 0 0 0\n\
     call 2 2 0 entry 6 = 0 0 0 0\n\
     state\nunits 1 18 22 0\nunits 2 2 0 0\nend\n"
}

/// The source of a copy is revoked behind its look, so that the copy is to be asked again.
#[test]
fn a_copy_whose_source_goes_is_asked_again(rt: HostRuntime) -> Result<(), Fail> {
    let alloc = rt.alloc();
    let boot = shared_doorbell(alloc)?;
    let files = ["c6008212 6 7\n", "c6008210 2 7 1\n"];
    let text = scheduled(alloc, boot.as_str(), "222221111122", &files)?;
    tells(
        &rt,
        text.as_str(),
        &["call 2 1 1 look 2 0 look 7 0 act 1 = fffffffffffffffe 0 0 0"],
    );
    Ok(())
}
