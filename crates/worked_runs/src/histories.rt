//! Whole histories: of three calls, of none, and of a revoke of all capabilities of an object.

use crate::boots::{doorbell, three_copies};
use crate::run::history;
use std::test::Fail;

#[test]
fn three_calls_and_the_exit(rt: HostRuntime) -> Result<(), Fail> {
    let alloc = rt.alloc();
    let boot = doorbell(alloc)?;
    let text = history(
        alloc,
        boot.as_str(),
        &["c6008000\nc6008012 7 5\nc6008012 7 2\n"],
    )?;
    assert_eq!(rt; text.as_str(), three_calls_text());
    Ok(())
}

fn three_calls_text() -> &'static str {
    "history 4\n1 act 1 1\n2 act 1 2\n3 act 1 3\n4 act 1 4\ncalls 4\n\
     call 1 1 0 entry 1 = 8001 46 0 0\n\
     call 1 2 1 look 7 1 entry 2 = 0 0 0 0\n\
     call 1 3 3 look 7 2 entry 3 = 0 5 0 0\n\
     call 1 4 0 entry 4 = 0 0 0 0\n\
     state\nunits 1 11 29 0\nend\n"
}

#[test]
fn no_call_but_the_exit(rt: HostRuntime) -> Result<(), Fail> {
    let alloc = rt.alloc();
    let boot = doorbell(alloc)?;
    let text = history(alloc, boot.as_str(), &[""])?;
    assert_eq!(rt; text.as_str(), exit_text());
    Ok(())
}

fn exit_text() -> &'static str {
    "history 1\n1 act 1 1\ncalls 1\ncall 1 1 0 entry 1 = 0 0 0 0\n\
     state\nunits 1 11 29 0\nend\n"
}

#[test]
fn a_revoke_of_all_ends_every_copy(rt: HostRuntime) -> Result<(), Fail> {
    let alloc = rt.alloc();
    let boot = three_copies(alloc)?;
    let text = history(
        alloc,
        boot.as_str(),
        &["c6008213 1\n", "c6008012 1 1\nc6008012 3 1\n"],
    )?;
    assert_eq!(rt; text.as_str(), revoked_text());
    Ok(())
}

fn revoked_text() -> &'static str {
    "history 6\n1 part 1 1 3 1\n2 part 1 1 3 2\n3 part 1 1 3 3\n4 act 1 1\n\
     5 act 1 2\n6 act 2 3\ncalls 5\n\
     call 1 1 1 look 1 0 entry 4 = 0 3 0 0\n\
     call 1 2 0 entry 5 = 0 0 0 0\n\
     call 2 1 1 look 1 1 refused = 33 0 0 0\n\
     call 2 2 3 look 3 3 refused = 33 0 0 0\n\
     call 2 3 0 entry 6 = 0 0 0 0\n\
     state\nunits 1 19 21 0\nend\n"
}
