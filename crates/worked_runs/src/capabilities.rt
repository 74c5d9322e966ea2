//! Capabilities: copied, revoked and deleted.

use crate::boots::shared_doorbell;
use crate::run::{history, tells};
use std::test::Fail;

#[test]
fn a_copy_goes_to_the_least_free_slot(rt: HostRuntime) -> Result<(), Fail> {
    let alloc = rt.alloc();
    let boot = shared_doorbell(alloc)?;
    let text = history(alloc, boot.as_str(), &["", "c6008210 2 7 1\n"])?;
    tells(
        &rt,
        text.as_str(),
        &["call 2 1 1 look 2 0 look 7 0 entry 2 = 0 1 0 0"],
    );
    Ok(())
}

#[test]
fn a_revoked_capability_fills_its_slot(rt: HostRuntime) -> Result<(), Fail> {
    let alloc = rt.alloc();
    let boot = shared_doorbell(alloc)?;
    let text = history(alloc, boot.as_str(), &[revoking_file(), ringing_file()])?;
    tells(
        &rt,
        text.as_str(),
        &[
            "call 1 2 1 look 6 1 entry 3 = 0 0 0 0",
            "call 1 3 3 look 6 3 act 3 = 32 0 0 0",
            "call 1 4 5 look 6 3 entry 5 = 0 0 0 0",
            "call 2 1 1 look 2 0 look 7 0 entry 2 = 0 1 0 0",
            "call 2 2 3 look 7 3 refused = 33 0 0 0",
            "call 2 3 5 look 1 3 entry 4 = 0 0 0 0",
            "call 2 4 7 look 7 5 refused = 32 0 0 0",
        ],
    );
    Ok(())
}

/// Revokes the second VM's slot 7, deletes in vain its empty slot 9, and deletes slot 7.
fn revoking_file() -> &'static str {
    "c6008000\nc6008212 6 7\nc6008211 6 9\nc6008211 6 7\n"
}

/// Copies slot 7, and rings by slot 7, by the copy in slot 1, and by slot 7 again.
fn ringing_file() -> &'static str {
    "c6008210 2 7 1\nc6008012 7 1\nc6008012 1 1\nc6008012 7 1\n"
}
