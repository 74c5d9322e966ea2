//! Doorbells: flags that are sent and received, masks, and what refuses a send.

use crate::boots::doorbell;
use crate::run::{replies, tells};
use std::test::Fail;

#[test]
fn flags_are_sent_and_received(rt: HostRuntime) -> Result<(), Fail> {
    let alloc = rt.alloc();
    let boot = doorbell(alloc)?;
    replies(
        &rt,
        alloc,
        boot.as_str(),
        &[
            ("c6008012 7 5", "0 0 0 0"),
            ("c6008015 7 1 0", "0 0 0 0"),
            ("c6008220 7 4", "0 5 0 0"),
            ("c6008220 7 0", "0 1 0 0"),
            ("c6008221 7", "0 0 0 0"),
            ("c6008220 7 0", "0 0 0 0"),
        ],
    )?;
    Ok(())
}

#[test]
fn the_low_bits_name_the_function(rt: HostRuntime) -> Result<(), Fail> {
    let alloc = rt.alloc();
    let boot = doorbell(alloc)?;
    let text = replies(
        &rt,
        alloc,
        boot.as_str(),
        &[
            ("c6009999", "ffffffffffffffff 0 0 0"),
            ("c6008065 7", "ffffffffffffffff 0 0 0"),
            ("1c6008000", "8001 46 0 0"),
        ],
    )?;
    tells(
        &rt,
        text.as_str(),
        &["call 1 1 0 frame = ffffffffffffffff 0 0 0"],
    );
    Ok(())
}

#[test]
fn frames_and_looks_refuse(rt: HostRuntime) -> Result<(), Fail> {
    let alloc = rt.alloc();
    let boot = doorbell(alloc)?;
    let text = replies(
        &rt,
        alloc,
        boot.as_str(),
        &[
            ("c6008012 1 0", "1 0 0 0"),
            ("c6008012 7 1 9", "1 0 0 0"),
            ("c6008012 1 1", "32 0 0 0"),
            ("c6008012 0 1", "32 0 0 0"),
            ("c600801b 7 1 0 0 : 00", "34 0 0 0"),
            ("c6008012 8 1", "35 0 0 0"),
            ("c600802b 0 7 800 77", "3 0 0 0"),
            ("c600801b 7 2 0 0 : 00", "2 0 0 0"),
            ("c6008061 3 1 2 0 1000", "1 0 0 0"),
        ],
    )?;
    tells(
        &rt,
        text.as_str(),
        &[
            "history 1",
            "call 1 1 0 frame = 1 0 0 0",
            "call 1 4 3 look 0 0 refused = 32 0 0 0",
            "call 1 10 0 entry 1 = 0 0 0 0",
        ],
    );
    Ok(())
}
