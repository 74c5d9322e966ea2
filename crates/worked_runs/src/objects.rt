//! Objects: a partition made by calls, its units, and a capability space without a free slot.

use crate::boots::{full, maker};
use crate::run::{replies, tells};
use std::test::Fail;

#[test]
fn a_made_partition_gives_its_two_units(rt: HostRuntime) -> Result<(), Fail> {
    let alloc = rt.alloc();
    let boot = maker(alloc)?;
    let text = replies(
        &rt,
        alloc,
        boot.as_str(),
        &[
            ("c6008201 1 2 1", "0 3 0 0"),
            ("c6008204 3", "22 0 0 0"),
            ("c6008202 3 2", "0 0 0 0"),
            ("c6008204 3", "0 0 0 0"),
            ("c6008201 3 2 5", "0 5 0 0"),
            ("c6008201 3 2 5", "0 6 0 0"),
            ("c6008201 3 2 5", "a 0 0 0"),
        ],
    )?;
    tells(
        &rt,
        text.as_str(),
        &[
            "call 1 7 13 look 3 5 look 2 5 short 5 = a 0 0 0",
            "units 1 12 26 2",
            "units 6 2 0 0",
            "access 3 0 8 0 7",
        ],
    );
    Ok(())
}

#[test]
fn a_quota_above_the_free_units_is_short(rt: HostRuntime) -> Result<(), Fail> {
    let alloc = rt.alloc();
    let boot = maker(alloc)?;
    replies(
        &rt,
        alloc,
        boot.as_str(),
        &[
            ("c6008201 1 2 1", "0 3 0 0"),
            ("c6008204 3", "22 0 0 0"),
            ("c6008202 3 28", "a 0 0 0"),
        ],
    )?;
    Ok(())
}

#[test]
fn a_full_capability_space_takes_no_new_object(rt: HostRuntime) -> Result<(), Fail> {
    let alloc = rt.alloc();
    let boot = full(alloc)?;
    let text = replies(
        &rt,
        alloc,
        boot.as_str(),
        &[
            ("c6008201 1 2 5", "36 0 0 0"),
            ("c6008012 80 1", "32 0 0 0"),
        ],
    )?;
    tells(
        &rt,
        text.as_str(),
        &[
            "call 1 1 1 look 1 0 look 2 0 act 0 = 36 0 0 0",
            "call 1 2 3 look 128 0 refused = 32 0 0 0",
        ],
    );
    Ok(())
}
