//! Memory: mappings at the end of an address space, derived extents, and donations.

use crate::boots::{maker, one_page, siblings};
use crate::run::{history, replies, tells};
use std::test::Fail;

#[test]
fn the_last_page_is_mapped_once(rt: HostRuntime) -> Result<(), Fail> {
    let alloc = rt.alloc();
    let boot = one_page(alloc)?;
    replies(
        &rt,
        alloc,
        boot.as_str(),
        &[
            ("c600802b 0 4 fff000 77", "0 0 0 0"),
            ("c600802b 0 4 1000000 77", "14 0 0 0"),
            ("c6008231 0 fff000", "0 3000 7 0"),
            ("c600802b 0 4 fff000 77", "1f 0 0 0"),
            ("c600802c 0 4 fff000", "0 0 0 0"),
            ("c600802c 0 4 fff000", "16 0 0 0"),
            ("c600802b 0 4 0 77 1 0 2000", "2 0 0 0"),
        ],
    )?;
    Ok(())
}

#[test]
fn a_derived_extent_takes_pages_and_returns_them(rt: HostRuntime) -> Result<(), Fail> {
    let alloc = rt.alloc();
    let boot = maker(alloc)?;
    let text = history(alloc, boot.as_str(), &[derived_file()])?;
    assert_eq!(rt; text.as_str(), derived_text());
    Ok(())
}

fn derived_file() -> &'static str {
    "c6008201 1 2 4\nc6008230 3 4 2000 2000 7\nc6008231 0 2000\nc6008231 0 4000\n\
     c6008211 2 3\nc6008201 1 2 5\nc6008231 0 2000\n"
}

/// The extent without references is retired and reclaimed by the second create.
fn derived_text() -> &'static str {
    "history 9\n1 act 1 1\n2 act 1 2\n3 act 1 4\n4 act 1 5\n\
     5 retire 6 0 8 0 0 0 0 0 0 0\n6 reclaim 6 0 8 0 0 0 0 0 0 0\n\
     7 act 1 6\n8 act 1 7\n9 act 1 8\ncalls 8\n\
     call 1 1 1 look 1 0 look 2 0 entry 1 = 0 3 0 0\n\
     call 1 2 3 look 3 1 look 4 1 entry 2 = 0 0 0 0\n\
     call 1 3 0 act 2 = 16 0 0 0\n\
     call 1 4 0 entry 3 = 0 4000 7 0\n\
     call 1 5 5 look 2 3 entry 4 = 0 0 0 0\n\
     call 1 6 7 look 1 4 look 2 4 entry 7 = 0 3 0 0\n\
     call 1 7 0 entry 8 = 0 2000 7 0\n\
     call 1 8 0 entry 9 = 0 0 0 0\n\
     state\nunits 1 12 28 0\naccess 3 0 8 0 7\nend\n"
}

#[test]
fn a_donation_moves_all_its_pages_or_none(rt: HostRuntime) -> Result<(), Fail> {
    let alloc = rt.alloc();
    let boot = siblings(alloc)?;
    let text = replies(
        &rt,
        alloc,
        boot.as_str(),
        &[
            ("c6008061 2 1 2 0 2000", "0 0 0 0"),
            ("c6008061 2 1 2 1000 3000", "1e 0 0 0"),
            ("c6008061 0 1 2 2000 1000", "1 0 0 0"),
            ("c6008061 2 1 1 2000 1000", "1 0 0 0"),
            ("c6008231 0 0", "16 0 0 0"),
            ("c6008231 0 2000", "0 2000 7 0"),
        ],
    )?;
    tells(&rt, text.as_str(), &["units 1 12 28 0", "access 3 2 2 2 7"]);
    Ok(())
}
