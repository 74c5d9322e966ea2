//! A revoke of all capabilities of an object, by its parts.

use crate::boots::three_copies;
use crate::session::{answer, answers, boot, parts};
use std::test::Fail;

#[test]
fn a_revoke_of_all_asks_for_its_parts(rt: HostRuntime) -> Result<(), Fail> {
    let alloc = rt.alloc();
    let text = three_copies(alloc)?;
    let mut plain = boot(alloc, text.as_str())?;
    let early = answer(alloc, &mut plain, 1, "c6008213 1")?;
    assert_eq!(rt; early.as_str(), "0 0 0 0");
    assert_eq!(rt; plain.entries(), 0);
    Ok(())
}

#[test]
fn a_revoke_of_all_takes_each_copy_in_a_part(rt: HostRuntime) -> Result<(), Fail> {
    let alloc = rt.alloc();
    let text = three_copies(alloc)?;
    let mut plain = boot(alloc, text.as_str())?;
    parts(
        &mut plain,
        &[
            (2, 1, false),
            (3, 1, true),
            (3, 1, false),
            (3, 2, true),
            (3, 4, false),
            (3, 3, true),
        ],
    )?;
    answers(
        &rt,
        alloc,
        &mut plain,
        &[
            (1, "c6008213 1", "0 3 0 0"),
            (2, "c6008012 1 1", "33 0 0 0"),
            (2, "c6008012 3 1", "33 0 0 0"),
            (1, "c6008012 1 1", "0 0 0 0"),
        ],
    )
}
