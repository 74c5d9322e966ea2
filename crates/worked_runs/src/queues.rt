//! A message queue of one message of four bytes, made by calls.

use crate::boots::maker;
use crate::run::replies;
use std::test::Fail;

#[test]
fn a_queue_is_made_filled_and_emptied(rt: HostRuntime) -> Result<(), Fail> {
    let alloc = rt.alloc();
    let boot = maker(alloc)?;
    replies(
        &rt,
        alloc,
        boot.as_str(),
        &[
            ("c6008201 1 2 6", "0 3 0 0"),
            ("c6008204 3", "22 0 0 0"),
            ("c6008203 3 1 4", "0 0 0 0"),
            ("c6008204 3", "0 0 0 0"),
            ("c600801b 3 4 0 1 : 01020304", "0 0 0 0"),
            ("c600801b 3 4 0 1 : 01020304", "3d 0 0 0"),
            ("c600801c 3 0 3", "2 0 0 0"),
            ("c600801c 3 0 4", "0 4 0 0 : 01020304"),
            ("c600801b 3 5 0 1 : 0102030405", "2 0 0 0"),
            ("c600801c 3 0 4", "3c 0 0 0"),
            ("c6008222 3", "0 0 0 0"),
            ("c6008204 3", "21 0 0 0"),
        ],
    )?;
    Ok(())
}
