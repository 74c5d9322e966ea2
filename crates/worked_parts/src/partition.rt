//! The units of the worked session of a partition made by calls.

use gh_partition::{Partition, Short};

fn child_uses_its_units() -> bool {
    let mut child = Partition::new(2);
    let answers = [child.take(1), child.take(1), child.take(1)];
    answers == [Ok(()), Ok(()), Err(Short { free: 0 })] && child.units() == (2, 0, 0)
}

fn parent_gives_units() -> bool {
    let mut parent = Partition::new(40);
    let answers = [parent.take(12), parent.give(40), parent.give(2)];
    answers == [Ok(()), Err(Short { free: 28 }), Ok(())] && parent.units() == (12, 26, 2)
}

#[test]
fn units_are_taken_and_given(rt: HostRuntime) {
    assert!(rt; child_uses_its_units() && parent_gives_units());
}
