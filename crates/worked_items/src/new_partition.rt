//! A partition that calls make, configure and activate has room for two objects.

use crate::boots::OWN_EXTENT;
use crate::entries::Entered::{self, Act};
use crate::marks::{Ended, Line};
use crate::names::{
    ACTIVATE, CONFIGURE_PARTITION, CREATE, DOORBELL, EXIT, INDEX, MASTER, OF_CSPACE, OF_PARTITION,
    ONE, PARTITION, RIGHTS, VALID,
};
use crate::row::Fact::{LiesAt, Seat, Units};
use crate::row::Row::{self, Begins, Has, Makes};
use crate::row::Standing::{Acts, Looked, Reads, Rests};
use crate::worked::{Worked, holds};
use gh_base::{CapWord, ObjIndex, Serial};

// The VM's capabilities of the boot's partition and of its capability space.

const OLD: CapWord = CapWord(VALID + OF_PARTITION + RIGHTS);

const OWN: CapWord = CapWord(VALID + OF_CSPACE + INDEX + 15 * RIGHTS);

/// The master capability of the partition that the first entry makes.
const NEW: CapWord = CapWord(VALID + OF_PARTITION + MASTER + 5 * INDEX + 0x101 * RIGHTS + 1);

/// The partition can't be activated before it is configured. The third doorbell finds no unit.
const ROWS: &[Row] = &[
    Begins(ONE, [CREATE, 1, 2, PARTITION], (Reads(0), 0, 0)),
    Makes(ONE, (Looked(1), 0, 0)),
    Makes(ONE, (Reads(1), 0, 0)),
    Makes(ONE, (Looked(2), 0, 0)),
    Makes(ONE, (Reads(2), 0, 0)),
    Makes(ONE, (Acts(2), 0, 0)),
    Makes(ONE, (Rests, 1, 1)),
    Has(LiesAt(Serial(6), ObjIndex(5))),
    Begins(ONE, [ACTIVATE, 3, 0, 0], (Reads(0), 1, 1)),
    Makes(ONE, (Looked(1), 1, 1)),
    Makes(ONE, (Reads(1), 1, 1)),
    Makes(ONE, (Acts(1), 1, 1)),
    Makes(ONE, (Rests, 1, 2)),
    Begins(ONE, [CONFIGURE_PARTITION, 3, 2, 0], (Reads(0), 1, 2)),
    Makes(ONE, (Looked(1), 1, 2)),
    Makes(ONE, (Reads(1), 1, 2)),
    Makes(ONE, (Acts(1), 1, 2)),
    Makes(ONE, (Rests, 2, 3)),
    Begins(ONE, [ACTIVATE, 3, 0, 0], (Reads(0), 2, 3)),
    Makes(ONE, (Looked(1), 2, 3)),
    Makes(ONE, (Reads(1), 2, 3)),
    Makes(ONE, (Acts(1), 2, 3)),
    Makes(ONE, (Rests, 3, 4)),
    Has(Units(Serial(6), (0, 2, 0))),
    Begins(ONE, [CREATE, 3, 2, DOORBELL], (Reads(0), 3, 4)),
    Makes(ONE, (Looked(1), 3, 4)),
    Makes(ONE, (Reads(1), 3, 4)),
    Makes(ONE, (Looked(2), 3, 4)),
    Makes(ONE, (Reads(2), 3, 4)),
    Makes(ONE, (Acts(2), 3, 4)),
    Makes(ONE, (Rests, 4, 5)),
    Has(LiesAt(Serial(7), ObjIndex(128))),
    Begins(ONE, [CREATE, 3, 2, DOORBELL], (Reads(0), 4, 5)),
    Makes(ONE, (Looked(1), 4, 5)),
    Makes(ONE, (Reads(1), 4, 5)),
    Makes(ONE, (Looked(2), 4, 5)),
    Makes(ONE, (Reads(2), 4, 5)),
    Makes(ONE, (Acts(2), 4, 5)),
    Makes(ONE, (Rests, 5, 6)),
    Has(LiesAt(Serial(8), ObjIndex(129))),
    Begins(ONE, [CREATE, 3, 2, DOORBELL], (Reads(0), 5, 6)),
    Makes(ONE, (Looked(1), 5, 6)),
    Makes(ONE, (Reads(1), 5, 6)),
    Makes(ONE, (Looked(2), 5, 6)),
    Makes(ONE, (Reads(2), 5, 6)),
    Makes(ONE, (Acts(2), 5, 6)),
    Makes(ONE, (Rests, 5, 7)),
    Has(Seat(ONE, 5, false)),
    Begins(ONE, [EXIT, 0, 0, 0], (Rests, 6, 8)),
    Has(Units(Serial(1), (12, 26, 2))),
    Has(Units(Serial(6), (2, 0, 0))),
];

const ENTRIES: &[Entered] = &[
    Act(ONE, 1),
    Act(ONE, 3),
    Act(ONE, 4),
    Act(ONE, 5),
    Act(ONE, 6),
    Act(ONE, 8),
];

const LINES: &[Line] = &[
    (
        1,
        Some((1, 0, OLD)),
        Some((2, 0, OWN)),
        Ended::Entry(1),
        [0, 3, 0, 0],
    ),
    (3, Some((3, 1, NEW)), None, Ended::Act(1), [34, 0, 0, 0]),
    (5, Some((3, 1, NEW)), None, Ended::Entry(2), [0; 4]),
    (7, Some((3, 2, NEW)), None, Ended::Entry(3), [0; 4]),
    (
        9,
        Some((3, 3, NEW)),
        Some((2, 3, OWN)),
        Ended::Entry(4),
        [0, 5, 0, 0],
    ),
    (
        11,
        Some((3, 4, NEW)),
        Some((2, 4, OWN)),
        Ended::Entry(5),
        [0, 6, 0, 0],
    ),
    (
        13,
        Some((3, 5, NEW)),
        Some((2, 5, OWN)),
        Ended::Short(5, None),
        [10, 0, 0, 0],
    ),
    (0, None, None, Ended::Entry(6), [0; 4]),
];

#[test]
fn a_new_partition_has_room_for_its_quota(rt: HostRuntime) {
    let worked = Worked {
        boot: OWN_EXTENT,
        rows: ROWS,
        entries: ENTRIES,
        first: LINES,
        second: &[],
    };
    assert!(rt; holds(rt.alloc(), &worked) == Ok(true));
}
