//! A call that waits for its act holds the object that it was granted, and so a create that wants
//! the object's unit.

use crate::boots::FULL_PARTITION;
use crate::entries::Entered::{self, Act, Reclaim, Retire};
use crate::marks::{Ended, Line};
use crate::names::{
    BELL_SEND, CAP_DELETE, CREATE, DOORBELL, EXIT, INDEX, MASTER, OF_BELL, OF_CSPACE, OF_PARTITION,
    ONE, RIGHTS, TWO, VALID,
};
use crate::row::Fact::{Doomed, LiesAt, Retired, Seat, Units};
use crate::row::Row::{self, Begins, Has, Makes};
use crate::row::Standing::{Acts, Looked, Reads, Rests};
use crate::worked::{Worked, holds};
use gh_base::{CapWord, Held, ObjIndex, Serial};

/// VM 2's master capability of the doorbell, which lives in the second partition.
const OPEN: CapWord = CapWord(VALID + OF_BELL + MASTER + 129 * INDEX + 3 * RIGHTS);

// VM 1's capabilities, of the second partition and of both capability spaces.

const PARTITIONS: CapWord = CapWord(VALID + OF_PARTITION + 128 * INDEX + RIGHTS);

const OWN: CapWord = CapWord(VALID + OF_CSPACE + INDEX + 15 * RIGHTS);

const OTHERS: CapWord = CapWord(VALID + OF_CSPACE + 2 * INDEX + 15 * RIGHTS);

/// The counters of the doorbell's retirement and of its reclaim: nobody reads.
const SEEN: [u64; 9] = [0, 6, 2, 0, 0, 0, 0, 0, 0];

/// VM 2 pins the doorbell, VM 1 deletes its capability, and VM 1's create falls short. VM 2's act
/// is refused, as nothing refers to the doorbell. VM 1's next create retires and reclaims it.
const ROWS: &[Row] = &[
    Begins(TWO, [BELL_SEND, 7, 1, 0], (Reads(0), 0, 0)),
    Makes(TWO, (Looked(1), 0, 0)),
    Makes(TWO, (Reads(1), 0, 0)),
    Begins(ONE, [CAP_DELETE, 6, 7, 0], (Reads(0), 0, 0)),
    Makes(ONE, (Looked(1), 0, 0)),
    Makes(ONE, (Reads(1), 0, 0)),
    Makes(ONE, (Acts(1), 0, 0)),
    Makes(ONE, (Rests, 1, 1)),
    Has(Doomed(Serial(8))),
    Begins(ONE, [CREATE, 1, 2, DOORBELL], (Reads(0), 1, 1)),
    Makes(ONE, (Looked(1), 1, 1)),
    Makes(ONE, (Reads(1), 1, 1)),
    Makes(ONE, (Looked(2), 1, 1)),
    Makes(ONE, (Reads(2), 1, 1)),
    Makes(ONE, (Acts(2), 1, 1)),
    Makes(ONE, (Rests, 1, 2)),
    Has(Retired(Serial(8), None)),
    Has(Seat(ONE, 1, false)),
    Makes(TWO, (Acts(1), 1, 2)),
    Makes(TWO, (Rests, 1, 3)),
    Has(Seat(TWO, 1, false)),
    Begins(ONE, [CREATE, 1, 2, DOORBELL], (Reads(0), 1, 3)),
    Makes(ONE, (Looked(1), 1, 3)),
    Makes(ONE, (Reads(1), 1, 3)),
    Makes(ONE, (Looked(2), 1, 3)),
    Makes(ONE, (Reads(2), 1, 3)),
    Makes(ONE, (Acts(2), 1, 3)),
    Makes(ONE, (Rests, 4, 4)),
    Has(LiesAt(Serial(9), ObjIndex(129))),
    Begins(ONE, [EXIT, 0, 0, 0], (Rests, 5, 5)),
    Begins(TWO, [EXIT, 0, 0, 0], (Rests, 6, 6)),
    Has(Units(Serial(1), (18, 22, 0))),
    Has(Units(Serial(2), (2, 0, 0))),
];

const ENTRIES: &[Entered] = &[
    Act(ONE, 1),
    Retire(Serial(8), SEEN),
    Reclaim(Serial(8), SEEN),
    Act(ONE, 3),
    Act(ONE, 4),
    Act(TWO, 2),
];

const PINNED: Held = Held::Pins {
    serial: Serial(8),
    pins: 1,
};

const FIRST: &[Line] = &[
    (1, Some((6, 0, OTHERS)), None, Ended::Entry(1), [0; 4]),
    (
        3,
        Some((1, 1, PARTITIONS)),
        Some((2, 1, OWN)),
        Ended::Short(1, Some(PINNED)),
        [10, 0, 0, 0],
    ),
    (
        5,
        Some((1, 1, PARTITIONS)),
        Some((2, 1, OWN)),
        Ended::Entry(4),
        [0, 3, 0, 0],
    ),
    (0, None, None, Ended::Entry(5), [0; 4]),
];

const SECOND: &[Line] = &[
    (1, Some((7, 0, OPEN)), None, Ended::Act(1), [51, 0, 0, 0]),
    (0, None, None, Ended::Entry(6), [0; 4]),
];

#[test]
fn a_pin_holds_up_a_create(rt: HostRuntime) {
    let worked = Worked {
        boot: FULL_PARTITION,
        rows: ROWS,
        entries: ENTRIES,
        first: FIRST,
        second: SECOND,
    };
    assert!(rt; holds(rt.alloc(), &worked) == Ok(true));
}
