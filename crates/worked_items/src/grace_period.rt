//! A VM that reads holds up the reclaim of an object, and so a create that wants its unit.

use crate::boots::FULL_PARTITION;
use crate::entries::Entered::{self, Act, Reclaim, Retire};
use crate::marks::{Ended, Line};
use crate::names::{
    BELL_SEND, CAP_DELETE, CREATE, DOORBELL, EXIT, INDEX, MASTER, OF_BELL, OF_CSPACE, OF_PARTITION,
    ONE, RIGHTS, TWO, VALID,
};
use crate::row::Fact::{Doomed, LiesAt, Retired, Units};
use crate::row::Row::{self, Begins, Has, Makes};
use crate::row::Standing::{Acts, Looked, Reads, Rests, TooLate, Undid};
use crate::worked::{Worked, holds};
use gh_base::{CapWord, Held, ObjIndex, Serial};

/// VM 2's master capability of the doorbell, which lives in the second partition.
const OPEN: CapWord = CapWord(VALID + OF_BELL + MASTER + 129 * INDEX + 3 * RIGHTS);

// VM 1's capabilities, of the second partition and of both capability spaces.

const PARTITIONS: CapWord = CapWord(VALID + OF_PARTITION + 128 * INDEX + RIGHTS);

const OWN: CapWord = CapWord(VALID + OF_CSPACE + INDEX + 15 * RIGHTS);

const OTHERS: CapWord = CapWord(VALID + OF_CSPACE + 2 * INDEX + 15 * RIGHTS);

/// The counters of the doorbell's retirement: VM 2 is in its first section.
const SEEN: [u64; 9] = [0, 4, 1, 0, 0, 0, 0, 0, 0];

/// VM 2 looks, VM 1 deletes what the look found, and its create retires the doorbell and falls
/// short. VM 2 leaves, so VM 1's next create reclaims it and makes another at its index.
const ROWS: &[Row] = &[
    Has(LiesAt(Serial(8), ObjIndex(129))),
    Begins(TWO, [BELL_SEND, 7, 1, 0], (Reads(0), 0, 0)),
    Makes(TWO, (Looked(1), 0, 0)),
    Begins(ONE, [CAP_DELETE, 6, 7, 0], (Reads(0), 0, 0)),
    Makes(ONE, (Looked(1), 0, 0)),
    Makes(ONE, (Reads(1), 0, 0)),
    Makes(ONE, (Acts(1), 0, 0)),
    Makes(ONE, (Rests, 1, 1)),
    Has(Doomed(Serial(8))),
    Begins(ONE, [CREATE, 1, 2, DOORBELL], (Reads(0), 1, 1)),
    Makes(ONE, (Looked(1), 1, 1)),
    Makes(ONE, (Reads(1), 1, 1)),
    Makes(ONE, (Looked(2), 1, 1)),
    Makes(ONE, (Reads(2), 1, 1)),
    Makes(ONE, (Acts(2), 1, 1)),
    Makes(ONE, (Rests, 2, 2)),
    Has(Retired(Serial(8), Some(SEEN))),
    Has(Units(Serial(2), (2, 0, 0))),
    Makes(TWO, (TooLate(1), 2, 2)),
    Makes(TWO, (Undid(1), 2, 2)),
    Makes(TWO, (Rests, 2, 3)),
    Begins(ONE, [CREATE, 1, 2, DOORBELL], (Reads(0), 2, 3)),
    Makes(ONE, (Looked(1), 2, 3)),
    Makes(ONE, (Reads(1), 2, 3)),
    Makes(ONE, (Looked(2), 2, 3)),
    Makes(ONE, (Reads(2), 2, 3)),
    Makes(ONE, (Acts(2), 2, 3)),
    Makes(ONE, (Rests, 4, 4)),
    Has(Retired(Serial(8), None)),
    Has(LiesAt(Serial(9), ObjIndex(129))),
    Begins(ONE, [EXIT, 0, 0, 0], (Rests, 5, 5)),
    Begins(TWO, [EXIT, 0, 0, 0], (Rests, 6, 6)),
    Has(Units(Serial(1), (18, 22, 0))),
    Has(Units(Serial(2), (2, 0, 0))),
];

const ENTRIES: &[Entered] = &[
    Act(ONE, 1),
    Retire(Serial(8), SEEN),
    Reclaim(Serial(8), [0, 6, 2, 0, 0, 0, 0, 0, 0]),
    Act(ONE, 3),
    Act(ONE, 4),
    Act(TWO, 2),
];

const READING: Held = Held::Reading {
    serial: Serial(8),
    cpu: TWO,
    counter: 1,
};

const FIRST: &[Line] = &[
    (1, Some((6, 0, OTHERS)), None, Ended::Entry(1), [0; 4]),
    (
        3,
        Some((1, 1, PARTITIONS)),
        Some((2, 1, OWN)),
        Ended::Short(2, Some(READING)),
        [10, 0, 0, 0],
    ),
    (
        5,
        Some((1, 2, PARTITIONS)),
        Some((2, 2, OWN)),
        Ended::Entry(4),
        [0, 3, 0, 0],
    ),
    (0, None, None, Ended::Entry(5), [0; 4]),
];

const SECOND: &[Line] = &[
    (1, Some((7, 0, OPEN)), None, Ended::Dead, [51, 0, 0, 0]),
    (0, None, None, Ended::Entry(6), [0; 4]),
];

#[test]
fn a_reader_holds_up_a_create(rt: HostRuntime) {
    let worked = Worked {
        boot: FULL_PARTITION,
        rows: ROWS,
        entries: ENTRIES,
        first: FIRST,
        second: SECOND,
    };
    assert!(rt; holds(rt.alloc(), &worked) == Ok(true));
}
