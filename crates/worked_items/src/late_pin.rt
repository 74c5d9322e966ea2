//! The last capability of an object goes between another VM's look and pin, and a sweep retires the
//! object: the pin comes too late.

use crate::boots::OTHERS_DOORBELL;
use crate::entries::Entered::{self, Act, Retire};
use crate::marks::{Ended, Line};
use crate::names::{
    BELL_SEND, CAP_DELETE, CREATE, DOORBELL, EXIT, INDEX, MASTER, OF_BELL, OF_CSPACE, OF_PARTITION,
    ONE, RIGHTS, TWO, VALID,
};
use crate::row::Fact::{Doomed, LiesAt, Retired, Seat, Units};
use crate::row::Row::{self, Begins, Has, Makes};
use crate::row::Standing::{Acts, Looked, Reads, Rests, TooLate, Undid};
use crate::worked::{Worked, holds};
use gh_base::{CapWord, ObjIndex, Serial};

/// VM 2's master capability of the doorbell.
const OPEN: CapWord = CapWord(VALID + OF_BELL + MASTER + 6 * INDEX + 3 * RIGHTS);

// VM 1's capabilities, of the partition and of both capability spaces.

const PARTITIONS: CapWord = CapWord(VALID + OF_PARTITION + RIGHTS);

const OWN: CapWord = CapWord(VALID + OF_CSPACE + INDEX + 15 * RIGHTS);

const OTHERS: CapWord = CapWord(VALID + OF_CSPACE + 2 * INDEX + 15 * RIGHTS);

/// The counters of the doorbell's retirement: VM 2 is in its first section.
const SEEN: [u64; 9] = [0, 4, 1, 0, 0, 0, 0, 0, 0];

/// VM 2 looks, VM 1 deletes what the look found, and its create retires the doorbell. VM 2 pins it
/// too late.
const ROWS: &[Row] = &[
    Has(LiesAt(Serial(7), ObjIndex(6))),
    Begins(TWO, [BELL_SEND, 7, 1, 0], (Reads(0), 0, 0)),
    Makes(TWO, (Looked(1), 0, 0)),
    Begins(ONE, [CAP_DELETE, 6, 7, 0], (Reads(0), 0, 0)),
    Makes(ONE, (Looked(1), 0, 0)),
    Makes(ONE, (Reads(1), 0, 0)),
    Makes(ONE, (Acts(1), 0, 0)),
    Makes(ONE, (Rests, 1, 1)),
    Has(Doomed(Serial(7))),
    Has(Retired(Serial(7), None)),
    Begins(ONE, [CREATE, 1, 2, DOORBELL], (Reads(0), 1, 1)),
    Makes(ONE, (Looked(1), 1, 1)),
    Makes(ONE, (Reads(1), 1, 1)),
    Makes(ONE, (Looked(2), 1, 1)),
    Makes(ONE, (Reads(2), 1, 1)),
    Makes(ONE, (Acts(2), 1, 1)),
    Has(Retired(Serial(7), None)),
    Makes(ONE, (Rests, 3, 2)),
    Has(Retired(Serial(7), Some(SEEN))),
    Has(LiesAt(Serial(8), ObjIndex(7))),
    Makes(TWO, (TooLate(1), 3, 2)),
    Makes(TWO, (Undid(1), 3, 2)),
    Makes(TWO, (Rests, 3, 3)),
    Has(Seat(TWO, 0, false)),
    Begins(ONE, [EXIT, 0, 0, 0], (Rests, 4, 4)),
    Begins(TWO, [EXIT, 0, 0, 0], (Rests, 5, 5)),
    Has(Retired(Serial(7), Some(SEEN))),
    Has(Units(Serial(1), (20, 20, 0))),
];

const ENTRIES: &[Entered] = &[
    Act(ONE, 1),
    Retire(Serial(7), SEEN),
    Act(ONE, 2),
    Act(ONE, 3),
    Act(TWO, 2),
];

const FIRST: &[Line] = &[
    (1, Some((6, 0, OTHERS)), None, Ended::Entry(1), [0; 4]),
    (
        3,
        Some((1, 1, PARTITIONS)),
        Some((2, 1, OWN)),
        Ended::Entry(3),
        [0, 3, 0, 0],
    ),
    (0, None, None, Ended::Entry(4), [0; 4]),
];

const SECOND: &[Line] = &[
    (1, Some((7, 0, OPEN)), None, Ended::Dead, [51, 0, 0, 0]),
    (0, None, None, Ended::Entry(5), [0; 4]),
];

#[test]
fn a_pin_on_a_retired_object_is_too_late(rt: HostRuntime) {
    let worked = Worked {
        boot: OTHERS_DOORBELL,
        rows: ROWS,
        entries: ENTRIES,
        first: FIRST,
        second: SECOND,
    };
    assert!(rt; holds(rt.alloc(), &worked) == Ok(true));
}
