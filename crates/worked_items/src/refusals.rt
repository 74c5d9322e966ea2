//! Calls of one VM that are refused at the frame, a look and the act, and calls without looks.

use crate::boots::OWN_DOORBELL;
use crate::entries::Entered::{self, Act};
use crate::marks::{Ended, Line};
use crate::names::{
    AS_LOOKUP, BELL_RECEIVE, BELL_SEND, EXIT, IDENTIFY, INDEX, MASTER, MSGQ_FLUSH, OF_BELL, ONE,
    RIGHTS, VALID,
};
use crate::row::Fact::Seat;
use crate::row::Row::{self, Begins, Has, Makes};
use crate::row::Standing::{Acts, Fails, Looked, Reads, Rests};
use crate::worked::{Worked, holds};
use gh_base::CapWord;

/// A function that there isn't.
const UNKNOWN: u64 = 0xc600_9999;

/// A slot that no entry set.
const EMPTY: CapWord = CapWord(0);

/// The doorbell's master capability.
const MASTERS: CapWord = CapWord(VALID + OF_BELL + MASTER + 4 * INDEX + 3 * RIGHTS);

/// The doorbell's capability that only receives.
const RECEIVER: CapWord = CapWord(VALID + OF_BELL + 4 * INDEX + 2 * RIGHTS);

/// A refused frame is one item, and so is a call without looks. A refused look is left at once.
const ROWS: &[Row] = &[
    Begins(ONE, [UNKNOWN, 0, 0, 0], (Rests, 0, 1)),
    Begins(ONE, [BELL_SEND, 1, 0, 0], (Rests, 0, 2)),
    Begins(ONE, [BELL_SEND, 128, 1, 0], (Reads(0), 0, 2)),
    Makes(ONE, (Fails(1), 0, 2)),
    Makes(ONE, (Rests, 0, 3)),
    Begins(ONE, [MSGQ_FLUSH, 7, 0, 0], (Reads(0), 0, 3)),
    Makes(ONE, (Fails(1), 0, 3)),
    Makes(ONE, (Rests, 0, 4)),
    Begins(ONE, [BELL_SEND, 8, 1, 0], (Reads(0), 0, 4)),
    Makes(ONE, (Fails(1), 0, 4)),
    Makes(ONE, (Rests, 0, 5)),
    Has(Seat(ONE, 0, false)),
    Begins(ONE, [IDENTIFY, 0, 0, 0], (Rests, 1, 6)),
    Begins(ONE, [AS_LOOKUP, 0, 0, 0], (Rests, 1, 7)),
    Has(Seat(ONE, 1, false)),
    Begins(ONE, [BELL_SEND, 7, 5, 0], (Reads(0), 1, 7)),
    Makes(ONE, (Looked(1), 1, 7)),
    Makes(ONE, (Reads(1), 1, 7)),
    Makes(ONE, (Acts(1), 1, 7)),
    Makes(ONE, (Rests, 2, 8)),
    Begins(ONE, [BELL_RECEIVE, 7, 4, 0], (Reads(0), 2, 8)),
    Makes(ONE, (Looked(1), 2, 8)),
    Makes(ONE, (Reads(1), 2, 8)),
    Makes(ONE, (Acts(1), 2, 8)),
    Makes(ONE, (Rests, 3, 9)),
    Begins(ONE, [EXIT, 0, 0, 0], (Rests, 4, 10)),
    Has(Seat(ONE, 4, true)),
];

const ENTRIES: &[Entered] = &[Act(ONE, 6), Act(ONE, 8), Act(ONE, 9), Act(ONE, 10)];

const UNIMPLEMENTED: u64 = 0xffff_ffff_ffff_ffff;

const LINES: &[Line] = &[
    (0, None, None, Ended::Frame, [UNIMPLEMENTED, 0, 0, 0]),
    (0, None, None, Ended::Frame, [1, 0, 0, 0]),
    (
        1,
        Some((128, 0, EMPTY)),
        None,
        Ended::Refused,
        [50, 0, 0, 0],
    ),
    (
        3,
        Some((7, 0, MASTERS)),
        None,
        Ended::Refused,
        [52, 0, 0, 0],
    ),
    (
        5,
        Some((8, 0, RECEIVER)),
        None,
        Ended::Refused,
        [53, 0, 0, 0],
    ),
    (0, None, None, Ended::Entry(1), [0x8001, 0x46, 0, 0]),
    (0, None, None, Ended::Act(1), [22, 0, 0, 0]),
    (7, Some((7, 1, MASTERS)), None, Ended::Entry(2), [0; 4]),
    (
        9,
        Some((7, 2, MASTERS)),
        None,
        Ended::Entry(3),
        [0, 5, 0, 0],
    ),
    (0, None, None, Ended::Entry(4), [0; 4]),
];

#[test]
fn refusals_end_calls_at_their_items(rt: HostRuntime) {
    let worked = Worked {
        boot: OWN_DOORBELL,
        rows: ROWS,
        entries: ENTRIES,
        first: LINES,
        second: &[],
    };
    assert!(rt; holds(rt.alloc(), &worked) == Ok(true));
}
