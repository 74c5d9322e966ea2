//! A VM copies its capability of a doorbell, and the doorbell's other capabilities are revoked,
//! part by part, between the looks and the act of its next copy.

use crate::boots::SHARED_DOORBELL;
use crate::entries::Entered::{self, Act, Part};
use crate::marks::{Ended, Line};
use crate::names::{
    BELL_SEND, CAP_COPY, CAP_DELETE, CAPS_REVOKE, EXIT, INDEX, MASTER, OF_BELL, OF_CSPACE, ONE,
    REVOKED, RIGHTS, TWO, VALID,
};
use crate::row::Fact::Seat;
use crate::row::Row::{self, Begins, Has, Makes};
use crate::row::Standing::{Acts, Fails, Looked, Reads, Rests};
use crate::worked::{Worked, holds};
use gh_base::{CapWord, Serial};

/// VM 1's master capability of the doorbell.
const MASTERS: CapWord = CapWord(VALID + OF_BELL + MASTER + 6 * INDEX + 3 * RIGHTS);

/// VM 2's capability of the doorbell.
const OPEN: CapWord = CapWord(VALID + OF_BELL + 6 * INDEX + 3 * RIGHTS);

/// Its copy with the first right alone, revoked by the second entry.
const SHUT_COPY: CapWord = CapWord(REVOKED + OF_BELL + 6 * INDEX + RIGHTS + 2);

/// VM 1's and VM 2's capability of the second capability space.
const SECOND_CSPACE: CapWord = CapWord(VALID + OF_CSPACE + 2 * INDEX + 15 * RIGHTS);

/// VM 2 copies, and looks for another copy. VM 1 revokes the doorbell's capabilities, which makes a
/// part of each, and finds none at the next time. VM 2's copy is refused, and so is its look. A
/// deleted slot can't be deleted again.
const ROWS: &[Row] = &[
    Begins(TWO, [CAP_COPY, 2, 7, 1], (Reads(0), 0, 0)),
    Makes(TWO, (Looked(1), 0, 0)),
    Makes(TWO, (Reads(1), 0, 0)),
    Makes(TWO, (Looked(2), 0, 0)),
    Makes(TWO, (Reads(2), 0, 0)),
    Makes(TWO, (Acts(2), 0, 0)),
    Makes(TWO, (Rests, 1, 1)),
    Begins(TWO, [CAP_COPY, 2, 7, 1], (Reads(0), 1, 1)),
    Makes(TWO, (Looked(1), 1, 1)),
    Makes(TWO, (Reads(1), 1, 1)),
    Makes(TWO, (Looked(2), 1, 1)),
    Makes(TWO, (Reads(2), 1, 1)),
    Begins(ONE, [CAPS_REVOKE, 1, 0, 0], (Reads(0), 1, 1)),
    Makes(ONE, (Looked(1), 1, 1)),
    Makes(ONE, (Reads(1), 1, 1)),
    Makes(ONE, (Acts(1), 1, 1)),
    Makes(ONE, (Rests, 4, 2)),
    Begins(ONE, [CAPS_REVOKE, 1, 0, 0], (Reads(0), 4, 2)),
    Makes(ONE, (Looked(1), 4, 2)),
    Makes(ONE, (Reads(1), 4, 2)),
    Makes(ONE, (Acts(1), 4, 2)),
    Makes(ONE, (Rests, 5, 3)),
    Makes(TWO, (Acts(2), 5, 3)),
    Makes(TWO, (Rests, 5, 4)),
    Has(Seat(TWO, 5, false)),
    Begins(TWO, [BELL_SEND, 1, 1, 0], (Reads(0), 5, 4)),
    Makes(TWO, (Fails(1), 5, 4)),
    Makes(TWO, (Rests, 5, 5)),
    Begins(ONE, [CAP_DELETE, 6, 1, 0], (Reads(0), 5, 5)),
    Makes(ONE, (Looked(1), 5, 5)),
    Makes(ONE, (Reads(1), 5, 5)),
    Makes(ONE, (Acts(1), 5, 5)),
    Makes(ONE, (Rests, 6, 6)),
    Begins(ONE, [CAP_DELETE, 6, 1, 0], (Reads(0), 6, 6)),
    Makes(ONE, (Looked(1), 6, 6)),
    Makes(ONE, (Reads(1), 6, 6)),
    Makes(ONE, (Acts(1), 6, 6)),
    Makes(ONE, (Rests, 6, 7)),
    Begins(ONE, [EXIT, 0, 0, 0], (Rests, 7, 8)),
    Begins(TWO, [EXIT, 0, 0, 0], (Rests, 8, 9)),
];

const ENTRIES: &[Entered] = &[
    Act(TWO, 1),
    Part(ONE, 1, Serial(3), 1),
    Part(ONE, 1, Serial(3), 7),
    Act(ONE, 1),
    Act(ONE, 2),
    Act(ONE, 3),
    Act(ONE, 5),
    Act(TWO, 4),
];

const RETRY: u64 = 0xffff_ffff_ffff_fffe;

const FIRST: &[Line] = &[
    (
        1,
        Some((1, 0, MASTERS)),
        None,
        Ended::Entry(4),
        [0, 2, 0, 0],
    ),
    (3, Some((1, 4, MASTERS)), None, Ended::Entry(5), [0; 4]),
    (
        5,
        Some((6, 5, SECOND_CSPACE)),
        None,
        Ended::Entry(6),
        [0; 4],
    ),
    (
        7,
        Some((6, 6, SECOND_CSPACE)),
        None,
        Ended::Act(6),
        [50, 0, 0, 0],
    ),
    (0, None, None, Ended::Entry(7), [0; 4]),
];

const SECOND: &[Line] = &[
    (
        1,
        Some((2, 0, SECOND_CSPACE)),
        Some((7, 0, OPEN)),
        Ended::Entry(1),
        [0, 1, 0, 0],
    ),
    (
        3,
        Some((2, 1, SECOND_CSPACE)),
        Some((7, 1, OPEN)),
        Ended::Act(5),
        [RETRY, 0, 0, 0],
    ),
    (
        5,
        Some((1, 5, SHUT_COPY)),
        None,
        Ended::Refused,
        [51, 0, 0, 0],
    ),
    (0, None, None, Ended::Entry(8), [0; 4]),
];

#[test]
fn a_revoke_of_all_capabilities_makes_a_copy_try_again(rt: HostRuntime) {
    let worked = Worked {
        boot: SHARED_DOORBELL,
        rows: ROWS,
        entries: ENTRIES,
        first: FIRST,
        second: SECOND,
    };
    assert!(rt; holds(rt.alloc(), &worked) == Ok(true));
}
