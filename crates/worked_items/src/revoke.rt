//! A capability that is revoked between another VM's look and act still serves that one call.

use crate::boots::SHARED_DOORBELL;
use crate::entries::Entered::{self, Act};
use crate::marks::{Ended, Line};
use crate::names::{
    BELL_SEND, CAP_REVOKE, EXIT, INDEX, OF_BELL, OF_CSPACE, ONE, REVOKED, RIGHTS, TWO, VALID,
};
use crate::row::Fact::{Seat, Units};
use crate::row::Row::{self, Begins, Has, Makes};
use crate::row::Standing::{Acts, Fails, Looked, Reads, Rests};
use crate::worked::{Worked, holds};
use gh_base::{CapWord, Serial};

/// VM 2's capability of the doorbell.
const OPEN: CapWord = CapWord(VALID + OF_BELL + 6 * INDEX + 3 * RIGHTS);

/// The same, revoked by the first entry.
const SHUT: CapWord = CapWord(REVOKED + OF_BELL + 6 * INDEX + 3 * RIGHTS + 1);

/// VM 1's capability of the other's capability space.
const OTHERS: CapWord = CapWord(VALID + OF_CSPACE + 2 * INDEX + 15 * RIGHTS);

/// VM 2 looks, VM 1 revokes what the look found, and VM 2 sends by it. Its next look is refused. An
/// item of a CPU between calls does nothing.
const ROWS: &[Row] = &[
    Has(Units(Serial(1), (19, 21, 0))),
    Begins(TWO, [BELL_SEND, 7, 1, 0], (Reads(0), 0, 0)),
    Makes(TWO, (Looked(1), 0, 0)),
    Begins(ONE, [CAP_REVOKE, 6, 7, 0], (Reads(0), 0, 0)),
    Makes(ONE, (Looked(1), 0, 0)),
    Makes(ONE, (Reads(1), 0, 0)),
    Makes(ONE, (Acts(1), 0, 0)),
    Has(Seat(ONE, 0, false)),
    Makes(ONE, (Rests, 1, 1)),
    Has(Seat(ONE, 1, false)),
    Makes(TWO, (Reads(1), 1, 1)),
    Makes(TWO, (Acts(1), 1, 1)),
    Has(Seat(TWO, 0, false)),
    Makes(TWO, (Rests, 2, 2)),
    Has(Seat(TWO, 2, false)),
    Makes(TWO, (Rests, 2, 2)),
    Begins(ONE, [EXIT, 0, 0, 0], (Rests, 3, 3)),
    Has(Seat(ONE, 3, true)),
    Begins(TWO, [BELL_SEND, 7, 1, 0], (Reads(0), 3, 3)),
    Makes(TWO, (Fails(1), 3, 3)),
    Makes(TWO, (Rests, 3, 4)),
    Has(Seat(TWO, 2, false)),
    Begins(TWO, [EXIT, 0, 0, 0], (Rests, 4, 5)),
    Has(Seat(TWO, 4, true)),
    Makes(TWO, (Rests, 4, 5)),
    Has(Units(Serial(1), (19, 21, 0))),
];

const ENTRIES: &[Entered] = &[Act(ONE, 1), Act(TWO, 1), Act(ONE, 2), Act(TWO, 3)];

const FIRST: &[Line] = &[
    (1, Some((6, 0, OTHERS)), None, Ended::Entry(1), [0; 4]),
    (0, None, None, Ended::Entry(3), [0; 4]),
];

const SECOND: &[Line] = &[
    (1, Some((7, 0, OPEN)), None, Ended::Entry(2), [0; 4]),
    (3, Some((7, 2, SHUT)), None, Ended::Refused, [51, 0, 0, 0]),
    (0, None, None, Ended::Entry(4), [0; 4]),
];

#[test]
fn a_look_serves_its_call_after_a_revoke(rt: HostRuntime) {
    let worked = Worked {
        boot: SHARED_DOORBELL,
        rows: ROWS,
        entries: ENTRIES,
        first: FIRST,
        second: SECOND,
    };
    assert!(rt; holds(rt.alloc(), &worked) == Ok(true));
}
