//! A capability that is revoked between another VM's look and act still serves that one call.

use crate::atomic_step::AtomicStep::{
    Commit, End, Enter, Leave, Look, Pin, Quit, Set, Settle, Take, Unpin,
};
use crate::atomic_step::Entered::{self, Act};
use crate::boots::SHARED_DOORBELL;
use crate::exits::BOTH_EXIT;
use crate::marks::{Ended, Line};
use crate::names::{
    BELL_SEND, CAP_REVOKE, FIRST_CSPACE, INDEX, OF_BELL, OF_CSPACE, ONE, REVOKED, RIGHTS,
    SECOND_CSPACE, TWO, VALID,
};
use crate::walk::Fact::{Counts, Shows};
use crate::walk::Row::{self, Gives, Has, Makes, Refuses};
use crate::walk::{Worked, holds};
use gh_base::{CapWord, ObjIndex};

const BELL: ObjIndex = ObjIndex(6);

/// VM 2's capability of the doorbell.
const OPEN: CapWord = CapWord(VALID + OF_BELL + 6 * INDEX + 3 * RIGHTS);

/// The same, revoked by the first entry.
const SHUT: CapWord = CapWord(REVOKED + OF_BELL + 6 * INDEX + 3 * RIGHTS + 1);

/// VM 1's capability of the other's capability space.
const OTHERS: CapWord = CapWord(VALID + OF_CSPACE + 2 * INDEX + 15 * RIGHTS);

/// VM 2 looks, and then VM 1 revokes what the look found.
const LOOK_AND_REVOKE: &[Row] = &[
    Has(Counts(BELL, 2)),
    Has(Shows(SECOND_CSPACE, 7, OPEN)),
    Refuses(Enter(TWO)),
    Gives(TWO, 1, [BELL_SEND, 7, 1, 0]),
    Refuses(Take(TWO)),
    Makes(Enter(TWO)),
    Refuses(Look(TWO, 6)),
    Makes(Look(TWO, 7)),
    Refuses(Leave(TWO)),
    Gives(ONE, 1, [CAP_REVOKE, 6, 7, 0]),
    Makes(Enter(ONE)),
    Makes(Look(ONE, 6)),
    Refuses(Pin(ONE, BELL)),
    Makes(Pin(ONE, SECOND_CSPACE)),
    Makes(Leave(ONE)),
    Makes(Take(ONE)),
    Refuses(Commit(ONE, Act(ONE, 1))),
    Refuses(Set(ONE, Act(ONE, 1), SECOND_CSPACE, 6, SHUT)),
    Refuses(Set(ONE, Act(ONE, 1), FIRST_CSPACE, 7, SHUT)),
    Refuses(Set(TWO, Act(ONE, 1), SECOND_CSPACE, 7, SHUT)),
    Refuses(Set(ONE, Act(TWO, 1), SECOND_CSPACE, 7, SHUT)),
    Refuses(Set(ONE, Act(ONE, 1), SECOND_CSPACE, 7, CapWord(SHUT.0 + 1))),
    Refuses(End(ONE)),
    Makes(Set(ONE, Act(ONE, 1), SECOND_CSPACE, 7, SHUT)),
    Has(Shows(SECOND_CSPACE, 7, SHUT)),
    Has(Counts(BELL, 2)),
    Refuses(End(ONE)),
    Makes(Settle(ONE, BELL)),
    Refuses(Settle(ONE, BELL)),
    Refuses(Quit(ONE)),
    Refuses(Unpin(ONE, SECOND_CSPACE)),
    Makes(End(ONE)),
    Makes(Unpin(ONE, SECOND_CSPACE)),
    Has(Counts(BELL, 1)),
];

/// VM 2 sends by what its look found, and is refused at its next look.
const SEND_AND_REFUSAL: &[Row] = &[
    Makes(Pin(TWO, BELL)),
    Has(Counts(BELL, 2)),
    Makes(Leave(TWO)),
    Makes(Take(TWO)),
    Makes(Commit(TWO, Act(TWO, 1))),
    Makes(End(TWO)),
    Makes(Unpin(TWO, BELL)),
    Refuses(Unpin(TWO, BELL)),
    Gives(TWO, 2, [BELL_SEND, 7, 1, 0]),
    Makes(Enter(TWO)),
    Makes(Look(TWO, 7)),
    Refuses(Pin(TWO, BELL)),
    Refuses(Take(TWO)),
    Makes(Leave(TWO)),
    Refuses(Take(TWO)),
    Has(Shows(SECOND_CSPACE, 7, SHUT)),
    Has(Counts(BELL, 1)),
    Has(Counts(FIRST_CSPACE, 3)),
    Has(Counts(SECOND_CSPACE, 5)),
];

const ENTRIES: &[Entered] = &[Act(ONE, 1), Act(TWO, 1), Act(ONE, 2), Act(TWO, 3)];

const FIRST: &[Line] = &[
    (1, Some((6, 0, OTHERS)), None, Ended::Entry(1), [0; 4]),
    (0, None, None, Ended::Entry(3), [0; 4]),
];

const SECOND: &[Line] = &[
    (1, Some((7, 0, OPEN)), None, Ended::Entry(2), [0; 4]),
    (3, Some((7, 2, SHUT)), None, Ended::Refused, [51, 0, 0, 0]),
    (0, None, None, Ended::Entry(4), [0; 4]),
];

#[test]
fn a_look_serves_its_call_after_a_revoke(rt: HostRuntime) {
    let worked = Worked {
        boot: SHARED_DOORBELL,
        begin: LOOK_AND_REVOKE,
        rest: SEND_AND_REFUSAL,
        exits: BOTH_EXIT,
        entries: ENTRIES,
        first: FIRST,
        second: SECOND,
    };
    assert!(rt; holds(rt.alloc(), &worked) == Ok(true));
}
