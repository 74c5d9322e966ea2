//! A revoke of all capabilities of a doorbell, part by part, between whose parts another VM looks.

use crate::atomic_step::AtomicStep::{
    Commit, End, Enter, Leave, Look, Pin, Quit, Set, Settle, Take, Unpin,
};
use crate::atomic_step::Entered::{self, Act, Part};
use crate::boots::THREE_COPIES;
use crate::exits::BOTH_EXIT;
use crate::marks::{Ended, Line};
use crate::names::{
    BELL_SEND, CAPS_REVOKE, FIRST_CSPACE, INDEX, MASTER, OF_BELL, ONE, REVOKED, RIGHTS,
    SECOND_CSPACE, TWO, VALID,
};
use crate::walk::Fact::{Counter, Counts, Shows};
use crate::walk::Row::{self, Gives, Has, Makes, Refuses};
use crate::walk::{Worked, holds};
use gh_base::{CapWord, ObjIndex, Serial};

const BELL: ObjIndex = ObjIndex(6);

/// VM 1's master capability of the doorbell.
const MASTERS: CapWord = CapWord(VALID + OF_BELL + MASTER + 6 * INDEX + 3 * RIGHTS);

/// A capability of VM 2 of the doorbell.
const OPEN: CapWord = CapWord(VALID + OF_BELL + 6 * INDEX + 3 * RIGHTS);

// The same, revoked by the entry of this number.

const SHUT_1: CapWord = CapWord(REVOKED + OF_BELL + 6 * INDEX + 3 * RIGHTS + 1);

const SHUT_2: CapWord = CapWord(REVOKED + OF_BELL + 6 * INDEX + 3 * RIGHTS + 2);

const SHUT_3: CapWord = CapWord(REVOKED + OF_BELL + 6 * INDEX + 3 * RIGHTS + 3);

// The parts, by their slots.

const PART_1: Entered = Part(ONE, 1, Serial(3), 1);

const PART_2: Entered = Part(ONE, 1, Serial(3), 2);

const PART_3: Entered = Part(ONE, 1, Serial(3), 3);

/// VM 1 makes one part, at which VM 2's first look is refused.
const FIRST_PART: &[Row] = &[
    Has(Counts(BELL, 4)),
    Gives(ONE, 1, [CAPS_REVOKE, 1, 0, 0]),
    Makes(Enter(ONE)),
    Makes(Look(ONE, 1)),
    Makes(Pin(ONE, BELL)),
    Makes(Leave(ONE)),
    Makes(Take(ONE)),
    Refuses(Commit(ONE, Act(ONE, 1))),
    Refuses(Commit(ONE, PART_1)),
    Refuses(Set(ONE, PART_2, SECOND_CSPACE, 2, SHUT_1)),
    Refuses(Set(ONE, PART_1, SECOND_CSPACE, 1, SHUT_2)),
    Makes(Set(ONE, PART_1, SECOND_CSPACE, 1, SHUT_1)),
    Makes(Settle(ONE, BELL)),
    Has(Counts(BELL, 4)),
    Refuses(Quit(ONE)),
    Gives(TWO, 1, [BELL_SEND, 1, 1, 0]),
    Makes(Enter(TWO)),
    Makes(Look(TWO, 1)),
    Refuses(Pin(TWO, BELL)),
    Makes(Leave(TWO)),
    Gives(TWO, 2, [BELL_SEND, 3, 1, 0]),
    Makes(Enter(TWO)),
];

/// VM 2 looks, VM 1 makes the other parts and its act, and VM 2 sends.
const LOOK_BETWEEN: &[Row] = &[
    Makes(Look(TWO, 3)),
    Makes(Pin(TWO, BELL)),
    Makes(Leave(TWO)),
    Refuses(Take(TWO)),
    Refuses(Commit(ONE, Act(ONE, 1))),
    Refuses(End(ONE)),
    Refuses(Set(ONE, PART_3, SECOND_CSPACE, 3, SHUT_2)),
    Makes(Set(ONE, PART_2, SECOND_CSPACE, 2, SHUT_2)),
    Makes(Settle(ONE, BELL)),
    Makes(Set(ONE, PART_3, SECOND_CSPACE, 3, SHUT_3)),
    Makes(Settle(ONE, BELL)),
    Refuses(End(ONE)),
    Makes(Commit(ONE, Act(ONE, 1))),
    Refuses(Commit(ONE, Act(ONE, 1))),
    Makes(End(ONE)),
    Makes(Unpin(ONE, BELL)),
    Has(Counts(BELL, 2)),
    Makes(Take(TWO)),
    Makes(Commit(TWO, Act(TWO, 2))),
    Makes(End(TWO)),
    Makes(Unpin(TWO, BELL)),
    Has(Shows(FIRST_CSPACE, 1, MASTERS)),
    Has(Shows(SECOND_CSPACE, 1, SHUT_1)),
    Has(Shows(SECOND_CSPACE, 2, SHUT_2)),
    Has(Shows(SECOND_CSPACE, 3, SHUT_3)),
    Has(Counts(BELL, 1)),
    Has(Counts(FIRST_CSPACE, 2)),
    Has(Counts(SECOND_CSPACE, 4)),
];

const ENTRIES: &[Entered] = &[
    PART_1,
    PART_2,
    PART_3,
    Act(ONE, 1),
    Act(TWO, 2),
    Act(ONE, 2),
    Act(TWO, 3),
];

const FIRST: &[Line] = &[
    (
        1,
        Some((1, 0, MASTERS)),
        None,
        Ended::Entry(4),
        [0, 3, 0, 0],
    ),
    (0, None, None, Ended::Entry(6), [0; 4]),
];

const SECOND: &[Line] = &[
    (1, Some((1, 1, SHUT_1)), None, Ended::Refused, [51, 0, 0, 0]),
    (3, Some((3, 1, OPEN)), None, Ended::Entry(5), [0; 4]),
    (0, None, None, Ended::Entry(7), [0; 4]),
];

#[test]
fn a_look_between_two_parts_is_granted(rt: HostRuntime) {
    let worked = Worked {
        boot: THREE_COPIES,
        begin: FIRST_PART,
        rest: LOOK_BETWEEN,
        exits: BOTH_EXIT,
        entries: ENTRIES,
        first: FIRST,
        second: SECOND,
    };
    assert!(rt; holds(rt.alloc(), &worked) == Ok(true));
}

/// VM 1 makes the other parts, VM 2 looks, and VM 1 makes its act.
const LOOK_BEHIND: &[Row] = &[
    Makes(Set(ONE, PART_2, SECOND_CSPACE, 2, SHUT_2)),
    Makes(Settle(ONE, BELL)),
    Makes(Set(ONE, PART_3, SECOND_CSPACE, 3, SHUT_3)),
    Makes(Settle(ONE, BELL)),
    Makes(Look(TWO, 3)),
    Refuses(Pin(TWO, BELL)),
    Makes(Commit(ONE, Act(ONE, 1))),
    Makes(End(ONE)),
    Makes(Unpin(ONE, BELL)),
    Refuses(Take(TWO)),
    Makes(Leave(TWO)),
    Refuses(Take(TWO)),
    Refuses(Unpin(TWO, BELL)),
    Has(Counts(BELL, 1)),
    Has(Counter(TWO, 4)),
];

const REVOKE_ALONE: &[Entered] = &[PART_1, PART_2, PART_3, Act(ONE, 1)];

const FIRST_ALONE: &[Line] = &[(
    1,
    Some((1, 0, MASTERS)),
    None,
    Ended::Entry(4),
    [0, 3, 0, 0],
)];

const SECOND_REFUSED: &[Line] = &[
    (1, Some((1, 1, SHUT_1)), None, Ended::Refused, [51, 0, 0, 0]),
    (3, Some((3, 3, SHUT_3)), None, Ended::Refused, [51, 0, 0, 0]),
];

#[test]
fn a_look_behind_the_last_part_is_refused(rt: HostRuntime) {
    let worked = Worked {
        boot: THREE_COPIES,
        begin: FIRST_PART,
        rest: LOOK_BEHIND,
        exits: &[],
        entries: REVOKE_ALONE,
        first: FIRST_ALONE,
        second: SECOND_REFUSED,
    };
    assert!(rt; holds(rt.alloc(), &worked) == Ok(true));
}
