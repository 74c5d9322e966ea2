//! A VM that reads holds up the reclaim of an object, and so a create that wants its unit.

use crate::atomic_step::AtomicStep::{
    Commit, End, Enter, Kill, Leave, Look, Owe, Pin, Revive, Set, Settle, Take, Undo, Unpin,
};
use crate::atomic_step::Entered::{self, Act, Reclaim, Retire};
use crate::boots::FULL_PARTITION;
use crate::marks::{Ended, Line};
use crate::names::{
    BELL_SEND, CAP_DELETE, CREATE, EXIT, FIRST_ADDRSPACE, FIRST_CSPACE, INDEX, MASTER, OF_BELL,
    OF_CSPACE, OF_PARTITION, ONE, RIGHTS, SECOND_ADDRSPACE, SECOND_CSPACE, TWO, VALID,
};
use crate::walk::Fact::{Counter, Counts, Dead, LiesAt, Shows, Units};
use crate::walk::Row::{self, Gives, Has, Makes, Refuses, ScansAll};
use crate::walk::{Worked, holds};
use gh_base::{CapWord, Held, ObjIndex, Serial};

/// The second partition.
const PARTITION: ObjIndex = ObjIndex(128);

/// The doorbell that lives in it, and then the one that is made in its place.
const BELL: ObjIndex = ObjIndex(129);

/// VM 2's master capability of the doorbell.
const OPEN: CapWord = CapWord(VALID + OF_BELL + MASTER + 129 * INDEX + 3 * RIGHTS);

/// A slot that the first entry emptied.
const EMPTIED: CapWord = CapWord(1);

/// The master capability of the doorbell that the fourth entry makes.
const NEW: CapWord = CapWord(VALID + OF_BELL + MASTER + 129 * INDEX + 0x103 * RIGHTS + 4);

// VM 1's capabilities, of the partition and of both capability spaces.

const PARTITIONS: CapWord = CapWord(VALID + OF_PARTITION + 128 * INDEX + RIGHTS);

const OWN: CapWord = CapWord(VALID + OF_CSPACE + INDEX + 15 * RIGHTS);

const OTHERS: CapWord = CapWord(VALID + OF_CSPACE + 2 * INDEX + 15 * RIGHTS);

const RETIRED: Entered = Retire(Serial(8), [0, 4, 1, 0, 0, 0, 0, 0, 0]);

const RECLAIMED: Entered = Reclaim(Serial(8), [0, 6, 2, 0, 0, 0, 0, 0, 0]);

/// VM 2 looks, VM 1 deletes what the look found, and VM 1's create retires the doorbell and falls
/// short. The kill clears the scans.
const CREATE_IN_VAIN: &[Row] = &[
    Has(Counts(BELL, 1)),
    Has(LiesAt(Serial(8), 129)),
    Gives(TWO, 1, [BELL_SEND, 7, 1, 0]),
    Makes(Enter(TWO)),
    Makes(Look(TWO, 7)),
    Gives(ONE, 1, [CAP_DELETE, 6, 7, 0]),
    Makes(Enter(ONE)),
    Makes(Look(ONE, 6)),
    Makes(Pin(ONE, SECOND_CSPACE)),
    Makes(Leave(ONE)),
    Makes(Take(ONE)),
    Refuses(Kill(ONE, BELL)),
    Makes(Set(ONE, Act(ONE, 1), SECOND_CSPACE, 7, EMPTIED)),
    Makes(Settle(ONE, BELL)),
    Makes(Settle(ONE, SECOND_CSPACE)),
    Makes(End(ONE)),
    Makes(Unpin(ONE, SECOND_CSPACE)),
    Has(Counts(BELL, 0)),
    Has(Counts(SECOND_CSPACE, 2)),
    Gives(ONE, 2, [CREATE, 1, 2, 5]),
    Makes(Enter(ONE)),
    Makes(Look(ONE, 1)),
    Refuses(Look(ONE, 2)),
    Makes(Pin(ONE, PARTITION)),
    Refuses(Leave(ONE)),
    Makes(Look(ONE, 2)),
    Makes(Pin(ONE, FIRST_CSPACE)),
    Makes(Leave(ONE)),
    Makes(Take(ONE)),
    ScansAll(ONE),
    Refuses(Commit(ONE, RETIRED)),
    Refuses(Kill(TWO, BELL)),
    Makes(Kill(ONE, BELL)),
    Has(Dead(BELL, 0)),
    Refuses(Kill(ONE, BELL)),
    Refuses(Commit(ONE, RETIRED)),
    ScansAll(ONE),
    Refuses(End(ONE)),
    Refuses(Commit(ONE, Retire(Serial(8), [0, 4, 2, 0, 0, 0, 0, 0, 0]))),
    Makes(Commit(ONE, RETIRED)),
    ScansAll(ONE),
    Refuses(Commit(ONE, Reclaim(Serial(8), [0, 4, 1, 0, 0, 0, 0, 0, 0]))),
    Refuses(Commit(ONE, Act(ONE, 2))),
    Makes(End(ONE)),
    Makes(Unpin(ONE, PARTITION)),
    Makes(Unpin(ONE, FIRST_CSPACE)),
];

/// VM 2 finds the doorbell dead and leaves, so VM 1's next create reclaims it and makes another.
const CREATE_AGAIN: &[Row] = &[
    Makes(Pin(TWO, BELL)),
    Has(Dead(BELL, 1)),
    Refuses(Leave(TWO)),
    Refuses(Unpin(TWO, BELL)),
    Makes(Undo(TWO, BELL)),
    Has(Dead(BELL, 0)),
    Makes(Leave(TWO)),
    Gives(ONE, 3, [CREATE, 1, 2, 5]),
    Makes(Enter(ONE)),
    Makes(Look(ONE, 1)),
    Refuses(Look(ONE, 2)),
    Makes(Pin(ONE, PARTITION)),
    Refuses(Leave(ONE)),
    Makes(Look(ONE, 2)),
    Makes(Pin(ONE, FIRST_CSPACE)),
    Makes(Leave(ONE)),
    Makes(Take(ONE)),
    Refuses(Commit(ONE, RECLAIMED)),
    ScansAll(ONE),
    Refuses(Revive(ONE, BELL, 1)),
    Makes(Commit(ONE, RECLAIMED)),
    Makes(Settle(ONE, PARTITION)),
    Has(Units(Serial(2), (1, 1, 0))),
    Makes(Owe(ONE, PARTITION)),
    Makes(Owe(ONE, FIRST_CSPACE)),
    Refuses(Set(ONE, Act(ONE, 3), FIRST_CSPACE, 3, NEW)),
    Refuses(Revive(ONE, BELL, 0)),
    Makes(Revive(ONE, BELL, 1)),
    Has(Counts(BELL, 1)),
    Refuses(Revive(ONE, BELL, 1)),
    Refuses(End(ONE)),
    Makes(Set(ONE, Act(ONE, 3), FIRST_CSPACE, 3, NEW)),
    Makes(End(ONE)),
    Makes(Unpin(ONE, PARTITION)),
    Makes(Unpin(ONE, FIRST_CSPACE)),
];

const BOTH_EXIT: &[Row] = &[
    Gives(ONE, 4, [EXIT, 0, 0, 0]),
    Makes(Take(ONE)),
    Makes(Commit(ONE, Act(ONE, 4))),
    Makes(Settle(ONE, FIRST_CSPACE)),
    Makes(Settle(ONE, FIRST_ADDRSPACE)),
    Makes(End(ONE)),
    Gives(TWO, 2, [EXIT, 0, 0, 0]),
    Makes(Take(TWO)),
    Makes(Commit(TWO, Act(TWO, 2))),
    Makes(Settle(TWO, SECOND_CSPACE)),
    Makes(Settle(TWO, SECOND_ADDRSPACE)),
    Makes(End(TWO)),
    Has(Shows(FIRST_CSPACE, 3, NEW)),
    Has(Shows(SECOND_CSPACE, 7, EMPTIED)),
    Has(LiesAt(Serial(9), 129)),
    Has(Counts(BELL, 1)),
    Has(Counts(PARTITION, 3)),
    Has(Counts(FIRST_CSPACE, 5)),
    Has(Counts(SECOND_CSPACE, 1)),
    Has(Counts(FIRST_ADDRSPACE, 0)),
    Has(Counts(SECOND_ADDRSPACE, 0)),
    Has(Counter(ONE, 6)),
    Has(Counter(TWO, 2)),
    Has(Units(Serial(1), (18, 22, 0))),
    Has(Units(Serial(2), (2, 0, 0))),
];

const ENTRIES: &[Entered] = &[
    Act(ONE, 1),
    RETIRED,
    RECLAIMED,
    Act(ONE, 3),
    Act(ONE, 4),
    Act(TWO, 2),
];

const READING: Held = Held::Reading {
    serial: Serial(8),
    cpu: TWO,
    counter: 1,
};

const FIRST: &[Line] = &[
    (1, Some((6, 0, OTHERS)), None, Ended::Entry(1), [0; 4]),
    (
        3,
        Some((1, 1, PARTITIONS)),
        Some((2, 1, OWN)),
        Ended::Short(2, READING),
        [10, 0, 0, 0],
    ),
    (
        5,
        Some((1, 2, PARTITIONS)),
        Some((2, 2, OWN)),
        Ended::Entry(4),
        [0, 3, 0, 0],
    ),
    (0, None, None, Ended::Entry(5), [0; 4]),
];

const SECOND: &[Line] = &[
    (1, Some((7, 0, OPEN)), None, Ended::Dead, [51, 0, 0, 0]),
    (0, None, None, Ended::Entry(6), [0; 4]),
];

#[test]
fn a_reader_holds_up_a_create(rt: HostRuntime) {
    let worked = Worked {
        boot: FULL_PARTITION,
        begin: CREATE_IN_VAIN,
        rest: CREATE_AGAIN,
        exits: BOTH_EXIT,
        entries: ENTRIES,
        first: FIRST,
        second: SECOND,
    };
    assert!(rt; holds(rt.alloc(), &worked) == Ok(true));
}
