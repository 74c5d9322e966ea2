//! The exits of two VMs that share one doorbell: each leaves its capability space and its address
//! space.

use crate::atomic_step::AtomicStep::{Commit, End, Enter, Settle, Take};
use crate::atomic_step::Entered::Act;
use crate::names::{
    EXIT, FIRST_ADDRSPACE, FIRST_CSPACE, ONE, SECOND_ADDRSPACE, SECOND_CSPACE, TWO,
};
use crate::walk::Fact::{Counter, Counts, Units};
use crate::walk::Row::{self, Gives, Has, Makes, Refuses};
use gh_base::{CpuNo, Serial};

/// The second call of VM 1, and the third of VM 2, which opened two sections.
pub(crate) const BOTH_EXIT: &[Row] = &[
    Gives(ONE, 2, [EXIT, 0, 0, 0]),
    Refuses(Enter(ONE)),
    Makes(Take(ONE)),
    Makes(Commit(ONE, Act(ONE, 2))),
    Makes(Settle(ONE, FIRST_CSPACE)),
    Refuses(End(ONE)),
    Makes(Settle(ONE, FIRST_ADDRSPACE)),
    Makes(End(ONE)),
    Gives(TWO, 3, [EXIT, 0, 0, 0]),
    Makes(Take(TWO)),
    Makes(Commit(TWO, Act(TWO, 3))),
    Makes(Settle(TWO, SECOND_CSPACE)),
    Makes(Settle(TWO, SECOND_ADDRSPACE)),
    Makes(End(TWO)),
    Refuses(Enter(CpuNo(3))),
    Has(Counts(FIRST_ADDRSPACE, 0)),
    Has(Counts(SECOND_ADDRSPACE, 0)),
    Has(Counter(ONE, 2)),
    Has(Counter(TWO, 4)),
    Has(Units(Serial(1), (19, 21, 0))),
];
