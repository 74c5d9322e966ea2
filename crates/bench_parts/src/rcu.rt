//! Operations on a grace period.

use crate::checksum::{checksum, folded};
use gh_base::CpuNo;
use gh_rcu::{CPUS, Grace};

/// A grace period that waits for every CPU.
fn waiting() -> Grace {
    Grace::start([1; CPUS])
}

/// A grace period that waits for the last CPU alone.
fn waiting_for_the_last() -> Grace {
    let mut grace = waiting();
    grace.note_all(&[3, 3, 3, 3, 3, 3, 3, 3, 1]);
    grace
}

/// Takes note of a CPU's counter, 0 to 3, and begins anew after every 64 turns. Whether the last
/// one has passed is the last answer.
pub fn note(count: u64) -> u64 {
    let mut grace = waiting();
    let sum = checksum(count, |turn| {
        if turn % 64 == 0 {
            grace = waiting();
        }
        grace.note(CpuNo((turn % 16) as u8), turn / 16 % 4);
        turn
    });
    folded(sum, grace.passed() as u64)
}

fn note_and_ask(grace: &mut Grace, counter: u64) -> u64 {
    grace.note(CpuNo(8), counter);
    let passed = grace.passed();
    if passed {
        *grace = waiting_for_the_last();
    }
    passed as u64
}

/// Takes note of the last CPU's counter, 0 to 3, and asks whether the grace period has passed; if
/// so it begins anew.
pub fn passed(count: u64) -> u64 {
    let mut grace = waiting_for_the_last();
    checksum(count, |turn| note_and_ask(&mut grace, turn % 4))
}
