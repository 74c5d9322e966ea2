//! A grace period that one CPU holds up.

use gh_base::CpuNo;
use gh_rcu::{CPUS, Counters, Grace, grace_law};

/// CPU 2 alone is in a section.
const SEEN: Counters = [0, 4, 1, 0, 0, 0, 0, 0, 0];

/// CPUs with the counters that are noted one after another, and whether CPU 2 is waited for then.
const NOTED: [(u8, u64, bool); 6] = [
    (2, 0, true),
    (2, 1, true),
    (1, 6, true),
    (9, 2, true),
    (255, 2, true),
    (2, 2, false),
];

/// Whether CPU 2 alone is waited for, or none is.
fn waits(grace: &Grace, is_held_up: bool) -> bool {
    grace.passed() != is_held_up && grace.reader() == is_held_up.then_some((CpuNo(2), 1))
}

/// Whether the grace period waits as told, and is over then.
fn passes(grace: &mut Grace) -> bool {
    let mut all = true;
    for (cpu, counter, is_held_up) in NOTED {
        grace.note(CpuNo(cpu), counter);
        all = all && waits(grace, is_held_up);
    }
    all
}

fn waits_for_the_reader() -> bool {
    let mut grace = Grace::start(SEEN);
    let mut other = Grace::start(SEEN);
    other.note_all(&[0, 6, 2, 0, 0, 0, 0, 0, 0]);
    grace_law(SEEN, [0; CPUS]);
    passes(&mut grace) && grace == other
}

#[test]
fn a_grace_period_waits_for_the_cpu_that_was_reading(rt: HostRuntime) {
    assert!(rt; waits_for_the_reader());
}
