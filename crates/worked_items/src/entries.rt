//! Entries of the history by their parts, as short as a table's row wants them.

use gh_base::{CpuNo, Serial};
use gh_model::Entry;

/// An entry of the history.
#[derive(Clone, Copy, PartialEq, Eq)]
pub(crate) enum Entered {
    /// The act of a call, by its number.
    Act(CpuNo, u32),
    /// A part of a call: the slot of this capability space.
    Part(CpuNo, u32, Serial, u8),
    Retire(Serial, [u64; 9]),
    Reclaim(Serial, [u64; 9]),
}

use Entered::{Act, Part, Reclaim, Retire};

/// The parts of an entry.
fn parts(entry: Entry) -> Entered {
    match entry {
        Entry::Acted { cpu, number } => Act(cpu, number),
        Entry::Part {
            cpu,
            number,
            space,
            slot,
        } => Part(cpu, number, space, slot),
        Entry::Retired { serial, seen } => Retire(serial, seen),
        Entry::Reclaimed { serial, seen } => Reclaim(serial, seen),
    }
}

/// The history has just these entries.
pub(crate) fn are_entries(history: &[Entry], entries: &[Entered]) -> bool {
    if history.len() != entries.len() {
        return false;
    }
    for (at, entry) in history.iter().enumerate() {
        if parts(*entry) != entries[at] {
            return false;
        }
    }
    true
}
