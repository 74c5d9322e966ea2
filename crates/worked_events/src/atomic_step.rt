//! Events and entries by their parts, as short as a table's row wants them.

use gh_base::{CapWord, CpuNo, ObjIndex, Serial};
use gh_core::Event;
use gh_model::Entry;

/// An entry of the history.
#[derive(Clone, Copy, PartialEq, Eq)]
pub(crate) enum Entered {
    /// The act of a call, by its number.
    Act(CpuNo, u32),
    /// A part of a call: the slot of this capability space.
    Part(CpuNo, u32, Serial, u8),
    Retire(Serial, [u64; 9]),
    Reclaim(Serial, [u64; 9]),
}

use Entered::{Act, Part, Reclaim, Retire};

/// An event; the first part is the CPU that makes it.
#[derive(Clone, Copy)]
pub(crate) enum AtomicStep {
    Enter(CpuNo),
    Look(CpuNo, u64),
    Pin(CpuNo, ObjIndex),
    Undo(CpuNo, ObjIndex),
    Leave(CpuNo),
    Unpin(CpuNo, ObjIndex),
    Take(CpuNo),
    /// The holder owes one more.
    Owe(CpuNo, ObjIndex),
    /// The holder owes one less.
    Settle(CpuNo, ObjIndex),
    Kill(CpuNo, ObjIndex),
    Scan(CpuNo, CpuNo),
    Revive(CpuNo, ObjIndex, u64),
    Commit(CpuNo, Entered),
    /// An entry that sets a slot of the capability space at an index.
    Set(CpuNo, Entered, ObjIndex, u8, CapWord),
    /// The turn is given back, its act ended.
    End(CpuNo),
    /// The turn is given back without an act.
    Quit(CpuNo),
}

use AtomicStep::{
    Commit, End, Enter, Kill, Leave, Look, Owe, Pin, Quit, Revive, Scan, Set, Settle, Take, Undo,
    Unpin,
};

fn entry(entered: Entered) -> Entry {
    match entered {
        Act(cpu, number) => Entry::Acted { cpu, number },
        Part(cpu, number, space, slot) => Entry::Part {
            cpu,
            number,
            space,
            slot,
        },
        Retire(serial, seen) => Entry::Retired { serial, seen },
        Reclaim(serial, seen) => Entry::Reclaimed { serial, seen },
    }
}

/// The parts of an entry.
pub(crate) fn parts(entry: Entry) -> Entered {
    match entry {
        Entry::Acted { cpu, number } => Act(cpu, number),
        Entry::Part {
            cpu,
            number,
            space,
            slot,
        } => Part(cpu, number, space, slot),
        Entry::Retired { serial, seen } => Retire(serial, seen),
        Entry::Reclaimed { serial, seen } => Reclaim(serial, seen),
    }
}

fn pin(cpu: CpuNo, object: ObjIndex, turn: bool) -> Event {
    Event::Pin { cpu, object, turn }
}

fn unpin(cpu: CpuNo, object: ObjIndex, turn: bool) -> Event {
    Event::Unpin { cpu, object, turn }
}

fn set(cpu: CpuNo, entered: Entered, space: ObjIndex, slot: u8, word: CapWord) -> Event {
    Event::SetCap {
        cpu,
        entry: entry(entered),
        space,
        slot,
        word,
    }
}

fn commit(cpu: CpuNo, entered: Entered) -> Event {
    Event::Commit {
        cpu,
        entry: entry(entered),
    }
}

/// The event of these parts.
pub(crate) fn event(step: AtomicStep) -> Event {
    match step {
        Enter(cpu) => Event::Enter { cpu },
        Look(cpu, slot) => Event::Look { cpu, slot },
        Pin(cpu, object) => pin(cpu, object, false),
        Undo(cpu, object) => Event::Undo { cpu, object },
        Leave(cpu) => Event::Leave { cpu },
        Unpin(cpu, object) => unpin(cpu, object, false),
        Take(cpu) => Event::Take { cpu },
        Owe(cpu, object) => pin(cpu, object, true),
        Settle(cpu, object) => unpin(cpu, object, true),
        Kill(cpu, object) => Event::Kill { cpu, object },
        Scan(cpu, of) => Event::Scan { cpu, of },
        Revive(cpu, object, count) => Event::Revive { cpu, object, count },
        Commit(cpu, entered) => commit(cpu, entered),
        Set(cpu, entered, space, slot, word) => set(cpu, entered, space, slot, word),
        End(cpu) => Event::Free { cpu, ended: true },
        Quit(cpu) => Event::Free { cpu, ended: false },
    }
}
