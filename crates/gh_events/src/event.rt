//! The events of the machine of all interleavings: the atomic steps of its CPUs.

use gh_base::{CapWord, CpuNo, ObjIndex};
use gh_model::Entry;

/// One atomic step of a CPU on the words of the machine. The holder is the CPU that has the turn.
#[derive(Clone, Copy, Debug)]
pub enum Event {
    /// The CPU opens a read section, and begins its next call.
    Enter {
        cpu: CpuNo,
    },
    /// It closes its section.
    Leave {
        cpu: CpuNo,
    },
    /// It becomes the holder.
    Take {
        cpu: CpuNo,
    },
    /// It loads the word of the capability that its call looks up next.
    Look {
        cpu: CpuNo,
        slot: u64,
    },
    /// It adds one to a reference word: a pin of its call, or with `turn` a reference that the
    /// holder owes.
    Pin {
        cpu: CpuNo,
        object: ObjIndex,
        turn: bool,
    },
    /// It takes one away: a pin of its ended call, or with `turn` a reference that was owed.
    Unpin {
        cpu: CpuNo,
        object: ObjIndex,
        turn: bool,
    },
    /// It takes away its pin on a dead word.
    Undo {
        cpu: CpuNo,
        object: ObjIndex,
    },
    /// The holder makes a reference word of 0 dead, or learns that it isn't 0.
    Kill {
        cpu: CpuNo,
        object: ObjIndex,
    },
    /// The holder commits an entry that sets no slot.
    Commit {
        cpu: CpuNo,
        entry: Entry,
    },
    /// The holder commits an entry that sets this slot to this word.
    SetCap {
        cpu: CpuNo,
        entry: Entry,
        space: ObjIndex,
        slot: u8,
        word: CapWord,
    },
    /// The holder gives the turn back: its act has ended, or its call stays at its act.
    Free {
        cpu: CpuNo,
        ended: bool,
    },
    /// The holder loads a CPU's counter.
    Scan {
        cpu: CpuNo,
        of: CpuNo,
    },
    /// The holder gives an index that has no object a new count, all of it owed.
    Revive {
        cpu: CpuNo,
        object: ObjIndex,
        count: u64,
    },
    /// The CPU's seat is given back.
    Join {
        cpu: CpuNo,
    },
    /// The CPU's seat is made.
    Split {
        cpu: CpuNo,
    },
}
