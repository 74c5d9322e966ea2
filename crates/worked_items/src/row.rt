//! Rows of a worked history: a call that begins, an item, or what stands then.

use gh_base::{CpuNo, ObjIndex, Serial};

/// Where the call of a CPU stands, with its looks so far.
#[derive(Clone, Copy, PartialEq, Eq)]
pub enum Standing {
    /// There is none.
    Rests,
    /// In its section: each look has its pin.
    Reads(usize),
    /// The last look has no pin yet.
    Looked(usize),
    /// The last pin came too late.
    TooLate(usize),
    /// That pin is undone.
    Undid(usize),
    /// The last look was refused.
    Fails(usize),
    /// It waits for its act.
    Acts(usize),
}

/// Where the CPU's call stands behind an item, the entries and the finished calls.
pub type Behind = (Standing, usize, usize);

/// What a run has.
#[derive(Clone, Copy)]
pub enum Fact {
    /// The used, free and given units of a partition.
    Units(Serial, (u16, u16, u16)),
    /// The index of an object.
    LiesAt(Serial, ObjIndex),
    /// Nothing refers to the object.
    Doomed(Serial),
    /// The counters of an object's retirement, none where it isn't retired.
    Retired(Serial, Option<[u64; 9]>),
    /// A CPU's last place, and whether it has made its exit call.
    Seat(CpuNo, u32, bool),
}

/// What comes next.
#[derive(Clone, Copy)]
pub enum Row {
    /// The CPU's next call begins, with its first item: registers x0 to x3.
    Begins(CpuNo, [u64; 4], Behind),
    /// The CPU's next item.
    Makes(CpuNo, Behind),
    /// This stands.
    Has(Fact),
}
