//! What the CPU that has the turn keeps of it.

ghost use Rattle.std.specs.Prelude.{◌≡◌, IfOk};
ghost use Rattle.gh_core.specs.Running.{holder_of};
ghost use Rattle.gh_events.specs.TurnEvents.{new_holder};

use crate::table::Written;
use gh_base::{CpuNo, NoMemory, Sequence};
use gh_model::Entry;
use std::alloc::Global;

/// The turn of a CPU.
#[derive(Drop)]
pub struct Turn {
    pub cpu: CpuNo,
    /// The entries that it committed in this turn.
    pub entries: Sequence<Entry>,
    /// The indices that it revived.
    pub revived: Sequence<u64>,
    /// What it owes, by index.
    pub owed: Sequence<Written>,
    /// The counts that failed kills saw, by serial.
    pub failed: Sequence<Written>,
    /// The counters that it scanned, by CPU.
    pub scans: Sequence<Written>,
}

impl Turn {
    /// A turn at its begin.
    pub(crate) fn new(alloc: Global, cpu: CpuNo) -> Turn
        ensures { holder_of result ≡ new_holder cpu.0 }
    {
        Turn {
            cpu,
            entries: Sequence::new(alloc),
            revived: Sequence::new(alloc),
            owed: Sequence::new(alloc),
            failed: Sequence::new(alloc),
            scans: Sequence::new(alloc),
        }
    }

    pub(crate) fn copied(&self, alloc: Global) -> Result<Turn, NoMemory>
        ensures { IfOk result (λ copy. copy ≡ self.now) }
    {
        Ok(Turn {
            cpu: self.cpu,
            entries: Sequence::from_slice(alloc, self.entries.as_slice())?,
            revived: Sequence::from_slice(alloc, self.revived.as_slice())?,
            owed: Sequence::from_slice(alloc, self.owed.as_slice())?,
            failed: Sequence::from_slice(alloc, self.failed.as_slice())?,
            scans: Sequence::from_slice(alloc, self.scans.as_slice())?,
        })
    }
}
