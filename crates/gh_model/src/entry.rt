//! The entries of the history.

use gh_base::{CpuNo, Serial};

/// A change that was committed by one atomic step.
#[derive(Clone, Copy, Debug)]
pub enum Entry {
    /// The act of a call.
    Acted {
        cpu: CpuNo,
        number: u32,
    },
    /// One slot of a call that revokes all capabilities of an object.
    Part {
        cpu: CpuNo,
        number: u32,
        space: Serial,
        slot: u8,
    },
    /// Nothing refers to the object any more, and these were the CPUs' counters.
    Retired {
        serial: Serial,
        seen: [u64; 9],
    },
    /// Every CPU that was reading at the retirement has left its section: the object is gone.
    Reclaimed {
        serial: Serial,
        seen: [u64; 9],
    },
}
