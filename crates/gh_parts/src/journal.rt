//! What the partition places have in common: references, slots, units, extents, CPUs and numbers.

ghost use Rattle.std.specs.Prelude.{◌≡◌, IfOk, None, replicate};
ghost use Rattle.gh_parts.specs.Beginning.{no_journal};

use crate::reserved::Reserved;
use crate::slots::Slots;
use gh_base::{CSPACE_SLOTS, CSPACES, Counters, NoMemory, OBJECT_INDICES, Sequence, Serial};
use gh_extent::Extents;
use gh_model::{CpuRow, LinkRow, TakenSlot};
use gh_objects::Counts;
use gh_partition::Partition;
use std::alloc::Global;

/// How many slots the parts of a revoke can take: those of all capability spaces.
pub const TAKEN_SLOTS: usize = CSPACES * CSPACE_SLOTS as usize;

/// The units of a live partition.
#[derive(Debug, Drop)]
pub struct Account {
    pub partition: Serial,
    /// The partition that gave the quota; serial 0 for a boot partition.
    pub parent: Serial,
    pub units: Partition,
}

/// The machine's pages and the extents.
#[derive(Debug, Drop)]
pub enum Memory {
    /// So many pages, which no extent holds yet.
    Bare(u16),
    Held(Extents),
}

/// The journal's share of the parts.
#[derive(Debug, Drop)]
pub struct Journal {
    /// References and retirements, and the serials of doomed and retired objects.
    pub counts: Counts,
    /// The CPUs' counters at the retirement of the object at each index; none where it isn't
    /// retired.
    pub retirements: Sequence<Option<Counters>>,
    /// At most sixteen, one for each live capability space.
    pub slots: Sequence<Slots>,
    /// At most eight, one for each live partition.
    pub accounts: Sequence<Account>,
    pub memory: Memory,
    pub cpus: Sequence<CpuRow>,
    pub links: Sequence<LinkRow>,
    /// The slots of the revokes since the last entry of another kind.
    pub taken: Reserved<TakenSlot, TAKEN_SLOTS>,
    /// Entries of the history so far.
    pub entries: u32,
    pub next_serial: u32,
    pub next_handle: u32,
    /// Sends to a linked request queue and exits of VMs so far.
    pub rings: u32,
}

/// So many retirements that haven't come.
fn no_retirements(alloc: Global, count: usize) -> Result<Sequence<Option<Counters>>, NoMemory>
    ensures { IfOk result (λ list. list ≡ replicate count None) }
{
    let list = vec![in alloc; None; count]?;
    Ok(Sequence::from_vec(list))
}

impl Journal {
    /// The journal before any boot line.
    pub fn new(alloc: Global) -> Result<Journal, NoMemory>
        ensures { IfOk result (λ journal. journal ≡ no_journal) }
    {
        Ok(Journal {
            counts: Counts::new(alloc)?,
            retirements: no_retirements(alloc, OBJECT_INDICES)?,
            slots: Sequence::new(alloc),
            accounts: Sequence::new(alloc),
            memory: Memory::Bare(0),
            cpus: Sequence::new(alloc),
            links: Sequence::new(alloc),
            taken: Reserved::new(alloc)?,
            entries: 0,
            next_serial: 1,
            next_handle: 1,
            rings: 0,
        })
    }
}
