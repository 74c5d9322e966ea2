//! The changes of the state that boot lines, acts and the history's other entries are made of.

use crate::rows::{BellRow, CapabilityRow, CpuRow, ExtentRow, LinkRow, MappingRow, ObjectRow};
use gh_base::{CpuNo, Errno, Reply, Sequence, Serial, Stage};

/// One change of the rows. Pages, depths and units are numbers of them, sizes are in bytes.
#[derive(Debug, Drop)]
pub enum Change {
    /// A free slot is filled.
    PutCapability {
        row: CapabilityRow,
    },
    /// A filled slot is emptied.
    DropCapability {
        cspace: Serial,
        slot: u8,
    },
    /// A slot's capability is revoked, and stays in its slot.
    RevokeCapability {
        cspace: Serial,
        slot: u8,
    },
    /// An object of the next serial, with its partition's, bell's or queue's row.
    AddObject {
        row: ObjectRow,
    },
    /// An object comes to another stage.
    SetStage {
        object: Serial,
        stage: Stage,
    },
    /// An object's row gets the CPUs' counters at its retirement.
    Retire {
        object: Serial,
        seen: [u64; 9],
    },
    /// An object goes with all its rows, and an extent's pages go to its parent.
    Reclaim {
        object: Serial,
    },
    /// A partition gets its quota, which its parent gives.
    GiveQuota {
        partition: Serial,
        quota: u16,
    },
    /// An extent gets its span.
    AddExtent {
        row: ExtentRow,
    },
    /// A run of pages of the machine gets another holder.
    MovePages {
        first: u16,
        count: u16,
        holder: Serial,
    },
    /// Pages of an extent appear in an address space.
    PutMapping {
        row: MappingRow,
    },
    /// A mapping row of the map call goes.
    DropMapping {
        row: MappingRow,
    },
    /// A bell's words are set.
    SetBell {
        row: BellRow,
    },
    /// A queue gets its depth and its size, and costs so many units from now on.
    ConfigureQueue {
        queue: Serial,
        depth: u16,
        size: u16,
        cost: u16,
    },
    /// A message goes behind a queue's others.
    PutMessage {
        queue: Serial,
        message: Sequence<u8>,
    },
    /// A queue's first message goes.
    DropMessage {
        queue: Serial,
    },
    /// A queue's messages go.
    EmptyQueue {
        queue: Serial,
    },
    /// A CPU has exited.
    Exit {
        cpu: CpuNo,
    },
    /// The resource manager's bell rings.
    Ring,
    /// The machine gets its pages, which no extent holds yet.
    SetPages {
        count: u16,
    },
    /// A partition of the next serial, which lives in itself, with a quota that no other gives.
    AddPartition {
        quota: u16,
    },
    /// The root extent gets its span, and holds all pages.
    AddRoot {
        row: ExtentRow,
    },
    /// A queue gets its depth and its size, which its cost holds already.
    SetRoom {
        queue: Serial,
        depth: u16,
        size: u16,
    },
    /// A free slot is filled before the first entry, so that no entry has set it.
    FillSlot {
        row: CapabilityRow,
    },
    /// A CPU is attached to its capability space and its address space.
    AddCpu {
        row: CpuRow,
    },
    /// A VM is linked to the resource manager.
    AddLink {
        row: LinkRow,
    },
}

/// What an act comes to.
#[derive(Debug, Drop)]
pub enum Decision {
    /// It is refused, and nothing changes.
    Refuse {
        errno: Errno,
    },
    /// Capabilities of a revoke are left, which its parts must take first: x0 is 0, and nothing
    /// changes.
    Unfinished,
    /// These changes are made in order, and an entry of the history, with this reply.
    Make {
        changes: Sequence<Change>,
        reply: Reply,
    },
}
