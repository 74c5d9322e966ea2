//! The state of the machine as lists of rows.

use crate::rows::{
    BellRow, CapabilityRow, CpuRow, ExtentRow, LinkRow, MappingRow, ObjectRow, Parcel,
    PartitionRow, QueueRow, SetAtRow, TakenSlot,
};
use gh_base::{Sequence, Serial};

/// All that the hypervisor and the resource manager record. Rows are in the order in which they
/// were made.
#[derive(Drop)]
pub struct State {
    pub objects: Sequence<ObjectRow>,
    pub partitions: Sequence<PartitionRow>,
    pub extents: Sequence<ExtentRow>,
    /// For each page of the machine the extent that holds it.
    pub holders: Sequence<Serial>,
    pub caps: Sequence<CapabilityRow>,
    pub set_at: Sequence<SetAtRow>,
    pub mappings: Sequence<MappingRow>,
    pub bells: Sequence<BellRow>,
    pub queues: Sequence<QueueRow>,
    pub parcels: Sequence<Parcel>,
    pub cpus: Sequence<CpuRow>,
    pub links: Sequence<LinkRow>,
    /// Entries of the history so far.
    pub entries: u32,
    pub next_serial: u32,
    pub next_handle: u32,
    /// Sends to a linked request queue and exits of VMs so far.
    pub rings: u32,
    /// The slots of the revokes since the last entry of another kind.
    pub taken: Sequence<TakenSlot>,
}
