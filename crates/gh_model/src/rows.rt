//! The rows of the state: what is recorded of each object, page, slot and CPU.

use gh_base::{Access, CpuNo, Kind, PageNo, Rights, Sequence, Serial, Stage, VmId};

/// An object that was made and not reclaimed.
#[derive(Clone, Copy, Debug)]
pub struct ObjectRow {
    pub serial: Serial,
    pub kind: Kind,
    /// The partition that it lives in; a boot partition lives in itself.
    pub partition: Serial,
    pub stage: Stage,
    /// Units.
    pub cost: u16,
    /// The CPUs' counters at its retirement; none where it isn't retired.
    pub retired: Option<[u64; 9]>,
}

/// A partition's units.
#[derive(Clone, Copy, Debug)]
pub struct PartitionRow {
    pub serial: Serial,
    /// The partition that gave the quota; serial 0 for a boot partition.
    pub parent: Serial,
    /// Units; 0 until it is configured.
    pub quota: u16,
}

/// A memory extent's span of machine pages.
#[derive(Clone, Copy, Debug)]
pub struct ExtentRow {
    pub serial: Serial,
    /// Serial 0 for the root extent.
    pub parent: Serial,
    pub first: PageNo,
    /// Pages.
    pub count: u16,
    pub access: Access,
    /// Whether it is the extent of a lent parcel, which is no object.
    pub parcel: bool,
}

/// A filled slot of a capability space.
#[derive(Clone, Copy, Debug)]
pub struct CapabilityRow {
    pub cspace: Serial,
    pub slot: u8,
    pub serial: Serial,
    pub kind: Kind,
    pub rights: Rights,
    pub master: bool,
    /// Else it is revoked.
    pub valid: bool,
}

/// The entry of the history that last set a slot. A slot without a row was set by none.
#[derive(Clone, Copy, Debug)]
pub struct SetAtRow {
    pub cspace: Serial,
    pub slot: u8,
    pub number: u32,
}

/// Pages of an extent in an address space. Bases, offsets and counts are in pages.
#[derive(Clone, Copy, Debug)]
pub struct MappingRow {
    pub space: Serial,
    pub extent: Serial,
    pub base: u64,
    /// From the first page of the extent's span.
    pub offset: u64,
    pub count: u64,
    pub access: Access,
    /// The memory parcel whose accept made the row; 0 for a row of the map call.
    pub handle: u32,
}

/// A doorbell.
#[derive(Clone, Copy, Debug)]
pub struct BellRow {
    pub serial: Serial,
    pub flags: u64,
    pub enable: u64,
    pub ack: u64,
}

/// A message queue.
#[derive(Debug, Drop)]
pub struct QueueRow {
    pub serial: Serial,
    /// Messages; 0 until it is configured.
    pub depth: u16,
    /// Bytes of a message.
    pub size: u16,
    pub messages: Sequence<Sequence<u8>>,
}

/// How a parcel's owner gave its memory.
#[derive(Clone, Copy, Debug, PartialEq, Eq)]
pub enum ParcelKind {
    /// The owner has no access until it reclaims.
    Lend,
    /// The pages stay the owner's.
    Share,
}

/// A VM that may accept a parcel.
#[derive(Clone, Copy, Debug)]
pub struct Borrower {
    pub vm: VmId,
    pub perms: Access,
    pub accepted: bool,
}

/// A memory parcel that isn't reclaimed.
#[derive(Debug, Drop)]
pub struct Parcel {
    pub handle: u32,
    pub owner: VmId,
    pub kind: ParcelKind,
    pub label: u32,
    pub extent: Serial,
    pub pages: Sequence<PageNo>,
    pub borrowers: Sequence<Borrower>,
}

/// A CPU and what its VM, or the resource manager, is attached to.
#[derive(Clone, Copy, Debug)]
pub struct CpuRow {
    pub cpu: CpuNo,
    pub cspace: Serial,
    pub space: Serial,
    pub exited: bool,
}

/// A VM's link to the resource manager.
#[derive(Clone, Copy, Debug)]
pub struct LinkRow {
    pub vm: VmId,
    pub extent: Serial,
    pub request: Serial,
    pub reply: Serial,
}

/// A slot that a revoke of all of an object's capabilities has revoked.
#[derive(Clone, Copy, Debug)]
pub struct TakenSlot {
    pub cspace: Serial,
    pub slot: u8,
}
