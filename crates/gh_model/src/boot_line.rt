//! What a boot file describes, line by line.

use gh_base::{Access, Rights, Serial, VmId};

/// A line of a boot file, but for its first. Each line that makes an object gives it the next
/// serial, from 1. Offsets, counts and bases are in pages.
#[derive(Clone, Copy, Debug)]
pub enum BootLine {
    /// The pages of the machine, 1 to 1,024.
    Pages {
        count: u16,
    },
    /// A partition with a quota of 1 to 128 units, which lives in itself.
    Partition {
        quota: u16,
    },
    Cspace {
        partition: Serial,
    },
    Addrspace {
        partition: Serial,
    },
    Doorbell {
        partition: Serial,
    },
    /// The extent of all pages.
    RootExtent {
        partition: Serial,
    },
    /// An extent of `count` pages from `offset` in its parent's span. It takes over the pages that
    /// the parent holds from `held_offset` on in the new span, `held_count` of them.
    Extent {
        partition: Serial,
        parent: Serial,
        offset: u16,
        count: u16,
        access: Access,
        held_offset: u16,
        held_count: u16,
    },
    /// A queue of `depth` messages of at most `size` bytes.
    Msgqueue {
        partition: Serial,
        depth: u16,
        size: u16,
    },
    Map {
        space: Serial,
        extent: Serial,
        base: u16,
        offset: u16,
        count: u16,
        access: Access,
    },
    Cap {
        cspace: Serial,
        slot: u8,
        object: Serial,
        rights: Rights,
        master: bool,
    },
    /// The next VM and what it is attached to.
    Vm {
        cspace: Serial,
        space: Serial,
    },
    /// The resource manager, what it is attached to, and the partition that its slot 1 names.
    Rm {
        cspace: Serial,
        space: Serial,
        partition: Serial,
    },
    /// A VM's link to the resource manager.
    Link {
        vm: VmId,
        extent: Serial,
        request: Serial,
        reply: Serial,
    },
}
