//! Numbers that name a page, a VM, a CPU or an object, and the answer for want of memory.

ghost use Rattle.std.specs.Prelude.{◌↔◌, IsTrue};
ghost use Rattle.gh_base.specs.Access.{IsWithin};

use std::alloc::{AllocError, AllocFailed};

/// A page of the machine, from 0.
#[derive(Clone, Copy, Debug, PartialEq, Eq)]
pub struct PageNo(pub u16);

/// A VM, from 1 in the order of the boot file.
#[derive(Clone, Copy, Debug, PartialEq, Eq)]
pub struct VmId(pub u8);

/// A CPU: 0 is the resource manager's, and CPU `v` is that of VM `v`.
#[derive(Clone, Copy, Debug, PartialEq, Eq)]
pub struct CpuNo(pub u8);

/// An object's number, from 1, which is never given to another object.
#[derive(Clone, Copy, Debug, PartialEq, Eq)]
pub struct Serial(pub u32);

/// An object's place in the tables: its partition's place times 128 and its own place there.
/// Unlike a serial it is given again after a reclaim.
#[derive(Clone, Copy, Debug, PartialEq, Eq)]
pub struct ObjIndex(pub u16);

/// What a capability allows on its object, a bit for each right.
#[derive(Clone, Copy, Debug, Default, PartialEq, Eq)]
pub struct Rights(pub u16);

impl Rights {
    /// Make objects that live in the partition.
    pub const CREATE: Rights = Rights(0x1);
    /// Act as the resource manager. A created partition's master capability hasn't it.
    pub const RESOURCE_MANAGER: Rights = Rights(0x80);
    /// Put copies and new capabilities into the capability space.
    pub const COPY: Rights = Rights(0x2);
    /// Empty slots of the capability space.
    pub const DELETE: Rights = Rights(0x4);
    /// Revoke slots of the capability space.
    pub const REVOKE: Rights = Rights(0x8);
    /// Map into the address space, or map the extent.
    pub const MAP: Rights = Rights(0x1);
    /// Look addresses of the address space up.
    pub const LOOKUP: Rights = Rights(0x2);
    /// Derive extents from the extent, or derive it.
    pub const DERIVE: Rights = Rights(0x2);
    /// Donate pages from the extent, or to it.
    pub const DONATE: Rights = Rights(0x4);
    /// Ring the doorbell, or send into the message queue.
    pub const SEND: Rights = Rights(0x1);
    /// Read the doorbell, or receive from the message queue.
    pub const RECEIVE: Rights = Rights(0x2);
    /// Activate the object, of any kind.
    pub const ACTIVATE: Rights = Rights(0x100);
    /// No right at all.
    pub const NONE: Rights = Rights(0);

    /// Whether `wider` has every right that this has.
    pub const fn within(self, wider: Rights) -> bool
        ensures { IsTrue result ↔ IsWithin self.0 wider.0 }
    {
        self.0 & wider.0 == self.0
    }
}

/// Memory ran out. The value that was asked stays as it was.
#[derive(Clone, Copy, Debug, PartialEq, Eq)]
pub struct NoMemory;

impl From<AllocError> for NoMemory {
    fn from(_: AllocError) -> NoMemory {
        NoMemory
    }
}

impl<T: Drop> From<AllocFailed<T>> for NoMemory {
    fn from(_: AllocFailed<T>) -> NoMemory {
        NoMemory
    }
}
