//! What the resource manager is asked, and the errors that it answers.

ghost use Rattle.std.specs.Prelude.{◌≡◌};
ghost use Rattle.gh_base.specs.RmError.{rm_error_number};

use crate::sequence::Sequence;

/// The id of a lend, taken after the Linux drivers as those of share and reclaim are.
pub const LEND_ID: u32 = 0x5100_0012;

/// The id of a share.
pub const SHARE_ID: u32 = 0x5100_0013;

/// The id of a donate, which is this project's own.
pub const DONATE_ID: u32 = 0x5100_0061;

/// The id of an accept, which is this project's own.
pub const ACCEPT_ID: u32 = 0x5100_0011;

/// The id of a release, which is this project's own.
pub const RELEASE_ID: u32 = 0x5100_0014;

/// The id of a reclaim.
pub const RECLAIM_ID: u32 = 0x5100_0015;

/// The error of a reply. Names and numbers are taken after the Linux drivers.
#[derive(Clone, Copy, Debug, PartialEq, Eq)]
pub enum RmError {
    /// 0: none.
    Ok,
    /// -1: no such request, or one in a form that isn't built.
    Unimplemented,
    /// 2: as many parcels are live as there can be.
    NoResource,
    /// 3: the two extents aren't siblings.
    Denied,
    /// 5: the parcel is already accepted.
    Busy,
    /// 6: the payload isn't of the layout, or has a value that the request doesn't take.
    ArgumentInvalid,
    /// 7: the sender has no such parcel.
    HandleInvalid,
    /// 8: an access that the extent hasn't.
    ValidateFailed,
    /// 9: the pages can't be mapped or held there.
    MapFailed,
    /// 10: a page that isn't the owner's to give.
    MemInvalid,
    /// 11: a page or a parcel that is in use.
    MemInuse,
    /// 12: the parcel isn't accepted now.
    MemReleased,
    /// 13: a VM without a link.
    VmidInvalid,
}

impl RmError {
    /// The number in a reply; -1 as 32-bit two's complement.
    pub const fn number(self) -> u32
        ensures { result ≡ rm_error_number self }
    {
        match self {
            RmError::Ok => 0,
            RmError::Unimplemented => 0xffff_ffff,
            RmError::NoResource => 2,
            RmError::Denied => 3,
            RmError::Busy => 5,
            RmError::ArgumentInvalid => 6,
            RmError::HandleInvalid => 7,
            RmError::ValidateFailed => 8,
            RmError::MapFailed => 9,
            RmError::MemInvalid => 10,
            RmError::MemInuse => 11,
            RmError::MemReleased => 12,
            RmError::VmidInvalid => 13,
        }
    }
}

/// Memory to lend, to share or to donate.
#[derive(Debug, Drop)]
pub struct MemRequest {
    /// The owner's name for the parcel.
    pub label: u32,
    /// VMs, each with the access that it gets: execute 1, write 2, read 4.
    pub access: Sequence<(u16, u8)>,
    /// Runs of the owner's address space, address and size in bytes.
    pub memory: Sequence<(u64, u64)>,
}

/// A request whose payload has its layout.
#[derive(Debug, Drop)]
pub enum Request {
    /// Give the memory away until it is reclaimed.
    Lend(MemRequest),
    /// Give access to the memory, and keep it.
    Share(MemRequest),
    /// Give the memory away for good.
    Donate(MemRequest),
    /// Map a parcel's pages from an address on, in bytes.
    Accept { handle: u32, address: u64 },
    /// Take away what an accept mapped.
    Release { handle: u32 },
    /// End a parcel that is the sender's own.
    Reclaim { handle: u32 },
}
