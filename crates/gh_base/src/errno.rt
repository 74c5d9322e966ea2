//! The error numbers of a hypercall's reply.

ghost use Rattle.std.specs.Prelude.{◌≡◌};
ghost use Rattle.gh_base.specs.Errno.{errno_number};

/// Why a hypercall is refused. Names and numbers are taken after the Linux drivers, but for
/// `ObjState` and `ObjConfig`, whose numbers are this project's own.
#[derive(Clone, Copy, Debug, PartialEq, Eq)]
pub enum Errno {
    /// -1: no such function.
    Unimplemented,
    /// -2: the capability to copy has changed since it was looked up.
    Retry,
    /// 1: a register holds a value that the call doesn't take.
    ArgInval,
    /// 2: a size that the call doesn't take.
    ArgSize,
    /// 3: an address or a size that isn't a multiple of what it must be.
    ArgAlign,
    /// 10: too few units, or too many objects or mapping rows.
    Nomem,
    /// 20: past the end of an address space.
    AddrOvfl,
    /// 22: no such mapping, or no access at the address.
    AddrInval,
    /// 30: pages that the extent doesn't hold, or an access that it hasn't.
    Denied,
    /// 31: the pages are mapped already.
    Busy,
    /// 33: an object is in a stage in which the call can't use it.
    ObjState,
    /// 34: the object isn't configured.
    ObjConfig,
    /// 50: an empty slot.
    CapNull,
    /// 51: a revoked capability, or an object at its end.
    CapRevoked,
    /// 52: a capability of another kind of object.
    WrongType,
    /// 53: a capability without a right that the call needs.
    InsufRights,
    /// 54: no free slot.
    CspaceFull,
    /// 60: no message in the queue.
    QueueEmpty,
    /// 61: no room in the queue.
    QueueFull,
}

impl Errno {
    /// The number in register x0 of the reply; -1 and -2 as 64-bit two's complement.
    pub const fn number(self) -> u64
        ensures { result ≡ errno_number self }
    {
        match self {
            Errno::Unimplemented => 0xffff_ffff_ffff_ffff,
            Errno::Retry => 0xffff_ffff_ffff_fffe,
            Errno::ArgInval => 1,
            Errno::ArgSize => 2,
            Errno::ArgAlign => 3,
            Errno::Nomem => 10,
            Errno::AddrOvfl => 20,
            Errno::AddrInval => 22,
            Errno::Denied => 30,
            Errno::Busy => 31,
            Errno::ObjState => 33,
            Errno::ObjConfig => 34,
            Errno::CapNull => 50,
            Errno::CapRevoked => 51,
            Errno::WrongType => 52,
            Errno::InsufRights => 53,
            Errno::CspaceFull => 54,
            Errno::QueueEmpty => 60,
            Errno::QueueFull => 61,
        }
    }
}
