//! The numbers of the functions. Those up to 0x8061 are the Linux drivers', those from 0x8201 on
//! are this project's own.

ghost use Rattle.std.specs.Prelude.{◌≡◌, ◌%◌, ◌-◌, ◌^◌, slice_index};
ghost use Rattle.gh_model.specs.Registers.{function_number};

use gh_base::Frame;

// The Linux drivers' functions.

pub const IDENTIFY: u64 = 0x8000;

pub const BELL_SEND: u64 = 0x8012;

pub const BELL_SET_MASK: u64 = 0x8015;

pub const MSGQ_SEND: u64 = 0x801b;

pub const MSGQ_RECV: u64 = 0x801c;

pub const MAP: u64 = 0x802b;

pub const UNMAP: u64 = 0x802c;

pub const DONATE: u64 = 0x8061;

// This project's own functions.

pub const CREATE: u64 = 0x8201;

pub const CONFIGURE_PARTITION: u64 = 0x8202;

pub const CONFIGURE_QUEUE: u64 = 0x8203;

pub const ACTIVATE: u64 = 0x8204;

pub const CAP_COPY: u64 = 0x8210;

pub const CAP_DELETE: u64 = 0x8211;

pub const CAP_REVOKE: u64 = 0x8212;

pub const CAPS_REVOKE: u64 = 0x8213;

pub const BELL_RECEIVE: u64 = 0x8220;

pub const BELL_RESET: u64 = 0x8221;

pub const MSGQ_FLUSH: u64 = 0x8222;

pub const DERIVE: u64 = 0x8230;

pub const AS_LOOKUP: u64 = 0x8231;

pub const EXIT: u64 = 0x8240;

pub const RM_ACT: u64 = 0x8241;

pub const RM_POLL: u64 = 0x8242;

/// A fast 64-bit call of the SMC calling convention to the vendor hypervisor, in the low 32 bits.
const VENDOR_HYPERVISOR: u64 = 0xc600_0000;

/// The number of the function that a frame calls.
pub fn function(frame: &Frame) -> u64
    ensures { result ≡ function_number frame.now }
{
    (frame.x[0] % 0x1_0000_0000).saturating_sub(VENDOR_HYPERVISOR)
}
