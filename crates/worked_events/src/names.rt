//! What the worked histories name: CPUs, functions, indices, and the fields of a capability word.

use gh_base::{CpuNo, ObjIndex};

pub(crate) const ONE: CpuNo = CpuNo(1);

pub(crate) const TWO: CpuNo = CpuNo(2);

pub(crate) const BELL_SEND: u64 = 0xc600_8012;

pub(crate) const CREATE: u64 = 0xc600_8201;

pub(crate) const CAP_DELETE: u64 = 0xc600_8211;

pub(crate) const CAP_REVOKE: u64 = 0xc600_8212;

pub(crate) const CAPS_REVOKE: u64 = 0xc600_8213;

pub(crate) const EXIT: u64 = 0xc600_8240;

/// The capability space of the first VM.
pub(crate) const FIRST_CSPACE: ObjIndex = ObjIndex(1);

/// That of the second.
pub(crate) const SECOND_CSPACE: ObjIndex = ObjIndex(2);

/// The address space of the first VM.
pub(crate) const FIRST_ADDRSPACE: ObjIndex = ObjIndex(3);

/// That of the second.
pub(crate) const SECOND_ADDRSPACE: ObjIndex = ObjIndex(4);

// A capability word is the sum of the number of the entry that set it and these.

pub(crate) const VALID: u64 = 1 << 62;

pub(crate) const REVOKED: u64 = 2 << 62;

pub(crate) const OF_CSPACE: u64 = 2 << 59;

pub(crate) const OF_PARTITION: u64 = 1 << 59;

pub(crate) const OF_BELL: u64 = 5 << 59;

pub(crate) const MASTER: u64 = 1 << 58;

/// An index of 1.
pub(crate) const INDEX: u64 = 1 << 48;

/// Rights of 1.
pub(crate) const RIGHTS: u64 = 1 << 32;
