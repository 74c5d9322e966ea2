//! What the worked histories name: CPUs, functions, and the fields of a capability word.

use gh_base::CpuNo;

pub(crate) const ONE: CpuNo = CpuNo(1);

pub(crate) const TWO: CpuNo = CpuNo(2);

pub(crate) const IDENTIFY: u64 = 0xc600_8000;

pub(crate) const BELL_SEND: u64 = 0xc600_8012;

pub(crate) const CREATE: u64 = 0xc600_8201;

pub(crate) const CONFIGURE_PARTITION: u64 = 0xc600_8202;

pub(crate) const ACTIVATE: u64 = 0xc600_8204;

pub(crate) const CAP_COPY: u64 = 0xc600_8210;

pub(crate) const CAP_DELETE: u64 = 0xc600_8211;

pub(crate) const CAP_REVOKE: u64 = 0xc600_8212;

pub(crate) const CAPS_REVOKE: u64 = 0xc600_8213;

pub(crate) const BELL_RECEIVE: u64 = 0xc600_8220;

pub(crate) const MSGQ_FLUSH: u64 = 0xc600_8222;

pub(crate) const AS_LOOKUP: u64 = 0xc600_8231;

pub(crate) const EXIT: u64 = 0xc600_8240;

// Kinds of objects, as a create names them.

pub(crate) const PARTITION: u64 = 1;

pub(crate) const DOORBELL: u64 = 5;

// A capability word is the sum of the number of the entry that set it and these.

pub(crate) const VALID: u64 = 1 << 62;

pub(crate) const REVOKED: u64 = 2 << 62;

pub(crate) const OF_PARTITION: u64 = 1 << 59;

pub(crate) const OF_CSPACE: u64 = 2 << 59;

pub(crate) const OF_BELL: u64 = 5 << 59;

pub(crate) const MASTER: u64 = 1 << 58;

/// An index of 1.
pub(crate) const INDEX: u64 = 1 << 48;

/// Rights of 1.
pub(crate) const RIGHTS: u64 = 1 << 32;
