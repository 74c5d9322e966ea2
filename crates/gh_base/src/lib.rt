//! The types and limits that every crate of the hypervisor names.
#![tactic(auto)]

mod access;
mod bounded;
mod call;
mod cap_word;
mod counters;
mod errno;
mod fragment;
mod frame;
mod ids;
mod kind;
mod limits;
mod little_endian;
mod mark;
mod message_bytes;
mod places;
mod rm;
mod sequence;

pub use access::Access;
pub use bounded::BoundedSequence;
pub use call::Call;
pub use cap_word::{CapState, CapWord, Grant, Look, Need};
pub use counters::{Counters, is_reading};
pub use errno::Errno;
pub use fragment::{
    FRAGMENT_HEADER_BYTES, FRAGMENT_PAYLOAD_BYTES, FRAGMENT_VERSION, FragmentKind, Header,
    MESSAGE_PAYLOAD_BYTES, Message, RpcFault,
};
pub use frame::{Frame, Reply};
pub use ids::{CpuNo, NoMemory, ObjIndex, PageNo, Rights, Serial, VmId};
pub use kind::{Kind, Relation, Stage};
pub use limits::{
    ACT_ENTRIES, BOOT_FILE_BYTES, CALL_FILE_CALLS, CALL_NUMBERS, CPUS, CSPACE_SLOTS, CSPACES,
    FRAGMENT_BYTES, FURTHER_FRAGMENTS, HISTORY_ENTRIES, HISTORY_FILE_BYTES, MACHINE_PAGES,
    MESSAGE_BYTES, NEW_BELL_ACK, NEW_BELL_ENABLE, NEW_BELL_FLAGS, OBJECT_INDICES, PAGE_BYTES,
    PARCELS, PARTITION_PLACES, PARTITION_UNITS, PARTITIONS, QUEUE_DEPTH, SPACE_PAGES, SPACE_ROWS,
    VMS,
};
pub use little_endian::{u16_at, u32_at, u64_at};
pub use mark::{End, Held, Mark};
pub use message_bytes::MessageBytes;
pub use places::{first_free_place, with_place};
pub use rm::{
    ACCEPT_ID, DONATE_ID, LEND_ID, MemRequest, RECLAIM_ID, RELEASE_ID, Request, RmError, SHARE_ID,
};
pub use sequence::Sequence;
