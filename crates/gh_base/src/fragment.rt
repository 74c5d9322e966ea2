//! Fragments and messages of the resource manager, and why a fragment is refused.

use crate::bounded::BoundedSequence;

/// The first byte of every fragment: interface version 1 and a header of two words. It is taken
/// after the Linux drivers, as all of the header is.
pub const FRAGMENT_VERSION: u8 = 0x21;

/// Bytes of a fragment's header.
pub const FRAGMENT_HEADER_BYTES: usize = 8;

/// The most bytes of payload in a fragment: what 240 bytes leave behind the header.
pub const FRAGMENT_PAYLOAD_BYTES: usize = 232;

/// The most bytes of a message's payload: those of 63 fragments.
pub const MESSAGE_PAYLOAD_BYTES: usize = 14_616;

/// What a fragment is for.
#[derive(Clone, Copy, Debug, PartialEq, Eq)]
pub enum FragmentKind {
    /// A later fragment of a request.
    Continuation,
    /// The first fragment of a request.
    Request,
    /// What the resource manager answers.
    Reply,
    /// What the resource manager tells without being asked.
    Notification,
}

/// What the header of a fragment says beside its version.
#[derive(Clone, Copy, Debug, PartialEq, Eq)]
pub struct Header {
    pub kind: FragmentKind,
    /// The number of fragments that follow the first one, below 64.
    pub further: u8,
    /// The sender's number of the message.
    pub sequence: u16,
    /// What is asked.
    pub id: u32,
}

/// A whole request.
#[derive(Debug, Drop)]
pub struct Message {
    /// What is asked.
    pub id: u32,
    /// The sender's number of the message.
    pub sequence: u16,
    pub payload: BoundedSequence<u8, MESSAGE_PAYLOAD_BYTES>,
}

/// Why a fragment is refused. Where several causes hold, the first one is told.
#[derive(Clone, Copy, Debug, PartialEq, Eq)]
pub enum RpcFault {
    /// Fewer than 8 bytes.
    TooShort,
    /// More than 240 bytes.
    TooLong,
    /// The first byte isn't that of this interface.
    BadVersion,
    /// A reply, a notification, or a continuation while no message is open.
    BadType,
    /// A request with 63 further fragments.
    TooManyFragments,
    /// A continuation whose sequence isn't that of its request.
    WrongSequence,
    /// A continuation whose id isn't that of its request.
    WrongId,
}
