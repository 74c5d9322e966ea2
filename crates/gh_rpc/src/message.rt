//! The fragments of a message.

ghost use Rattle.std.specs.Prelude.{◌≡◌, ◌≤◌, ◌++◌, map, take, drop, length, IfOk};
ghost use Rattle.gh_base.specs.RpcMessage.{IsMessage, IsWithinFields, filled};
ghost use Rattle.gh_base.specs.RpcMessage.{fragments_of, further_fragments};

use crate::header::header_bytes;
use arrayvec::ArrayVec;
use gh_base::{
    FRAGMENT_BYTES, FRAGMENT_HEADER_BYTES, FRAGMENT_PAYLOAD_BYTES, FragmentKind, Header,
    MESSAGE_PAYLOAD_BYTES, Message, NoMemory,
};
use std::alloc::Global;

/// The payload of a message.
fn payload(message: &Message) -> &[u8]
    ensures value { result.now ≡ message.now.payload }
    ensures room { length result.now ≤ MESSAGE_PAYLOAD_BYTES }
    ensures fields { IsWithinFields message.now }
{
    let _id = message.id;
    let _sequence = message.sequence;
    let _within = message.payload.len();
    message.payload.as_slice()
}

/// The part of what is left of a payload that one fragment holds.
fn part(left: &[u8]) -> &[u8]
    ensures value { result.now ≡ take FRAGMENT_PAYLOAD_BYTES left.now }
    ensures room { length result.now ≤ FRAGMENT_PAYLOAD_BYTES }
{
    if left.len() <= FRAGMENT_PAYLOAD_BYTES {
        return left;
    }
    let (part, _) = left.split_at(FRAGMENT_PAYLOAD_BYTES);
    part
}

/// What is left behind that part.
fn rest(left: &[u8]) -> &[u8]
    ensures { result.now ≡ drop FRAGMENT_PAYLOAD_BYTES left.now }
{
    if left.len() <= FRAGMENT_PAYLOAD_BYTES {
        return &[];
    }
    let (_, rest) = left.split_at(FRAGMENT_PAYLOAD_BYTES);
    rest
}

/// How many fragments must follow the first.
fn further(payload: &[u8]) -> u8
    requires { length payload.now ≤ MESSAGE_PAYLOAD_BYTES }
    ensures value { result ≡ further_fragments payload.now }
    ensures bound { result ≤ 62 }
{
    (payload.len().saturating_sub(1) / FRAGMENT_PAYLOAD_BYTES) as u8
}

/// A header and the payload behind it.
fn joined(header: [u8; FRAGMENT_HEADER_BYTES], payload: &[u8]) -> ArrayVec<u8, FRAGMENT_BYTES>
    requires { length payload.now ≤ FRAGMENT_PAYLOAD_BYTES }
    ensures { result.items ≡ header ++ payload.now }
{
    let mut bytes = ArrayVec::new();
    let _ = bytes.try_extend_from_slice(&header);
    let _ = bytes.try_extend_from_slice(payload);
    bytes
}

/// A fragment with as much as it holds of what is left of the payload.
fn fragment(message: &Message, kind: FragmentKind, left: &[u8]) -> ArrayVec<u8, FRAGMENT_BYTES>
    ensures { result.items ≡ filled message.now kind left.now }
{
    let header = Header {
        kind,
        further: further(payload(message)),
        sequence: message.sequence,
        id: message.id,
    };
    joined(header_bytes(header), part(left))
}

/// The fewest fragments that are this message, of at most 240 bytes each and full but for the last.
/// The first is a request, and all have its count.
pub fn fragments(
    alloc: Global,
    message: &Message,
) -> Result<Vec<ArrayVec<u8, FRAGMENT_BYTES>>, NoMemory>
    ensures made { IfOk result (λ made.
        map (λ f. f.items) made.items ≡ fragments_of message.now) }
    ensures message { IfOk result (λ made.
        IsMessage (map (λ f. f.items) made.items) message.now) }
{
    let mut left = payload(message);
    let further = further(left);
    let mut made = Vec::with_capacity(alloc, further as usize + 1)?;
    made.push(fragment(message, FragmentKind::Request, left))?;
    for _ in 0..further {
        left = rest(left);
        made.push(fragment(message, FragmentKind::Continuation, left))?;
    }
    Ok(made)
}
