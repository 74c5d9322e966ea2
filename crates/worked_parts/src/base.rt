//! The worked layout of a capability word, numbers of the tables, and each generic call once at a
//! concrete type.

use crate::outcome::holds;
use gh_base::{
    Access, BoundedSequence, CapState, CapWord, Errno, Kind, MessageBytes, NoMemory, ObjIndex,
    Reply, Rights, Sequence,
};
use std::alloc::Global;

/// Whether a word, a copy of it and the revoked copy have their fields from the top bit down.
fn words_have_their_fields() -> bool {
    let word = CapWord::valid(Kind::Bell, true, ObjIndex(7), Rights(3), 9);
    let copy = word.masked(1, 10);
    word.0 == 1 << 62 | 5 << 59 | 1 << 58 | 7 << 48 | 3 << 32 | 9
        && copy.0 == 1 << 62 | 5 << 59 | 7 << 48 | 1 << 32 | 10
        && copy.revoked(11).0 == 2 << 62 | 5 << 59 | 7 << 48 | 1 << 32 | 11
        && CapWord::empty(12).state() == CapState::Empty
}

#[test]
fn a_word_has_its_fields_from_the_top_bit_down(rt: HostRuntime) {
    assert!(rt; words_have_their_fields());
}

/// Bits, and whether they are an access.
const ACCESS_BITS: [(u8, bool); 5] = [(0, true), (1, true), (3, false), (7, true), (8, false)];

fn accesses_are_told() -> bool {
    let mut all = true;
    for (bits, is_access) in ACCESS_BITS {
        all = all && Access::of_bits(bits).is_some() == is_access;
    }
    all
}

#[test]
fn access_numbers_are_those_of_the_table(rt: HostRuntime) {
    assert!(rt; accesses_are_told());
}

const REFUSALS: [(Errno, u64); 6] = [
    (Errno::Unimplemented, u64::MAX),
    (Errno::Retry, u64::MAX - 1),
    (Errno::AddrInval, 0x16),
    (Errno::Denied, 0x1e),
    (Errno::CapRevoked, 0x33),
    (Errno::QueueFull, 0x3d),
];

/// Whether a refusal is its number alone.
fn is_refused_by(errno: Errno, number: u64) -> bool {
    let reply = Reply::refusal(errno);
    reply.x == [number, 0, 0, 0] && reply.bytes.is_empty()
}

fn are_refused_by_number() -> bool {
    let mut all = true;
    for (errno, number) in REFUSALS {
        all = all && is_refused_by(errno, number);
    }
    all
}

#[test]
fn refusals_have_their_number_alone(rt: HostRuntime) {
    assert!(rt; are_refused_by_number());
}

/// A sequence of 1 and 2, of which the first is set to 5.
fn five_and_two(alloc: Global) -> Result<Sequence<u8>, NoMemory> {
    let mut items = Sequence::with_room(alloc, 3)?;
    items.push(1)?;
    items.push(2)?;
    items.reserve(8)?;
    items.set(0, 5);
    Ok(items)
}

/// Whether the first item is removed, and the last is popped.
fn empties(items: &mut Sequence<u8>) -> bool {
    !items.is_empty()
        && items.remove(0) == 5
        && items.as_slice() == [2].as_slice()
        && items.pop() == Some(2)
        && items.is_empty()
}

fn sequences_are_kept(alloc: Global) -> Result<bool, NoMemory> {
    let mut items = five_and_two(alloc)?;
    let copied = Sequence::from_slice(alloc, items.as_slice())?.into_vec();
    Ok(copied.as_slice() == [5, 2].as_slice() && empties(&mut items))
}

#[test]
fn sequences_keep_their_items_in_order(rt: HostRuntime) {
    assert!(rt; holds(sequences_are_kept(rt.alloc())));
}

fn messages_are_kept(alloc: Global) -> Result<bool, NoMemory> {
    let message = MessageBytes::from_slice(alloc, &[7, 8])?;
    let none = MessageBytes::from_slice(alloc, &[])?;
    Ok(message.as_slice() == [7, 8].as_slice() && none.is_empty())
}

#[test]
fn messages_keep_their_bytes(rt: HostRuntime) {
    assert!(rt; holds(messages_are_kept(rt.alloc())));
}

fn bounded_sequence_is_kept() -> bool {
    let mut items: BoundedSequence<u8, 3> = BoundedSequence::from_slice(&[1, 2]);
    items.push(3);
    items.as_slice() == [1, 2, 3].as_slice() && items.into_array_vec().len() == 3
}

#[test]
fn bounded_sequences_keep_their_items(rt: HostRuntime) {
    assert!(rt; bounded_sequence_is_kept());
}
