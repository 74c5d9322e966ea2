//! Fragments that are refused and why, lengths and counts at their ends, and a message of 36
//! fragments there and back.

use crate::outcome::holds;
use arrayvec::ArrayVec;
use gh_base::{BoundedSequence, FRAGMENT_BYTES, MESSAGE_PAYLOAD_BYTES, NoMemory};
use gh_rpc::{Assembler, Message, RpcFault, fragments};
use std::alloc::Global;

/// The header of a request that lacks one fragment.
const REQUEST: [u8; 8] = [0x21, 0x05, 1, 0, 0x12, 0, 0, 0x51];

/// The header of a whole request.
const OTHER: [u8; 8] = [0x21, 0x01, 2, 0, 0x15, 0, 0, 0x51];

/// The headers of a continuation of the request, and of one that continues no message.
const NEXT: [u8; 8] = [0x21, 0, 1, 0, 0x12, 0, 0, 0x51];

const STRAY: [u8; 8] = [0x21, 0, 2, 0, 0x12, 0, 0, 0x51];

/// Headers that are refused as the first fragment.
const FIRST_FAULTS: [([u8; 8], RpcFault); 5] = [
    ([0x11, 1, 1, 0, 0x12, 0, 0, 0x51], RpcFault::BadVersion),
    ([0x21, 2, 1, 0, 0x12, 0, 0, 0x51], RpcFault::BadType),
    ([0x21, 3, 1, 0, 0x12, 0, 0, 0x51], RpcFault::BadType),
    ([0x21, 0, 1, 0, 0x12, 0, 0, 0x51], RpcFault::BadType),
    (
        [0x21, 0xfd, 1, 0, 0x12, 0, 0, 0x51],
        RpcFault::TooManyFragments,
    ),
];

/// Headers that are refused behind that of the request.
const NEXT_FAULTS: [([u8; 8], RpcFault); 2] = [
    (STRAY, RpcFault::WrongSequence),
    ([0x21, 0, 1, 0, 0x13, 0, 0, 0x51], RpcFault::WrongId),
];

fn is_refused(assembler: &mut Assembler, fragment: &[u8], fault: RpcFault) -> bool {
    match assembler.feed(fragment) {
        Ok(_) => false,
        Err(found) => found == fault,
    }
}

fn first_are_refused() -> bool {
    let mut all = true;
    for (fragment, fault) in FIRST_FAULTS {
        all = all && is_refused(&mut Assembler::new(), &fragment, fault);
    }
    all
}

/// Whether the fragment is taken, and gives no message yet.
fn is_taken(assembler: &mut Assembler, fragment: &[u8]) -> bool {
    match assembler.feed(fragment) {
        Ok(message) => message.is_none(),
        Err(_) => false,
    }
}

fn is_refused_next(fragment: &[u8], fault: RpcFault) -> bool {
    let mut assembler = Assembler::new();
    is_taken(&mut assembler, &REQUEST) && is_refused(&mut assembler, fragment, fault)
}

fn next_are_refused() -> bool {
    let mut all = true;
    for (fragment, fault) in NEXT_FAULTS {
        all = all && is_refused_next(&fragment, fault);
    }
    all
}

#[test]
fn each_fault_has_its_cause(rt: HostRuntime) {
    assert!(rt; first_are_refused() && next_are_refused());
}

/// Whether the fragment gives a message of this id and sequence without payload.
fn gives(assembler: &mut Assembler, fragment: &[u8], id: u32, sequence: u16) -> bool {
    match assembler.feed(fragment) {
        Ok(Some(message)) => {
            (message.id, message.sequence) == (id, sequence) && message.payload.is_empty()
        }
        Ok(None) => false,
        Err(_) => false,
    }
}

/// Whether a request is whole with its last fragment, and another that comes before that takes its
/// place.
fn last_or_other_ends() -> bool {
    let mut first = Assembler::new();
    let mut second = Assembler::new();
    is_taken(&mut first, &REQUEST)
        && gives(&mut first, &NEXT, 0x5100_0012, 1)
        && is_taken(&mut second, &REQUEST)
        && gives(&mut second, &OTHER, 0x5100_0015, 2)
}

/// Whether a request is whole after faults before it and in it.
fn fault_is_left_behind() -> bool {
    let mut assembler = Assembler::new();
    is_refused(&mut assembler, &STRAY, RpcFault::BadType)
        && is_taken(&mut assembler, &REQUEST)
        && is_refused(&mut assembler, &STRAY, RpcFault::WrongSequence)
        && is_taken(&mut assembler, &REQUEST)
        && gives(&mut assembler, &NEXT, 0x5100_0012, 1)
}

#[test]
fn a_request_begins_anew_and_the_last_fragment_ends(rt: HostRuntime) {
    assert!(rt; last_or_other_ends() && fault_is_left_behind());
}

/// A request with so many bytes and this count.
fn request(length: usize, further: u8) -> ArrayVec<u8, 256> {
    let mut bytes = ArrayVec::new();
    for at in 0..length {
        let _ = bytes.try_push(match at {
            0 => 0x21,
            1 => further.wrapping_mul(4).wrapping_add(1),
            _ => 0,
        });
    }
    bytes
}

/// Lengths of a request and counts of further fragments that are taken.
const TAKEN: [(usize, u8); 2] = [(8, 62), (240, 0)];

/// The same of those that are refused.
const REFUSED: [(usize, u8, RpcFault); 6] = [
    (0, 0, RpcFault::TooShort),
    (7, 62, RpcFault::TooShort),
    (8, 63, RpcFault::TooManyFragments),
    (240, 63, RpcFault::TooManyFragments),
    (241, 63, RpcFault::TooLong),
    (256, 0, RpcFault::TooLong),
];

fn are_taken() -> bool {
    let mut all = true;
    for (length, further) in TAKEN {
        let bytes = request(length, further);
        all = all && Assembler::new().feed(bytes.as_slice()).is_ok();
    }
    all
}

fn are_refused() -> bool {
    let mut all = true;
    for (length, further, fault) in REFUSED {
        let bytes = request(length, further);
        all = all && is_refused(&mut Assembler::new(), bytes.as_slice(), fault);
    }
    all
}

#[test]
fn lengths_and_counts_have_their_ends(rt: HostRuntime) {
    assert!(rt; are_taken() && are_refused());
}

/// A message of so many bytes.
fn message(length: usize) -> Message {
    let mut payload: ArrayVec<u8, MESSAGE_PAYLOAD_BYTES> = ArrayVec::new();
    for at in 0..length {
        let _ = payload.try_push((at % 251) as u8);
    }
    Message {
        id: 0x5100_0013,
        sequence: 3,
        payload: BoundedSequence::from_array_vec(payload),
    }
}

type Fragment = ArrayVec<u8, FRAGMENT_BYTES>;

/// The fragment with another sequence.
fn spoiled(fragment: &Fragment) -> Fragment {
    let mut bytes = ArrayVec::new();
    let _ = bytes.try_extend_from_slice(fragment.as_slice());
    if let Some(byte) = bytes.get_mut(2) {
        *byte ^= 1;
    }
    bytes
}

/// What a fragment gives, be it spoiled or not.
fn given(assembler: &mut Assembler, fragment: &Fragment, is_spoiled: bool) -> Option<Message> {
    let answer = if is_spoiled {
        assembler.feed(spoiled(fragment).as_slice())
    } else {
        assembler.feed(fragment.as_slice())
    };
    answer.unwrap_or(None)
}

/// The last message that an assembler gives of these fragments, of which the one at `spoiled` has
/// another sequence.
fn assembled(made: &[Fragment], spoiled: Option<usize>) -> Option<Message> {
    let mut assembler = Assembler::new();
    let mut last = None;
    for (number, fragment) in made.iter().enumerate() {
        last = given(&mut assembler, fragment, spoiled == Some(number)).or(last);
    }
    last
}

/// Whether the first fragment is full, and the last has the rest.
fn have_their_lengths(made: &[Fragment]) -> bool {
    let first = made.first().map_or(0, |first| first.len());
    let last = made.last().map_or(0, |last| last.len());
    made.len() == 36 && (first, last) == (240, 108)
}

/// Whether the first fragment begins a request, and each other one continues it.
fn have_their_headers(made: &[Fragment]) -> bool {
    let mut all = true;
    for (number, fragment) in made.iter().enumerate() {
        let kind = if number == 0 { 0x8d } else { 0x8c };
        let start = [0x21, kind, 3, 0, 0x13, 0, 0, 0x51];
        all = all && fragment.as_slice().starts_with(&start);
    }
    all
}

/// Whether the fragments give the message, and none once one of them is spoiled.
fn give_their_message(made: &[Fragment], message: &Message) -> bool {
    let whole = match assembled(made, None) {
        None => false,
        Some(found) => found.payload.as_slice() == message.payload.as_slice(),
    };
    whole && assembled(made, Some(19)).is_none()
}

fn long_message_comes_back(alloc: Global) -> Result<bool, NoMemory> {
    let message = message(8220);
    let made = fragments(alloc, &message)?;
    Ok(
        have_their_lengths(made.as_slice())
            && have_their_headers(made.as_slice())
            && give_their_message(made.as_slice(), &message),
    )
}

#[test]
fn a_message_of_36_fragments_comes_back(rt: HostRuntime) {
    assert!(rt; holds(long_message_comes_back(rt.alloc())));
}
