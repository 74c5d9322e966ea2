//! A request read field by field, payloads that are spoiled at one place or cut, and replies in
//! bytes.

use crate::outcome::holds;
use gh_base::{ACCEPT_ID, DONATE_ID, LEND_ID, NoMemory, RECLAIM_ID, RELEASE_ID, SHARE_ID};
use gh_rmproto::{MemRequest, Request, RmError, is_request_id, read_request, write_reply};
use std::alloc::Global;

/// Two pages from address 8192 on, under label 5, for VM 2 to read and write.
const TWO_PAGES: [u8; 40] = [
    0, 0, 0, 0, 5, 0, 0, 0, 1, 0, 0, 0, 2, 0, 6, 0, 1, 0, 0, 0, 0, 0x20, 0, 0, 0, 0, 0, 0, 0, 0x20,
    0, 0, 0, 0, 0, 0, 0, 0, 0, 0,
];

/// Handle 9 and address 0x400000, with bytes that aren't looked at.
const ACCEPT: [u8; 16] = [9, 0, 0, 0, 7, 7, 7, 7, 0, 0, 0x40, 0, 0, 0, 0, 0];

/// Handle 0x80000201, with bytes that aren't looked at.
const HANDLE: [u8; 8] = [1, 2, 0, 0x80, 7, 7, 7, 7];

/// What a request for memory asks, and the id of its kind.
fn memory_asked(request: &Request) -> Option<(u32, &MemRequest)> {
    match request {
        Request::Lend(asked) => Some((LEND_ID, asked)),
        Request::Share(asked) => Some((SHARE_ID, asked)),
        Request::Donate(asked) => Some((DONATE_ID, asked)),
        _ => None,
    }
}

/// Whether the two pages are asked for.
fn asks_for_two_pages(asked: &MemRequest) -> bool {
    asked.label == 5
        && asked.access.as_slice() == [(2, 6)].as_slice()
        && asked.memory.as_slice() == [(0x2000, 0x2000)].as_slice()
}

fn is_read_by_fields(alloc: Global, id: u32) -> Result<bool, NoMemory> {
    match read_request(alloc, id, &TWO_PAGES)? {
        Ok(request) => Ok(memory_asked(&request).is_some_and(|(kind, asked)| kind == id
            && asks_for_two_pages(asked))),
        Err(_) => Ok(false),
    }
}

fn are_read_by_fields(alloc: Global) -> bool {
    let mut all = true;
    for id in [0x5100_0012, 0x5100_0013, 0x5100_0061] {
        all = all && holds(is_read_by_fields(alloc, id));
    }
    all
}

/// The handle and the address of a request that has no more; address 0 where it has none.
fn handle_and_address(request: &Request) -> Option<(u32, u64)> {
    match request {
        Request::Accept { handle, address } => Some((*handle, *address)),
        Request::Release { handle } | Request::Reclaim { handle } => Some((*handle, 0)),
        _ => None,
    }
}

fn has_handle(
    alloc: Global,
    id: u32,
    payload: &[u8],
    handle: u32,
    address: u64,
) -> Result<bool, NoMemory> {
    match read_request(alloc, id, payload)? {
        Ok(request) => Ok(handle_and_address(&request) == Some((handle, address))),
        Err(_) => Ok(false),
    }
}

fn have_their_handles(alloc: Global) -> bool {
    holds(has_handle(alloc, ACCEPT_ID, &ACCEPT, 9, 0x0040_0000))
        && holds(has_handle(alloc, RELEASE_ID, &HANDLE, 0x8000_0201, 0))
        && holds(has_handle(alloc, RECLAIM_ID, &HANDLE, 0x8000_0201, 0))
}

#[test]
fn a_request_has_its_fields(rt: HostRuntime) {
    let alloc = rt.alloc();
    assert!(rt; are_read_by_fields(alloc) && have_their_handles(alloc));
}

/// Whether this error is told of the payload; `Ok` where it is read.
fn tells(alloc: Global, id: u32, payload: &[u8], error: RmError) -> bool {
    match read_request(alloc, id, payload) {
        Ok(Ok(_)) => error == RmError::Ok,
        Ok(Err(found)) => error == found,
        Err(NoMemory) => false,
    }
}

/// Places in the two pages' payload with another byte there, and what is told.
const SPOILED: [(usize, u8, RmError); 14] = [
    (0, 1, RmError::ArgumentInvalid),
    (1, 0xff, RmError::Ok),
    (2, 0x02, RmError::Unimplemented),
    (2, 0xfd, RmError::Ok),
    (3, 0xff, RmError::Ok),
    (8, 0, RmError::ArgumentInvalid),
    (8, 2, RmError::ArgumentInvalid),
    (11, 0x40, RmError::ArgumentInvalid),
    (11, 0xff, RmError::ArgumentInvalid),
    (15, 0xff, RmError::Ok),
    (16, 0, RmError::ArgumentInvalid),
    (17, 0xff, RmError::ArgumentInvalid),
    (18, 0xff, RmError::Ok),
    (36, 1, RmError::ArgumentInvalid),
];

fn is_told_of_byte(alloc: Global, at: usize, byte: u8, error: RmError) -> bool {
    let mut payload = TWO_PAGES;
    if let Some(place) = payload.get_mut(at) {
        *place = byte;
    }
    tells(alloc, LEND_ID, &payload, error)
}

fn spoiled_bytes_are_told(alloc: Global) -> bool {
    let mut all = true;
    for (at, byte, error) in SPOILED {
        all = all && is_told_of_byte(alloc, at, byte, error);
    }
    all
}

#[test]
fn one_byte_spoils_a_request_or_is_not_looked_at(rt: HostRuntime) {
    assert!(rt; spoiled_bytes_are_told(rt.alloc()));
}

/// How much is left of the two pages' payload, with these flags and this type of memory, and what
/// is told.
const CUT: [(usize, u8, u8, RmError); 7] = [
    (40, 3, 1, RmError::Unimplemented),
    (39, 3, 1, RmError::ArgumentInvalid),
    (40, 0, 1, RmError::ArgumentInvalid),
    (39, 0, 0, RmError::ArgumentInvalid),
    (11, 0, 0, RmError::ArgumentInvalid),
    (0, 0, 0, RmError::ArgumentInvalid),
    (40, 0, 0, RmError::Ok),
];

fn is_told_of_cut(alloc: Global, length: usize, flags: u8, mem_type: u8, error: RmError) -> bool {
    let mut payload = TWO_PAGES;
    payload[0] = mem_type;
    payload[2] = flags;
    tells(alloc, SHARE_ID, payload.get(..length).unwrap_or(&[]), error)
}

fn cuts_are_told(alloc: Global) -> bool {
    let mut all = true;
    for (length, flags, mem_type, error) in CUT {
        all = all && is_told_of_cut(alloc, length, flags, mem_type, error);
    }
    all
}

#[test]
fn the_layout_is_told_before_the_append_bit_and_this_before_the_type(rt: HostRuntime) {
    assert!(rt; cuts_are_told(rt.alloc()));
}

/// Ids with so many zeros as payload, and what is told.
const LENGTHS: [(u32, usize, RmError); 12] = [
    (LEND_ID, 20, RmError::Ok),
    (DONATE_ID, 41, RmError::ArgumentInvalid),
    (ACCEPT_ID, 15, RmError::ArgumentInvalid),
    (ACCEPT_ID, 16, RmError::Ok),
    (ACCEPT_ID, 17, RmError::ArgumentInvalid),
    (RELEASE_ID, 7, RmError::ArgumentInvalid),
    (RELEASE_ID, 8, RmError::Ok),
    (RECLAIM_ID, 8, RmError::Ok),
    (RECLAIM_ID, 9, RmError::ArgumentInvalid),
    (0x5100_0018, 20, RmError::Unimplemented),
    (0x5100_0099, 0, RmError::Unimplemented),
    (0, 8, RmError::Unimplemented),
];

fn is_told_of_zeros(alloc: Global, id: u32, length: usize, error: RmError) -> bool {
    let zeros = [0; 41];
    tells(alloc, id, zeros.get(..length).unwrap_or(&[]), error)
        && is_request_id(id) == (error != RmError::Unimplemented)
}

fn lengths_are_told(alloc: Global) -> bool {
    let mut all = true;
    for (id, length, error) in LENGTHS {
        all = all && is_told_of_zeros(alloc, id, length, error);
    }
    all
}

#[test]
fn ids_and_lengths_are_those_of_the_table(rt: HostRuntime) {
    assert!(rt; lengths_are_told(rt.alloc()));
}

/// Errors, with the bytes of the reply.
const ERRORS: [(RmError, [u8; 4]); 3] = [
    (RmError::Unimplemented, [0xff, 0xff, 0xff, 0xff]),
    (RmError::MemInuse, [0x0b, 0, 0, 0]),
    (RmError::HandleInvalid, [7, 0, 0, 0]),
];

/// Whether a reply with this error and maybe a handle is just these bytes.
fn is_written(error: RmError, handle: Option<u32>, bytes: &[u8]) -> bool {
    write_reply(error, handle).as_slice() == bytes
}

fn errors_are_written_alone() -> bool {
    let mut all = true;
    for (error, bytes) in ERRORS {
        all = all && is_written(error, None, &bytes) && is_written(error, Some(9), &bytes);
    }
    all
}

fn handle_is_written_without_error() -> bool {
    is_written(RmError::Ok, Some(1), &[0, 0, 0, 0, 1, 0, 0, 0])
        && is_written(RmError::Ok, None, &[0, 0, 0, 0])
}

#[test]
fn replies_are_an_error_or_maybe_a_handle(rt: HostRuntime) {
    assert!(rt; errors_are_written_alone() && handle_is_written_without_error());
}
