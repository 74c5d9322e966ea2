//! The payload of a request for memory.

ghost use Rattle.std.specs.Prelude.{◌≡◌, ◌≤◌, ◌+◌, ◌*◌};
ghost use Rattle.std.specs.Prelude.{length, is_some, IfOk, IfSome};
ghost use Rattle.gh_base.specs.RmLayout.{access_count, access_entry, access_width, appends};
ghost use Rattle.gh_base.specs.RmLayout.{entries, is_memory_layout, memory_asked};
ghost use Rattle.gh_base.specs.RmLayout.{memory_count, memory_entry, memory_refusal};
ghost use Rattle.gh_base.specs.RmLayout.{memory_request_length, memory_width, unless_refused};

use gh_base::{MemRequest, NoMemory, RmError, Sequence, u16_at, u32_at, u64_at};
use std::alloc::Global;

const MEM_TYPE_AT: usize = 0;

const FLAGS_AT: usize = 2;

const LABEL_AT: usize = 4;

const ACCESS_COUNT_AT: usize = 8;

const ACCESS_AT: usize = 12;

const ACCESS_WIDTH: usize = 4;

const MEMORY_COUNT_WIDTH: usize = 4;

const MEMORY_WIDTH: usize = 16;

const ATTRIBUTE_COUNT_WIDTH: usize = 4;

/// How many entries of each kind a payload has.
#[derive(Clone, Copy)]
struct Counts {
    access: usize,
    memory: usize,
}

/// The counts of a payload; none where it isn't of the layout.
fn layout_counts(payload: &[u8]) -> Option<Counts>
    ensures layout { is_some result ≡ is_memory_layout payload.now }
    ensures access { IfSome result (λ counts. counts.access ≡ access_count payload.now) }
    ensures memory { IfSome result (λ counts. counts.memory ≡ memory_count payload.now) }
    ensures whole { IfSome result (λ _. length payload.now ≡ memory_request_length payload.now) }
{
    if payload.len() < ACCESS_AT {
        return None;
    }
    let access = u32_at(payload, ACCESS_COUNT_AT) as usize;
    let memory_count_at = ACCESS_AT + access * ACCESS_WIDTH;
    if payload.len() < memory_count_at + MEMORY_COUNT_WIDTH {
        return None;
    }
    let memory = u16_at(payload, memory_count_at) as usize;
    let attribute_count_at = memory_count_at + MEMORY_COUNT_WIDTH + memory * MEMORY_WIDTH;
    if payload.len() != attribute_count_at + ATTRIBUTE_COUNT_WIDTH {
        return None;
    }
    if u32_at(payload, attribute_count_at) != 0 {
        return None;
    }
    Some(Counts { access, memory })
}

/// The access entry at the front: a VM, and what it may do.
fn access_entry(bytes: &[u8]) -> (u16, u8)
    requires { access_width ≤ length bytes.now }
    ensures { result ≡ access_entry bytes.now }
{
    (u16_at(bytes, 0), bytes[2])
}

/// The memory entry at the front: an address and a size.
fn memory_entry(bytes: &[u8]) -> (u64, u64)
    requires { memory_width ≤ length bytes.now }
    ensures { result ≡ memory_entry bytes.now }
{
    (u64_at(bytes, 0), u64_at(bytes, 8))
}

/// So many access entries.
fn access_entries(
    alloc: Global,
    bytes: &[u8],
    count: usize,
) -> Result<Sequence<(u16, u8)>, NoMemory>
    requires { count * access_width ≤ length bytes.now }
    ensures { IfOk result (λ list. list ≡ entries access_entry access_width count bytes.now) }
{
    let mut list = Sequence::with_room(alloc, count)?;
    let mut left = bytes;
    for _ in 0..count {
        list.push(access_entry(left))?;
        let (_, behind) = left.split_at(ACCESS_WIDTH);
        left = behind;
    }
    Ok(list)
}

/// So many memory entries.
fn memory_entries(
    alloc: Global,
    bytes: &[u8],
    count: usize,
) -> Result<Sequence<(u64, u64)>, NoMemory>
    requires { count * memory_width ≤ length bytes.now }
    ensures { IfOk result (λ list. list ≡ entries memory_entry memory_width count bytes.now) }
{
    let mut list = Sequence::with_room(alloc, count)?;
    let mut left = bytes;
    for _ in 0..count {
        list.push(memory_entry(left))?;
        let (_, behind) = left.split_at(MEMORY_WIDTH);
        left = behind;
    }
    Ok(list)
}

/// What a payload of the layout asks for.
fn asked(alloc: Global, payload: &[u8], counts: Counts) -> Result<MemRequest, NoMemory>
    requires access { counts.access ≡ access_count payload.now }
    requires memory { counts.memory ≡ memory_count payload.now }
    requires whole { length payload.now ≡ memory_request_length payload.now }
    ensures { IfOk result (λ request. request ≡ memory_asked payload.now) }
{
    let (_, access) = payload.split_at(ACCESS_AT);
    let memory_at = ACCESS_AT + counts.access * ACCESS_WIDTH + MEMORY_COUNT_WIDTH;
    let (_, memory) = payload.split_at(memory_at);
    Ok(MemRequest {
        label: u32_at(payload, LABEL_AT),
        access: access_entries(alloc, access, counts.access)?,
        memory: memory_entries(alloc, memory, counts.memory)?,
    })
}

/// What a payload asks for, or the first error that it shows by itself.
pub fn read_memory(alloc: Global, payload: &[u8]) -> Result<Result<MemRequest, RmError>, NoMemory>
    ensures { IfOk result (λ read.
        read ≡ unless_refused (memory_refusal payload.now) (memory_asked payload.now)) }
{
    let Some(counts) = layout_counts(payload) else {
        return Ok(Err(RmError::ArgumentInvalid));
    };
    if payload[FLAGS_AT] / 2 % 2 == 1 {
        return Ok(Err(RmError::Unimplemented));
    }
    if payload[MEM_TYPE_AT] != 0 {
        return Ok(Err(RmError::ArgumentInvalid));
    }
    let request = asked(alloc, payload, counts)?;
    Ok(Ok(request))
}
