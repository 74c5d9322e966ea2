//! Requests to the resource manager.

ghost use Rattle.std.specs.Prelude.{◌≡◌, IfOk};
ghost use Rattle.gh_base.specs.RmLayout.{accept_request, handle_of, handle_width, is_request_id};
ghost use Rattle.gh_base.specs.RmLayout.{request_of, unless_refused, width_refusal};

use crate::memory::read_memory;
use gh_base::{
    ACCEPT_ID, DONATE_ID, LEND_ID, NoMemory, RECLAIM_ID, RELEASE_ID, Request, RmError, SHARE_ID,
    u32_at, u64_at,
};
use std::alloc::Global;

const ACCEPT_BYTES: usize = 16;

const HANDLE_BYTES: usize = 8;

/// Whether the id is that of a request.
pub fn is_request_id(id: u32) -> bool
    ensures { result ≡ is_request_id id }
{
    matches!(
        id,
        LEND_ID | SHARE_ID | DONATE_ID | ACCEPT_ID | RELEASE_ID | RECLAIM_ID
    )
}

fn read_accept(payload: &[u8]) -> Result<Request, RmError>
    ensures { result ≡ accept_request payload.now }
{
    if payload.len() != ACCEPT_BYTES {
        return Err(RmError::ArgumentInvalid);
    }
    Ok(Request::Accept {
        handle: u32_at(payload, 0),
        address: u64_at(payload, 8),
    })
}

/// The handle that is the whole payload but for bytes that aren't looked at.
fn read_handle(payload: &[u8]) -> Result<u32, RmError>
    ensures { result ≡ unless_refused (width_refusal handle_width payload.now)
        (handle_of payload.now) }
{
    if payload.len() != HANDLE_BYTES {
        return Err(RmError::ArgumentInvalid);
    }
    Ok(u32_at(payload, 0))
}

/// What the id and the payload ask. It answers the first error that the two show by themselves, and
/// leaves to the caller what needs more than they hold and what a `Request` still shows.
///
/// `Unimplemented` where the id is of no request; else `ArgumentInvalid` where the payload isn't of
/// the layout; then, in a request for memory, `Unimplemented` where the append bit is set, and
/// `ArgumentInvalid` where the type of memory isn't 0.
pub fn read_request(
    alloc: Global,
    id: u32,
    payload: &[u8],
) -> Result<Result<Request, RmError>, NoMemory>
    ensures { IfOk result (λ read. read ≡ request_of id payload.now) }
{
    let read = match id {
        LEND_ID => read_memory(alloc, payload)?.map(Request::Lend),
        SHARE_ID => read_memory(alloc, payload)?.map(Request::Share),
        DONATE_ID => read_memory(alloc, payload)?.map(Request::Donate),
        ACCEPT_ID => read_accept(payload),
        RELEASE_ID => read_handle(payload).map(|handle| Request::Release { handle }),
        RECLAIM_ID => read_handle(payload).map(|handle| Request::Reclaim { handle }),
        _ => Err(RmError::Unimplemented),
    };
    Ok(read)
}
