//! Operations on a request with 512 memory entries, and on replies.

use crate::folded;
use crate::messages::last_byte;
use gh_base::{NoMemory, SHARE_ID};
use gh_rmproto::{Request, RmError, read_request, write_reply};
use std::alloc::Global;

/// The memory entries of the request: page after page.
const ENTRIES: u16 = 512;

/// The payload: label 0, VM 1 with access 7 and VM 2 with 4, and the pages.
fn payload(alloc: Global) -> Result<Vec<u8>, NoMemory> {
    let mut payload = Vec::new(alloc);
    payload.extend_from_slice(&[0, 0, 0, 0, 0, 0, 0, 0, 2, 0, 0, 0])?;
    payload.extend_from_slice(&[1, 0, 7, 0, 2, 0, 4, 0])?;
    payload.extend_from_slice(&ENTRIES.to_le_bytes())?;
    payload.extend_from_slice(&[0, 0])?;
    for page in 0..ENTRIES {
        let address = page as u64 * 4096;
        payload.extend_from_slice(&address.to_le_bytes())?;
        payload.extend_from_slice(&4096u64.to_le_bytes())?;
    }
    payload.extend_from_slice(&[0, 0, 0, 0])?;
    Ok(payload)
}

fn number(read: Result<Request, RmError>) -> u64 {
    match read {
        Ok(Request::Share(request)) => request.memory.as_slice().last().map_or(0, |last| last.0),
        Ok(_) => 1,
        Err(error) => error.number() as u64,
    }
}

/// Reads the request.
pub fn read(alloc: Global, count: u64) -> Result<u64, NoMemory> {
    let payload = payload(alloc)?;
    let mut sum = 0;
    for _ in 0..count {
        let read = read_request(alloc, SHARE_ID, payload.as_slice())?;
        sum = folded(sum, number(read));
    }
    Ok(sum)
}

/// Writes the reply with a handle.
pub fn reply(count: u64) -> u64 {
    let mut sum = 0;
    for turn in 0..count {
        let reply = write_reply(RmError::Ok, Some((turn % 256) as u32 * 0x0100_0000));
        sum = folded(sum, last_byte(reply.as_slice()));
    }
    sum
}
