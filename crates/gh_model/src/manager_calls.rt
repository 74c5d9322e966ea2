//! What exit and the calls of the resource manager come to.

ghost use Rattle.std.specs.Prelude.{◌≡◌, ◌≤◌, ◌∷◌, [], length, Option, IfOk};
ghost use Rattle.gh_base.specs.RmLayout.{is_request_id};
ghost use Rattle.gh_model.specs.ManagerCalls.{exit_changes, exit as exit_of, request_bit, exit_bit};
ghost use Rattle.gh_model.specs.ManagerCalls.{has_exited, bits_of, rm_poll as rm_poll_of};
ghost use Rattle.gh_model.specs.ManagerCalls.{error_reply, request_error, rm_act as rm_act_of};

use crate::change::{Change, Decision};
use crate::rows::CpuRow;
use crate::state_reads::StateReads;
use gh_base::{
    ACCEPT_ID, CpuNo, DONATE_ID, Errno, LEND_ID, MessageBytes, NoMemory, RECLAIM_ID, RELEASE_ID,
    Reply, RmError, SHARE_ID, Sequence, u32_at,
};
use std::alloc::Global;

pub(crate) fn exit(alloc: Global, cpu: CpuNo) -> Result<Decision, NoMemory>
    ensures { IfOk result (λ decision. decision ≡ exit_of cpu) }
{
    let mut changes = Sequence::new(alloc);
    changes.push(Change::Exit { cpu })?;
    if cpu.0 != 0 {
        changes.push(Change::Ring)?;
    }
    let reply = Reply::registers(0, 0, 0, 0);
    Ok(Decision::Make { changes, reply })
}

fn request_bit<R: StateReads>(rows: &R, vm: u8, bit: u64) -> u64
    requires { bit ≤ 256 }
    ensures bit { result ≡ request_bit (R.rows rows.now) vm bit }
    ensures small { result ≤ 256 }
{
    if rows.vm_requests(vm) { bit } else { 0 }
}

fn has_exited(row: Option<CpuRow>) -> bool
    ensures { result ≡ has_exited row }
{
    match row {
        None => false,
        Some(row) => row.exited,
    }
}

fn exit_bit<R: StateReads>(rows: &R, vm: u8, bit: u64) -> u64
    requires { bit ≤ 256 }
    ensures bit { result ≡ exit_bit (R.rows rows.now) vm bit }
    ensures small { result ≤ 256 }
{
    if has_exited(rows.cpu(CpuNo(vm))) {
        bit
    } else {
        0
    }
}

fn request_bits<R: StateReads>(rows: &R) -> u64
    ensures { result ≡ bits_of (request_bit (R.rows rows.now)) }
{
    request_bit(rows, 1, 2)
        + request_bit(rows, 2, 4)
        + request_bit(rows, 3, 8)
        + request_bit(rows, 4, 16)
        + request_bit(rows, 5, 32)
        + request_bit(rows, 6, 64)
        + request_bit(rows, 7, 128)
        + request_bit(rows, 8, 256)
}

fn exit_bits<R: StateReads>(rows: &R) -> u64
    ensures { result ≡ bits_of (exit_bit (R.rows rows.now)) }
{
    exit_bit(rows, 1, 2)
        + exit_bit(rows, 2, 4)
        + exit_bit(rows, 3, 8)
        + exit_bit(rows, 4, 16)
        + exit_bit(rows, 5, 32)
        + exit_bit(rows, 6, 64)
        + exit_bit(rows, 7, 128)
        + exit_bit(rows, 8, 256)
}

pub(crate) fn rm_poll<R: StateReads>(alloc: Global, rows: &R) -> Decision
    ensures { result ≡ rm_poll_of (R.rows rows.now) }
{
    let reply = Reply::registers(0, request_bits(rows), exit_bits(rows), rows.rings() as u64);
    Decision::Make {
        changes: Sequence::new(alloc),
        reply,
    }
}

/// Whether an id names a request.
fn is_request(id: u32) -> bool
    ensures { result ≡ is_request_id id }
{
    id == LEND_ID
        || id == SHARE_ID
        || id == DONATE_ID
        || id == ACCEPT_ID
        || id == RELEASE_ID
        || id == RECLAIM_ID
}

/// The error of a request that isn't built, or whose VM isn't linked.
fn request_error(is_known: bool, is_linked: bool) -> RmError
    ensures { result ≡ request_error is_known is_linked }
{
    if is_known && !is_linked {
        RmError::VmidInvalid
    } else {
        RmError::Unimplemented
    }
}

fn error_reply(alloc: Global, error: RmError) -> Result<Reply, NoMemory>
    ensures { IfOk result (λ reply. reply ≡ error_reply error) }
{
    let number = error.number().to_le_bytes();
    let bytes = MessageBytes::from_slice(alloc, &number)?;
    Ok(Reply {
        x: [0, 0, 0, 0],
        bytes,
    })
}

pub(crate) fn rm_act<R: StateReads>(
    alloc: Global,
    rows: &R,
    vm: u64,
    bytes: &[u8],
) -> Result<Decision, NoMemory>
    ensures { IfOk result (λ decision. decision ≡ rm_act_of (R.rows rows.now) vm bytes.now) }
{
    if bytes.len() < 4 {
        return Ok(Decision::Refuse {
            errno: Errno::ArgSize,
        });
    }
    let is_known = is_request(u32_at(bytes, 0));
    let reply = error_reply(alloc, request_error(is_known, rows.is_linked(vm)))?;
    Ok(Decision::Make {
        changes: Sequence::new(alloc),
        reply,
    })
}
