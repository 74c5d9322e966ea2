//! What the calls on one noun come to, where nothing before it stands against them.

ghost use Rattle.std.specs.Prelude.{◌≡◌, IfOk, true};
ghost use Rattle.gh_model.specs.Decide.{decided as decided_of};
ghost use Rattle.gh_model.specs.Nouns.{is_bell_call, is_capability_call, is_extent_call, is_object_call, is_queue_call, is_space_call, is_unmap};
ghost use Rattle.gh_model.specs.Small.{IsSmall};

use crate::bell_calls::{bell_receive, bell_reset, bell_send, bell_set_mask};
use crate::capability_calls::{cap_copy, cap_delete, cap_revoke, caps_revoke};
use crate::change::Decision;
use crate::memory_calls::{
    as_lookup, derive, donate, grant_at, map, named_extent, named_space, unmap,
};
use crate::object_calls::{activate, configure_partition, configure_queue, create};
use crate::queue_calls::{msgq_flush, msgq_recv, msgq_send};
use crate::state_reads::StateReads;
use gh_base::{Call, CpuNo, NoMemory, Serial};
use std::alloc::Global;

/// A call on a doorbell.
pub(crate) fn bell_call<R: StateReads>(
    alloc: Global,
    rows: &R,
    cpu: CpuNo,
    call: &Call,
    bytes: &[u8],
    grants: &[Serial],
) -> Result<Decision, NoMemory>
    requires small { IsSmall (R.rows rows.now) }
    requires noun { is_bell_call call.now ≡ true }
    ensures { IfOk result (λ decision. decision
        ≡ decided_of (R.rows rows.now) cpu.0 call.now bytes.now grants.now) }
{
    let bell = grant_at(grants, 0);
    match *call {
        Call::BellSend { cap: _, flags } => bell_send(alloc, rows, bell, flags),
        Call::BellSetMask {
            cap: _,
            enable,
            ack,
        } => bell_set_mask(alloc, rows, bell, enable, ack),
        Call::BellReceive { cap: _, clear } => bell_receive(alloc, rows, bell, clear),
        Call::BellReset { cap: _ } => bell_reset(alloc, bell),
        _ => unreachable!(),
    }
}

/// A call on a message queue.
pub(crate) fn queue_call<R: StateReads>(
    alloc: Global,
    rows: &R,
    cpu: CpuNo,
    call: &Call,
    bytes: &[u8],
    grants: &[Serial],
) -> Result<Decision, NoMemory>
    requires small { IsSmall (R.rows rows.now) }
    requires noun { is_queue_call call.now ≡ true }
    ensures { IfOk result (λ decision. decision
        ≡ decided_of (R.rows rows.now) cpu.0 call.now bytes.now grants.now) }
{
    let queue = grant_at(grants, 0);
    match *call {
        Call::MsgqSend { .. } => msgq_send(alloc, rows, queue, bytes),
        Call::MsgqRecv {
            cap: _,
            buffer: _,
            size,
        } => msgq_recv(alloc, rows, queue, size),
        Call::MsgqFlush { cap: _ } => msgq_flush(alloc, rows, queue),
        _ => unreachable!(),
    }
}

/// A call that unmaps pages.
fn unmap_call<R: StateReads>(
    alloc: Global,
    rows: &R,
    cpu: CpuNo,
    call: &Call,
    bytes: &[u8],
    grants: &[Serial],
) -> Result<Decision, NoMemory>
    requires small { IsSmall (R.rows rows.now) }
    requires noun { is_unmap call.now ≡ true }
    ensures { IfOk result (λ decision. decision
        ≡ decided_of (R.rows rows.now) cpu.0 call.now bytes.now grants.now) }
{
    match *call {
        Call::Unmap {
            space,
            extent: _,
            base,
            flags,
            offset,
            size,
        } => {
            let extent = named_extent(space, grants);
            let space = named_space(rows, cpu, space, grants);
            unmap(alloc, rows, space, extent, base, flags, offset, size)
        }
        _ => unreachable!(),
    }
}

/// A call on an address space, which the call names by its register.
pub(crate) fn space_call<R: StateReads>(
    alloc: Global,
    rows: &R,
    cpu: CpuNo,
    call: &Call,
    bytes: &[u8],
    grants: &[Serial],
) -> Result<Decision, NoMemory>
    requires small { IsSmall (R.rows rows.now) }
    requires noun { is_space_call call.now ≡ true }
    ensures { IfOk result (λ decision. decision
        ≡ decided_of (R.rows rows.now) cpu.0 call.now bytes.now grants.now) }
{
    match *call {
        Call::Map {
            space,
            extent: _,
            base,
            attributes,
            flags,
            offset,
            size,
        } => {
            let extent = named_extent(space, grants);
            let space = named_space(rows, cpu, space, grants);
            map(
                alloc, rows, space, extent, base, attributes, flags, offset, size,
            )
        }
        Call::Unmap { .. } => unmap_call(alloc, rows, cpu, call, bytes, grants),
        Call::AsLookup { space, address } => {
            Ok(as_lookup(alloc, rows, named_space(rows, cpu, space, grants), address))
        }
        _ => unreachable!(),
    }
}

/// A call on two extents.
pub(crate) fn extent_call<R: StateReads>(
    alloc: Global,
    rows: &R,
    cpu: CpuNo,
    call: &Call,
    bytes: &[u8],
    grants: &[Serial],
) -> Result<Decision, NoMemory>
    requires small { IsSmall (R.rows rows.now) }
    requires noun { is_extent_call call.now ≡ true }
    ensures { IfOk result (λ decision. decision
        ≡ decided_of (R.rows rows.now) cpu.0 call.now bytes.now grants.now) }
{
    let first = grant_at(grants, 0);
    let second = grant_at(grants, 1);
    match *call {
        Call::Donate {
            options,
            from: _,
            to: _,
            offset,
            size,
        } => donate(alloc, rows, options, first, second, offset, size),
        Call::Derive {
            child: _,
            parent: _,
            offset,
            size,
            access,
        } => derive(alloc, rows, first, second, offset, size, access),
        _ => unreachable!(),
    }
}

/// A call that makes an object, or makes one ready.
pub(crate) fn object_call<R: StateReads>(
    alloc: Global,
    rows: &R,
    cpu: CpuNo,
    call: &Call,
    bytes: &[u8],
    grants: &[Serial],
) -> Result<Decision, NoMemory>
    requires small { IsSmall (R.rows rows.now) }
    requires noun { is_object_call call.now ≡ true }
    ensures { IfOk result (λ decision. decision
        ≡ decided_of (R.rows rows.now) cpu.0 call.now bytes.now grants.now) }
{
    let first = grant_at(grants, 0);
    match *call {
        Call::Create {
            partition: _,
            cspace: _,
            kind,
        } => create(alloc, rows, first, grant_at(grants, 1), kind),
        Call::ConfigurePartition { cap: _, quota } => configure_partition(
            alloc, rows, first, quota,
        ),
        Call::ConfigureQueue {
            cap: _,
            depth,
            size,
        } => configure_queue(alloc, rows, first, depth, size),
        Call::Activate { cap: _ } => activate(alloc, rows, first),
        _ => unreachable!(),
    }
}

/// A call on capabilities.
pub(crate) fn capability_call<R: StateReads>(
    alloc: Global,
    rows: &R,
    cpu: CpuNo,
    call: &Call,
    bytes: &[u8],
    grants: &[Serial],
) -> Result<Decision, NoMemory>
    requires small { IsSmall (R.rows rows.now) }
    requires noun { is_capability_call call.now ≡ true }
    ensures { IfOk result (λ decision. decision
        ≡ decided_of (R.rows rows.now) cpu.0 call.now bytes.now grants.now) }
{
    let first = grant_at(grants, 0);
    match *call {
        Call::CapCopy {
            cspace: _,
            source,
            mask,
        } => cap_copy(alloc, rows, cpu, first, grant_at(grants, 1), source, mask),
        Call::CapDelete { cspace: _, slot } => cap_delete(alloc, rows, first, slot),
        Call::CapRevoke { cspace: _, slot } => cap_revoke(alloc, rows, first, slot),
        Call::CapsRevoke { cap: _ } => Ok(caps_revoke(alloc, rows, first)),
        _ => unreachable!(),
    }
}
