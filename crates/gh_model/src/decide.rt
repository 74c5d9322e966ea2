//! What a call comes to: a refusal, or changes of the state and a reply.

ghost use Rattle.std.specs.Prelude.{◌≡◌, ◌==◌, ◌&&◌, [], Option, IfOk, length};
ghost use Rattle.gh_model.specs.Act.{any_doomed, all_active, identified, is_active_row};
ghost use Rattle.gh_model.specs.Decide.{decision as decision_of, decided as decided_of, stages_fit, is_at_end, is_active, is_init};
ghost use Rattle.gh_model.specs.Decisions.{is_init_row};
ghost use Rattle.gh_model.specs.Small.{IsSmall};
ghost use Rattle.gh_model.specs.declared.change.Decision.TheVariants.{Make};

use crate::change::Decision;
use crate::manager_calls::{exit, rm_act, rm_poll};
use crate::memory_calls::grant_at;
use crate::nouns::{bell_call, capability_call, extent_call, object_call, queue_call, space_call};
use crate::rows::ObjectRow;
use crate::state_reads::StateReads;
use gh_base::{Call, CpuNo, Errno, NoMemory, Reply, Sequence, Serial, Stage};
use std::alloc::Global;

fn any_doomed<R: StateReads>(rows: &R, grants: &[Serial]) -> bool
    ensures { result ≡ any_doomed (R.rows rows.now) grants.now }
{
    grants.iter().any(|grant| rows.doomed(*grant))
}

fn is_at_end<R: StateReads>(rows: &R, call: &Call, grants: &[Serial]) -> bool
    ensures { result ≡ is_at_end (R.rows rows.now) call.now grants.now }
{
    match *call {
        Call::CapsRevoke { cap: _ } => rows.taken() == 0 && any_doomed(rows, grants),
        _ => any_doomed(rows, grants),
    }
}

fn is_active_row(row: Option<ObjectRow>) -> bool
    ensures { result ≡ is_active_row row }
{
    match row {
        None => false,
        Some(row) => row.stage == Stage::Active,
    }
}

fn is_init_row(row: Option<ObjectRow>) -> bool
    ensures { result ≡ is_init_row row }
{
    match row {
        None => false,
        Some(row) => row.stage == Stage::Init,
    }
}

fn all_active<R: StateReads>(rows: &R, grants: &[Serial]) -> bool
    ensures { result ≡ all_active (R.rows rows.now) grants.now }
{
    grants
        .iter()
        .all(|grant| is_active_row(rows.object(*grant)))
}

fn is_active<R: StateReads>(rows: &R, object: Serial) -> bool
    ensures { result ≡ is_active (R.rows rows.now) object }
{
    is_active_row(rows.object(object))
}

fn is_init<R: StateReads>(rows: &R, object: Serial) -> bool
    ensures { result ≡ is_init (R.rows rows.now) object }
{
    is_init_row(rows.object(object))
}

/// Whether each granted object is in a stage in which the call can use it.
fn stages_fit<R: StateReads>(rows: &R, call: &Call, grants: &[Serial]) -> bool
    ensures { result ≡ stages_fit (R.rows rows.now) call.now grants.now }
{
    match *call {
        Call::Derive { .. } => {
            is_init(rows, grant_at(grants, 0)) && is_active(rows, grant_at(grants, 1))
        }
        Call::ConfigurePartition { .. } | Call::ConfigureQueue { .. } => {
            is_init(rows, grant_at(grants, 0))
        }
        Call::Activate { .. } => !is_active(rows, grant_at(grants, 0)),
        Call::CapCopy { .. } => is_active(rows, grant_at(grants, 0)),
        Call::CapsRevoke { .. } => true,
        _ => all_active(rows, grants),
    }
}

fn identified(alloc: Global) -> Decision
    ensures { result ≡ Make [] identified }
{
    Decision::Make {
        changes: Sequence::new(alloc),
        reply: Reply::registers(0x8001, 0x46, 0, 0),
    }
}

/// What the call comes to, where nothing before it stands against it.
fn decided<R: StateReads>(
    alloc: Global,
    rows: &R,
    cpu: CpuNo,
    call: &Call,
    bytes: &[u8],
    grants: &[Serial],
) -> Result<Decision, NoMemory>
    requires { IsSmall (R.rows rows.now) }
    ensures { IfOk result (λ decision. decision
        ≡ decided_of (R.rows rows.now) cpu.0 call.now bytes.now grants.now) }
{
    match *call {
        Call::Identify => Ok(identified(alloc)),
        Call::Exit => exit(alloc, cpu),
        Call::RmAct { cap: _, vm } => rm_act(alloc, rows, vm, bytes),
        Call::RmPoll { cap: _ } => Ok(rm_poll(alloc, rows)),
        Call::BellSend { .. }
        | Call::BellSetMask { .. }
        | Call::BellReceive { .. }
        | Call::BellReset { .. } => bell_call(alloc, rows, cpu, call, bytes, grants),
        Call::MsgqSend { .. } | Call::MsgqRecv { .. } | Call::MsgqFlush { .. } => {
            queue_call(alloc, rows, cpu, call, bytes, grants)
        }
        Call::Map { .. } | Call::Unmap { .. } | Call::AsLookup { .. } => {
            space_call(alloc, rows, cpu, call, bytes, grants)
        }
        Call::Donate { .. } | Call::Derive { .. } => {
            extent_call(alloc, rows, cpu, call, bytes, grants)
        }
        Call::Create { .. }
        | Call::ConfigurePartition { .. }
        | Call::ConfigureQueue { .. }
        | Call::Activate { .. } => object_call(alloc, rows, cpu, call, bytes, grants),
        Call::CapCopy { .. }
        | Call::CapDelete { .. }
        | Call::CapRevoke { .. }
        | Call::CapsRevoke { .. } => capability_call(alloc, rows, cpu, call, bytes, grants),
    }
}

/// What a call with these grants comes to. It is refused where a granted object is at its end, then
/// where one is in another stage, then where the capability to copy has moved.
pub fn decision<R: StateReads>(
    alloc: Global,
    rows: &R,
    moved: bool,
    cpu: CpuNo,
    call: &Call,
    bytes: &[u8],
    grants: &[Serial],
) -> Result<Decision, NoMemory>
    requires { IsSmall (R.rows rows.now) }
    ensures { IfOk result (λ decision. decision
        ≡ decision_of moved (R.rows rows.now) cpu.0 call.now bytes.now grants.now) }
{
    let errno = if is_at_end(rows, call, grants) {
        Errno::CapRevoked
    } else if !stages_fit(rows, call, grants) {
        Errno::ObjState
    } else if moved {
        Errno::Retry
    } else {
        return decided(alloc, rows, cpu, call, bytes, grants);
    };
    Ok(Decision::Refuse { errno })
}
