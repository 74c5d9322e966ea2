//! The item of a call that is its act.

ghost use Rattle.std.specs.Prelude.{◌≡◌, ◌+◌, ◌<◌, length, false, true, Ok, OnOk, Some};
ghost use Rattle.gh_events.specs.CallEvents.{has_needs};
ghost use Rattle.gh_events.specs.Config.{Config};
ghost use Rattle.gh_schedules.specs.Items.{act, sweeps};
ghost use Rattle.gh_core.specs.Running.{current_of, given_of};
ghost use Rattle.gh_events.specs.Start.{MayGive, given as given_next};
ghost use Rattle.gh_schedules.specs.Trace.{after_all};
ghost use Rattle.gh_events.specs.TurnEvents.{taken};
ghost use Rattle.gh_core.specs.declared.current.CallStage.TheVariants.{AtAct};
ghost use Rattle.gh_items.specs.Acts.{ActsNext, judged_in, lookless_call, with_judged};
ghost use Rattle.gh_items.specs.Calling.{AddsMark};
ghost use Rattle.gh_items.specs.Stands.{Stands, with_call};
ghost use Rattle.gh_model.specs.Legal.{is_revoke};
ghost use Rattle.gh_model.specs.Registers.{call_of};

use crate::end::end_call;
use crate::judge::judge;
use crate::parts::make_all_parts;
use crate::progress::{Progress, Seat, seat_of};
use crate::swept_act::swept_act;
use gh_base::{BoundedSequence, Call, CpuNo, End, NoMemory};
use gh_core::{CallStage, CurrentCall, GivenCall};
use gh_model::{Entry, Judged};
use std::alloc::Global;

/// The call ends as its act was judged. One that was done is an entry of the history.
fn end_judged(
    progress: &mut Progress,
    cpu: CpuNo,
    seat: Seat,
    call: &CurrentCall,
    judged: Judged,
) -> Result<(), NoMemory>
    requires seats { cpu.0 < length progress.old.seats }
    requires calls { cpu.0 < length progress.old.calls }
    requires counts { seat.calls + 1 < 4294967296 }
    requires sections { seat.sections + 1 < 4294967296 }
    ensures { OnOk result (progress.new ≡ with_judged progress.old cpu.0 seat call.now judged) }
{
    let number = progress.plain.entries();
    match judged {
        Judged::Refused(reply) => {
            end_call(progress, cpu, seat, call, End::Act { place: number }, reply)
        }
        Judged::Done(reply) => {
            let entry = Entry::Acted {
                cpu,
                number: call.given.number,
            };
            progress.entries.push(entry)?;
            end_call(progress, cpu, seat, call, End::Entry { number }, reply)
        }
    }
}

/// Behind its parts, the act is judged, and the call ends. It is one that doesn't sweep, and so
/// makes no object.
fn judged_act(
    progress: &mut Progress,
    alloc: Global,
    cpu: CpuNo,
    call: &CurrentCall,
) -> Result<(), NoMemory>
    ghost conf: { Config }
    requires stands { Stands (with_call progress.old cpu.0 (Some call.now)) (judged_in conf cpu.0) }
    requires next { ActsNext conf cpu.0 (current_of call.now) }
    requires unswept { sweeps call.now.given.call ≡ false }
    ensures stands { OnOk result (Stands progress.new (after_all conf (act cpu.0 conf))) }
    ensures marks { OnOk result (AddsMark progress.old.marks progress.new.marks) }
{
    let seat = seat_of(progress, cpu);
    let judged = judge(progress, alloc, cpu, call)?;
    end_judged(progress, cpu, seat, call, judged)
}

/// The act of a call that begins with its turn, where neither a sweep nor parts prepare it.
fn plain_act(
    progress: &mut Progress,
    alloc: Global,
    cpu: CpuNo,
    call: &CurrentCall,
) -> Result<(), NoMemory>
    ghost conf: { Config }
    requires stands { Stands (with_call progress.old cpu.0 (Some call.now)) (taken conf cpu.0) }
    requires next { ActsNext conf cpu.0 (current_of call.now) }
    requires unswept { sweeps call.now.given.call ≡ false }
    requires other { is_revoke call.now.given.call ≡ false }
    ensures stands { OnOk result (Stands progress.new (after_all conf (act cpu.0 conf))) }
    ensures marks { OnOk result (AddsMark progress.old.marks progress.new.marks) }
{
    judged_act(progress, alloc, cpu, call)
}

/// The act of a call that revokes the capabilities of an object, one slot after another. It begins
/// with its turn.
fn revoke_act(
    progress: &mut Progress,
    alloc: Global,
    cpu: CpuNo,
    call: &CurrentCall,
) -> Result<(), NoMemory>
    ghost conf: { Config }
    requires stands { Stands (with_call progress.old cpu.0 (Some call.now)) (taken conf cpu.0) }
    requires next { ActsNext conf cpu.0 (current_of call.now) }
    requires revokes { is_revoke call.now.given.call ≡ true }
    ensures stands { OnOk result (Stands progress.new (after_all conf (act cpu.0 conf))) }
    ensures marks { OnOk result (AddsMark progress.old.marks progress.new.marks) }
{
    make_all_parts(progress, alloc, cpu, call)?;
    judged_act(progress, alloc, cpu, call)
}

/// Whether the call revokes the capabilities of an object, one slot after another.
fn is_revoke(call: &Call) -> bool
    ensures { result ≡ is_revoke call.now }
{
    matches!(call, Call::CapsRevoke { .. })
}

/// The act of a call that doesn't sweep, and begins with its turn.
fn unswept_act(
    progress: &mut Progress,
    alloc: Global,
    cpu: CpuNo,
    call: &CurrentCall,
) -> Result<(), NoMemory>
    ghost conf: { Config }
    requires stands { Stands (with_call progress.old cpu.0 (Some call.now)) (taken conf cpu.0) }
    requires next { ActsNext conf cpu.0 (current_of call.now) }
    requires unswept { sweeps call.now.given.call ≡ false }
    ensures stands { OnOk result (Stands progress.new (after_all conf (act cpu.0 conf))) }
    ensures marks { OnOk result (AddsMark progress.old.marks progress.new.marks) }
{
    if is_revoke(&call.given.call) {
        revoke_act(progress, alloc, cpu, call)
    } else {
        plain_act(progress, alloc, cpu, call)
    }
}

/// Whether the call sweeps before its act.
fn sweeps(call: &Call) -> bool
    ensures { result ≡ sweeps call.now }
{
    matches!(
        call,
        Call::Create { .. } | Call::ConfigurePartition { .. } | Call::ConfigureQueue { .. }
    )
}

/// The act of a call in progress.
pub(crate) fn act_item(
    progress: &mut Progress,
    alloc: Global,
    cpu: CpuNo,
    call: &CurrentCall,
) -> Result<(), NoMemory>
    ghost conf: { Config }
    requires stands { Stands (with_call progress.old cpu.0 (Some call.now)) conf }
    requires next { ActsNext conf cpu.0 (current_of call.now) }
    requires acts { call.now.stage ≡ AtAct }
    ensures stands { OnOk result (Stands progress.new (after_all conf (act cpu.0 conf))) }
    ensures marks { OnOk result (AddsMark progress.old.marks progress.new.marks) }
{
    if sweeps(&call.given.call) {
        swept_act(progress, alloc, cpu, call)
    } else {
        unswept_act(progress, alloc, cpu, call)
    }
}

/// A call without looks at its begin.
fn lookless_call(given: GivenCall) -> CurrentCall
    ensures { result ≡ lookless_call given }
{
    CurrentCall {
        given,
        section: 0,
        seen: BoundedSequence::new(),
        stage: CallStage::AtAct,
    }
}

/// The CPU is given a call that looks up no capability, and makes its act.
pub(crate) fn lookless_act(
    progress: &mut Progress,
    alloc: Global,
    cpu: CpuNo,
    given: GivenCall,
) -> Result<(), NoMemory>
    ghost conf: { Config }
    requires stands { Stands progress.old conf }
    requires may { MayGive conf cpu.0 given.number }
    requires of_frame { call_of given.frame ≡ Ok given.call }
    requires lookless { has_needs (given_of given) ≡ false }
    requires next { ActsNext (given_next conf cpu.0 given.number given.frame) cpu.0
        (current_of (lookless_call given)) }
    ensures stands { OnOk result (Stands progress.new
        (after_all (given_next conf cpu.0 given.number given.frame)
        (act cpu.0 (given_next conf cpu.0 given.number given.frame)))) }
    ensures marks { OnOk result (AddsMark progress.old.marks progress.new.marks) }
{
    let call = lookless_call(given);
    unswept_act(progress, alloc, cpu, &call)
}
