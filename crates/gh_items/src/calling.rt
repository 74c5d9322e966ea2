//! The calls of CPUs, item by item.

ghost use Rattle.std.specs.Prelude.{◌≡◌, ◌+◌, ◌<◌, OnOk, Ok, Some, false, length, nat_lt};
ghost use Rattle.gh_base.specs.declared.limits.TheConstants.{CPUS};
ghost use Rattle.gh_core.specs.Running.{stage_of};
ghost use Rattle.gh_core.specs.Tests.{is_at_act};
ghost use Rattle.gh_events.specs.Config.{Config};
ghost use Rattle.gh_events.specs.Sound.{made_by};
ghost use Rattle.gh_events.specs.Start.{MayGive, given as given_next};
ghost use Rattle.gh_items.specs.Calling.{AddsMark, begun, behind_item};
ghost use Rattle.gh_items.specs.Held.{cpu_goes_on, goes_on};
ghost use Rattle.gh_items.specs.Stands.{Stands, with_call};
ghost use Rattle.gh_model.specs.Registers.{call_of, needs_of};
ghost use Rattle.gh_schedules.specs.Items.{IsSteady, item};
ghost use Rattle.gh_schedules.specs.Trace.{after_all};

use crate::act_item::{act_item, lookless_act};
use crate::call_items::enter;
use crate::frame_item::refuse_frame;
use crate::progress::{Progress, seat_of, take_call};
use crate::section::{end_of_section, section_item};
use gh_base::{Call, CpuNo, Frame, NoMemory};
use gh_core::{CallStage, CurrentCall, GivenCall};
use gh_frames::{needs, read_call};
use std::alloc::Global;

/// Whether the call looks up a capability.
fn has_needs(call: &Call) -> bool
    ensures { result ≡ nat_lt 0 (length (needs_of call.now)) }
{
    0 < needs(call).len()
}

/// The CPU is given a call whose frame is accepted, and makes the call's first item.
fn begin_given(
    progress: &mut Progress,
    alloc: Global,
    cpu: CpuNo,
    given: GivenCall,
) -> Result<(), NoMemory>
    ghost conf: { Config }
    requires stands { Stands progress.old conf }
    requires steady { IsSteady conf }
    requires within { cpu.0 < CPUS }
    requires may { MayGive conf cpu.0 given.number }
    requires of_frame { call_of given.frame ≡ Ok given.call }
    ensures stands { OnOk result (Stands progress.new
        (behind_item (given_next conf cpu.0 given.number given.frame) cpu.0)) }
    ensures marks { OnOk result (AddsMark progress.old.marks progress.new.marks) }
{
    if has_needs(&given.call) {
        enter(progress, cpu, given);
        Ok(())
    } else {
        lookless_act(progress, alloc, cpu, given)
    }
}

/// The CPU, which is between calls, is given the call that makes this frame, with its next number,
/// and makes the call's first item. One whose frame is refused ends with that; one that looks up no
/// capability makes its act.
pub fn begin_call(
    progress: &mut Progress,
    alloc: Global,
    cpu: CpuNo,
    frame: Frame,
) -> Result<(), NoMemory>
    ghost conf: { Config }
    requires stands { Stands progress.old conf }
    requires steady { IsSteady conf }
    requires within { cpu.0 < CPUS }
    requires may { MayGive conf cpu.0 (length (made_by conf cpu.0) + 1) }
    ensures stands { OnOk result (Stands progress.new (begun conf cpu.0 frame)) }
    ensures marks { OnOk result (AddsMark progress.old.marks progress.new.marks) }
{
    let seat = seat_of(progress, cpu);
    let number = seat.calls + 1;
    match read_call(&frame) {
        Err(errno) => refuse_frame(progress, cpu, number, &frame, errno),
        Ok(call) => {
            let given = GivenCall {
                number,
                frame,
                call,
            };
            begin_given(progress, alloc, cpu, given)
        }
    }
}

/// Whether the call waits for its act.
fn is_at_act(stage: CallStage) -> bool
    ensures { result ≡ is_at_act (stage_of stage) }
{
    matches!(stage, CallStage::AtAct)
}

/// Whether a call at this stage is in its section, and in progress behind its next item too.
fn goes_on(stage: CallStage) -> bool
    ensures { result ≡ goes_on stage }
{
    matches!(
        stage,
        CallStage::Reading | CallStage::Looked | CallStage::DeadPin
    )
}

/// Whether the CPU has a call in progress that goes on so.
fn cpu_goes_on(progress: &Progress, cpu: CpuNo) -> bool
    ensures { result ≡ cpu_goes_on progress.now cpu.0 }
{
    match progress.calls.as_slice().get(cpu.0 as usize) {
        None => false,
        Some(call) => match call {
            None => false,
            Some(call) => goes_on(call.stage),
        },
    }
}

/// The last item of a call in progress, of which nothing is left in the progress.
fn last_item(
    progress: &mut Progress,
    alloc: Global,
    cpu: CpuNo,
    call: &CurrentCall,
) -> Result<(), NoMemory>
    ghost conf: { Config }
    requires stands { Stands (with_call progress.old cpu.0 (Some call.now)) conf }
    requires steady { IsSteady conf }
    requires within { cpu.0 < CPUS }
    requires last { goes_on call.now.stage ≡ false }
    ensures stands { OnOk result (Stands progress.new (after_all conf (item conf cpu.0))) }
    ensures marks { OnOk result (AddsMark progress.old.marks progress.new.marks) }
{
    if is_at_act(call.stage) {
        act_item(progress, alloc, cpu, call)
    } else {
        end_of_section(progress, cpu, call)
    }
}

/// The next item of the call that the CPU has in progress. A CPU between calls does nothing.
pub fn next_item(progress: &mut Progress, alloc: Global, cpu: CpuNo) -> Result<(), NoMemory>
    ghost conf: { Config }
    requires stands { Stands progress.old conf }
    requires steady { IsSteady conf }
    requires within { cpu.0 < CPUS }
    ensures stands { OnOk result (Stands progress.new (after_all conf (item conf cpu.0))) }
    ensures marks { OnOk result (AddsMark progress.old.marks progress.new.marks) }
{
    if cpu_goes_on(progress, cpu) {
        section_item(progress, cpu);
        return Ok(());
    }
    match take_call(progress, cpu) {
        None => Ok(()),
        Some(call) => last_item(progress, alloc, cpu, &call),
    }
}
