//! One item of a CPU's call, and one whole call.

ghost use Rattle.std.specs.Prelude.{◌≡◌, ◌<◌, length, is_some, true, OnOk};
ghost use Rattle.gh_base.specs.declared.limits.TheConstants.{CPUS};
ghost use Rattle.gh_driver.specs.Follows.{CallsNext, Follows, GoesOn, Tracks};
ghost use Rattle.gh_driver.specs.Follows.{has_call, is_going};
ghost use Rattle.gh_schedules.specs.Course.{Course, goes_on, with_next_call};
ghost use Rattle.gh_schedules.specs.Schedule.{advanced, called, with_item, with_items};

use crate::ask::ask;
use crate::reply::last_reply;
use crate::running::Running;
use gh_base::{CpuNo, NoMemory};
use gh_items::{Progress, begin_call, next_item};
use gh_model::Program;
use std::alloc::Global;

/// The most items of a call behind its first: two looks and a pin on what each grants, the end of
/// its section, and its act.
const LATER_ITEMS: u32 = 6;

/// Whether the CPU has more calls to make.
pub(crate) fn is_going<P>(run: &Running<P>, at: usize) -> bool
    requires programs { at < length run.now.programs }
    requires seats { at < length run.now.progress.seats }
    ensures { result ≡ is_going run.now at }
{
    run.programs.as_slice()[at].is_some() && !run.progress.seats.as_slice()[at].ended
}

/// Whether the CPU has a call in progress.
fn has_call(progress: &Progress, at: usize) -> bool
    ensures { result ≡ has_call progress.now at }
{
    match progress.calls.as_slice().get(at) {
        None => false,
        Some(call) => call.is_some(),
    }
}

/// The next item of the CPU's call. A CPU without a call does nothing. So many were made before:
/// they say from which course it goes on.
fn item<P: Program>(
    run: &mut Running<P>,
    alloc: Global,
    cpu: CpuNo,
    made: u32,
) -> Result<(), NoMemory>
    ghost course: { Course P }
    requires within { cpu.0 < CPUS }
    requires follows { Follows P.wants_reply run.old course }
    ensures { OnOk result (Follows P.wants_reply run.new (with_item course cpu.0)) }
{
    let _ = made;
    next_item(&mut run.progress, alloc, cpu)
}

/// The call of the CPU comes to its end, behind its first item.
fn finish<P: Program>(run: &mut Running<P>, alloc: Global, cpu: CpuNo) -> Result<(), NoMemory>
    ghost course: { Course P }
    requires within { cpu.0 < CPUS }
    requires follows { Follows P.wants_reply run.old course }
    ensures { OnOk result (Follows P.wants_reply run.new (with_items 6 course cpu.0)) }
{
    for made in 0..LATER_ITEMS {
        item(run, alloc, cpu, made)?;
    }
    Ok(())
}

/// A CPU between calls begins the next one of its program, with its first item.
fn begin<P: Program>(
    progress: &mut Progress,
    alloc: Global,
    cpu: CpuNo,
    program: &mut P,
) -> Result<(), NoMemory>
    ghost course: { Course P }
    requires within { cpu.0 < CPUS }
    requires tracks { Tracks progress.old course }
    requires going { goes_on course.conf cpu.0 ≡ true }
    requires next { CallsNext P.wants_reply course cpu.0 }
    requires program { program.old ≡ course.programs cpu.0 }
    ensures tracks { OnOk result (Tracks progress.new
        (advanced P.answer P.after course cpu)) }
    ensures program { OnOk result
        (program.new ≡ (advanced P.answer P.after course cpu).programs cpu.0) }
    ensures next { OnOk result
        (goes_on (advanced P.answer P.after course cpu).conf cpu.0 ≡ true
        → GoesOn P.wants_reply (advanced P.answer P.after course cpu) cpu.0) }
{
    let number = progress.seats.as_slice()[cpu.0 as usize].calls + 1;
    let last = last_reply(progress.marks.as_slice(), cpu);
    let frame = ask(alloc, number, program, last)?;
    begin_call(progress, alloc, cpu, frame)
}

/// A CPU that goes on is advanced by one item: of the call in progress, or else of its program's
/// next one.
fn advance_program<P: Program>(
    progress: &mut Progress,
    alloc: Global,
    cpu: CpuNo,
    program: &mut P,
) -> Result<(), NoMemory>
    ghost course: { Course P }
    requires within { cpu.0 < CPUS }
    requires tracks { Tracks progress.old course }
    requires going { goes_on course.conf cpu.0 ≡ true }
    requires goes { GoesOn P.wants_reply course cpu.0 }
    requires program { program.old ≡ course.programs cpu.0 }
    ensures tracks { OnOk result (Tracks progress.new
        (advanced P.answer P.after course cpu)) }
    ensures program { OnOk result
        (program.new ≡ (advanced P.answer P.after course cpu).programs cpu.0) }
    ensures next { OnOk result
        (goes_on (advanced P.answer P.after course cpu).conf cpu.0 ≡ true
        → GoesOn P.wants_reply (advanced P.answer P.after course cpu) cpu.0) }
{
    if has_call(progress, cpu.0 as usize) {
        next_item(progress, alloc, cpu)
    } else {
        begin(progress, alloc, cpu, program)
    }
}

/// The CPU is advanced by one item. One that has ended does nothing.
pub(crate) fn advance<P: Program>(
    run: &mut Running<P>,
    alloc: Global,
    cpu: CpuNo,
) -> Result<(), NoMemory>
    ghost course: { Course P }
    requires within { cpu.0 < CPUS }
    requires follows { Follows P.wants_reply run.old course }
    ensures { OnOk result (Follows P.wants_reply run.new
        (advanced P.answer P.after course cpu)) }
{
    let at = cpu.0 as usize;
    if run.progress.seats.as_slice()[at].ended {
        return Ok(());
    }
    match &mut run.programs.as_mut_slice()[at] {
        None => Ok(()),
        Some(program) => advance_program(&mut run.progress, alloc, cpu, program),
    }
}

/// The turn of a CPU: the call in progress comes to its end, or else it makes one whole call. One
/// that has ended does nothing.
pub(crate) fn call<P: Program>(
    run: &mut Running<P>,
    alloc: Global,
    cpu: CpuNo,
) -> Result<(), NoMemory>
    ghost course: { Course P }
    requires within { cpu.0 < CPUS }
    requires follows { Follows P.wants_reply run.old course }
    ensures { OnOk result (Follows P.wants_reply run.new
        (called P.answer P.after course cpu.0)) }
{
    if !is_going(run, cpu.0 as usize) {
        return Ok(());
    }
    advance(run, alloc, cpu)?;
    finish(run, alloc, cpu)
}
