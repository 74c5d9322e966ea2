//! Walks along the rows of a worked history, on the slow machine.

ghost use Rattle.std.specs.Prelude.{◌≡◌, ◌+◌, ◌<◌, IfOk, IfSome, OnOk, length, slice_get, true};
ghost use Rattle.gh_base.specs.declared.limits.TheConstants.{CPUS};
ghost use Rattle.gh_events.specs.Config.{Config};
ghost use Rattle.gh_events.specs.Sound.{made_by};
ghost use Rattle.gh_events.specs.Start.{MayGive};
ghost use Rattle.gh_items.specs.Calling.{begun};
ghost use Rattle.gh_items.specs.Stands.{Stands};
ghost use Rattle.gh_schedules.specs.Items.{item};
ghost use Rattle.gh_schedules.specs.Schedule.{boot_start};
ghost use Rattle.gh_schedules.specs.Trace.{after_all};
ghost use Rattle.worked_items.specs.Walk.{GoesOn, behind_some, conf_at, frame_of};

use crate::facts::{is_behind, stands};
use crate::row::{Behind, Row};
use gh_base::{CALL_NUMBERS, CPUS, CpuNo, Frame, NoMemory, Sequence};
use gh_items::{Progress, begin_call, begin_run, next_item};
use gh_model::Boot;
use gh_schedules::starts_are_steady;
use std::alloc::Global;

/// The frame with these registers x0 to x3, without bytes.
fn frame_of(alloc: Global, x: [u64; 4]) -> Frame
    ensures { result ≡ frame_of x }
{
    Frame {
        x: [x[0], x[1], x[2], x[3], 0, 0, 0, 0, 0],
        bytes: Sequence::new(alloc),
    }
}

/// The run before its first call.
fn start(alloc: Global, boot: &Boot) -> Result<Progress, NoMemory>
    ensures { IfOk result (λ progress. GoesOn progress (boot_start boot.now)) }
{
    starts_are_steady();
    let _lines = boot.lines();
    begin_run(alloc, boot)
}

/// Whether the CPU is one of the boot, between calls, and has made no exit call.
fn may_begin(progress: &Progress, cpu: CpuNo) -> bool
    ghost conf: { Config }
    requires stands { Stands progress.now conf }
    requires within { cpu.0 < CPUS }
    ensures { result ≡ true → MayGive conf cpu.0 (length (made_by conf cpu.0) + 1) }
{
    let at = cpu.0 as usize;
    let seat = progress.seats.as_slice()[at];
    seat.cspace.0 > 0
        && !seat.ended
        && seat.calls < CALL_NUMBERS
        && progress.calls.as_slice()[at].is_none()
}

/// The CPU's next call begins with its first item. False where it may not.
fn begin(progress: &mut Progress, alloc: Global, cpu: CpuNo, x: [u64; 4]) -> Result<bool, NoMemory>
    ghost conf: { Config }
    requires goes_on { GoesOn progress.old conf }
    requires within { cpu.0 < CPUS }
    ensures { IfOk result
        (λ made. made ≡ true → GoesOn progress.new (begun conf cpu.0 (frame_of x))) }
{
    if !may_begin(progress, cpu) {
        return Ok(false);
    }
    begin_call(progress, alloc, cpu, frame_of(alloc, x))?;
    Ok(true)
}

/// The CPU's next item.
fn make(progress: &mut Progress, alloc: Global, cpu: CpuNo) -> Result<(), NoMemory>
    ghost conf: { Config }
    requires goes_on { GoesOn progress.old conf }
    requires within { cpu.0 < CPUS }
    ensures { OnOk result (GoesOn progress.new (after_all conf (item conf cpu.0))) }
{
    next_item(progress, alloc, cpu)
}

/// The CPU's next call begins, as the row says.
fn begins(
    progress: &mut Progress,
    alloc: Global,
    cpu: CpuNo,
    x: [u64; 4],
    behind: Behind,
) -> Result<bool, NoMemory>
    ghost conf: { Config }
    requires { GoesOn progress.old conf }
    ensures { IfOk result
        (λ came. came ≡ true → GoesOn progress.new (begun conf cpu.0 (frame_of x))) }
{
    if cpu.0 as usize >= CPUS || !begin(progress, alloc, cpu, x)? {
        return Ok(false);
    }
    Ok(is_behind(progress, cpu, behind))
}

/// The CPU's next item comes as the row says.
fn makes(
    progress: &mut Progress,
    alloc: Global,
    cpu: CpuNo,
    behind: Behind,
) -> Result<bool, NoMemory>
    ghost conf: { Config }
    requires { GoesOn progress.old conf }
    ensures { IfOk result
        (λ came. came ≡ true → GoesOn progress.new (after_all conf (item conf cpu.0))) }
{
    if cpu.0 as usize >= CPUS {
        return Ok(false);
    }
    make(progress, alloc, cpu)?;
    Ok(is_behind(progress, cpu, behind))
}

/// Whether the row at this place comes as it says.
fn follow(progress: &mut Progress, alloc: Global, rows: &[Row], at: usize) -> Result<bool, NoMemory>
    ghost conf: { Config }
    requires goes_on { GoesOn progress.old conf }
    requires within { at < length rows.now }
    ensures { IfOk result (λ came. came ≡ true
        → GoesOn progress.new (behind_some conf (slice_get rows.now at))) }
{
    match rows[at] {
        Row::Begins(cpu, x, behind) => begins(progress, alloc, cpu, x, behind),
        Row::Makes(cpu, behind) => makes(progress, alloc, cpu, behind),
        Row::Has(fact) => Ok(stands(progress, fact)),
    }
}

/// The run behind the rows, from the boot on.
#[tactic(auto, using(crate::proofs::WalkLemmas::behind_none, crate::proofs::WalkLemmas::behind_more))]
fn run_from(alloc: Global, boot: &Boot, rows: &[Row]) -> Result<Option<Progress>, NoMemory>
    ghost conf: { Config }
    requires { conf ≡ boot_start boot.now }
    ensures { IfOk result (λ end. IfSome end
        (λ progress. GoesOn progress (conf_at conf rows.now (length rows.now)))) }
{
    let mut progress = start(alloc, boot)?;
    for at in 0..rows.len() {
        if !follow(&mut progress, alloc, rows, at)? {
            return Ok(None);
        }
    }
    Ok(Some(progress))
}

/// The run behind the rows. None where a row doesn't come as it says.
pub fn run_along(alloc: Global, boot: &Boot, rows: &[Row]) -> Result<Option<Progress>, NoMemory>
    ensures { IfOk result (λ end. IfSome end (λ progress.
        GoesOn progress (conf_at (boot_start boot.now) rows.now (length rows.now)))) }
{
    run_from(alloc, boot, rows)
}
