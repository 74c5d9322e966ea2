//! A run by a schedule of items, and then by whole calls.

ghost use Rattle.std.specs.List.{All, fold};
ghost use Rattle.std.specs.Prelude.{◌≡◌, ◌<◌, ℕ, false, length, true, IfOk, OnOk};
ghost use Rattle.gh_base.specs.declared.limits.TheConstants.{CPUS};
ghost use Rattle.gh_callfile.specs.Schedule.{is_cpu_of};
ghost use Rattle.gh_callfile.specs.VmProgress.{Progress, has_made_one, vm_after, vm_answer};
ghost use Rattle.gh_driver.specs.FileRun.{file_program, file_run};
ghost use Rattle.gh_driver.specs.Follows.{Follows, IsCpuNumber, is_going, item_at};
ghost use Rattle.gh_model.specs.Order.{rows_in_order};
ghost use Rattle.gh_model.specs.Program.{last_number};
ghost use Rattle.gh_schedules.specs.Course.{Course, begin};
ghost use Rattle.gh_schedules.specs.Schedule.{advanced, boot_start, round as round_of, rounds, scheduled};

use crate::call::{advance, call, is_going};
use crate::programs::programs_of;
use crate::running::Running;
use gh_base::{CALL_NUMBERS, CPUS, CpuNo, Mark, NoMemory, Sequence};
use gh_callfile::{VmProgram, cpus_have_rows};
use gh_items::begin_run;
use gh_model::{Boot, CpuRow, Entry, Line, Plain, Program};
use gh_schedules::starts_are_steady;
use std::alloc::Global;

/// What a run came to.
#[derive(Drop)]
pub struct Finished {
    pub history: Sequence<Entry>,
    /// The calls, in the order in which they ended.
    pub marks: Sequence<Mark>,
    pub state: Plain,
}

/// The item of the schedule at this place.
fn scheduled_item<P: Program>(
    run: &mut Running<P>,
    alloc: Global,
    schedule: &[CpuNo],
    at: usize,
) -> Result<(), NoMemory>
    ghost course: { Course P }
    requires place { at < length schedule.now }
    requires within { All IsCpuNumber schedule.now }
    requires follows { Follows P.wants_reply run.old course }
    ensures { OnOk result (Follows P.wants_reply run.new
        (advanced P.answer P.after course (item_at schedule.now at))) }
{
    advance(run, alloc, schedule[at])
}

/// The items of the schedule, one after the other.
fn run_items<P: Program>(
    run: &mut Running<P>,
    alloc: Global,
    schedule: &[CpuNo],
) -> Result<(), NoMemory>
    ghost course: { Course P }
    requires within { All IsCpuNumber schedule.now }
    requires follows { Follows P.wants_reply run.old course }
    ensures { OnOk result (Follows P.wants_reply run.new
        (fold (advanced P.answer P.after) course schedule.now)) }
{
    for at in 0..schedule.len() {
        scheduled_item(run, alloc, schedule, at)?;
    }
    Ok(())
}

/// One round: each CPU in turn. So many were made before: they say from which course it goes on.
fn round<P: Program>(run: &mut Running<P>, alloc: Global, done: u32) -> Result<(), NoMemory>
    ghost course: { Course P }
    requires { Follows P.wants_reply run.old course }
    ensures { OnOk result (Follows P.wants_reply run.new
        (round_of P.answer P.after course)) }
{
    let _ = done;
    for at in 0..CPUS {
        call(run, alloc, CpuNo(at as u8))?;
    }
    Ok(())
}

/// Whether no CPU has more calls to make.
fn all_ended<P>(run: &Running<P>) -> bool
    requires programs { length run.now.programs ≡ CPUS }
    requires seats { length run.now.progress.seats ≡ CPUS }
    ensures { result ≡ true → (at : ℕ) → at < CPUS → is_going run.now at ≡ false }
{
    for at in 0..CPUS {
        if is_going(run, at) {
            return false;
        }
    }
    true
}

/// Round after round, until all have ended.
fn run_rounds<P: Program>(run: &mut Running<P>, alloc: Global) -> Result<(), NoMemory>
    ghost course: { Course P }
    requires { Follows P.wants_reply run.old course }
    ensures { OnOk result (Follows P.wants_reply run.new
        (rounds P.answer P.after last_number course)) }
{
    for done in 0..CALL_NUMBERS {
        if all_ended(run) {
            return Ok(());
        }
        round(run, alloc, done)?;
    }
    Ok(())
}

/// The CPUs in rising order, that of the resource manager first.
pub(crate) fn cpus(alloc: Global, rows: &[CpuRow]) -> Result<Sequence<CpuRow>, NoMemory>
    ensures { IfOk result (λ cpus. cpus ≡ rows_in_order rows.now) }
{
    let mut cpus: Vec<CpuRow> = rows
        .iter()
        .copied()
        .filter(|row| row.cpu.0 == 0)
        .collect(alloc)?;
    let vms: Vec<CpuRow> = rows
        .iter()
        .copied()
        .filter(|row| row.cpu.0 > 0)
        .collect(alloc)?;
    cpus.extend_from_slice(vms.as_slice())?;
    Ok(Sequence::from_vec(cpus))
}

/// The run before its first call.
fn start(
    alloc: Global,
    boot: &Boot,
    files: &[Sequence<Line>],
) -> Result<Running<VmProgram>, NoMemory>
    ensures { IfOk result (λ run. Follows has_made_one run
        (begin (boot_start boot.now) (file_program files.now))) }
{
    starts_are_steady();
    let _lines = boot.lines();
    let progress = begin_run(alloc, boot)?;
    let programs = programs_of(alloc, files, progress.plain.state().cpus.as_slice())?;
    Ok(Running { progress, programs })
}

/// The run behind the schedule's items.
fn run_scheduled(
    alloc: Global,
    boot: &Boot,
    schedule: &[CpuNo],
    files: &[Sequence<Line>],
) -> Result<Running<VmProgram>, NoMemory>
    ghost course: { Course Progress }
    requires cpus { All IsCpuNumber schedule.now }
    requires course { course ≡ begin (boot_start boot.now) (file_program files.now) }
    ensures { IfOk result (λ run. Follows has_made_one run
        (fold (advanced vm_answer vm_after) course schedule.now)) }
{
    let mut run = start(alloc, boot, files)?;
    run_items(&mut run, alloc, schedule)?;
    Ok(run)
}

/// The run from there on, to its end.
fn run_programs(
    alloc: Global,
    boot: &Boot,
    schedule: &[CpuNo],
    files: &[Sequence<Line>],
) -> Result<Running<VmProgram>, NoMemory>
    ghost course: { Course Progress }
    requires cpus { All IsCpuNumber schedule.now }
    requires course { course ≡ scheduled vm_answer vm_after boot.now (file_program files.now)
        schedule.now }
    ensures { IfOk result (λ run. Follows has_made_one run
        (rounds vm_answer vm_after last_number course)) }
{
    let mut run = run_scheduled(alloc, boot, schedule, files)?;
    run_rounds(&mut run, alloc)?;
    Ok(run)
}

/// Runs the programs of the call files: the CPUs advance by one item each as the schedule says;
/// then they make one whole call each in rising order, round after round, until all have ended.
/// Each CPU of the schedule is one of the boot file.
pub fn run_step(
    alloc: Global,
    boot: &Boot,
    schedule: &[CpuNo],
    files: &[Sequence<Line>],
) -> Result<Finished, NoMemory>
    requires { All (λ cpu. is_cpu_of boot.now cpu.0 ≡ true) schedule.now }
    ensures history { IfOk result
        (λ done. done.history ≡ (file_run boot.now schedule.now files.now).entries) }
    ensures marks { IfOk result
        (λ done. done.marks ≡ (file_run boot.now schedule.now files.now).marks) }
    ensures state { IfOk result
        (λ done. done.state ≡ (file_run boot.now schedule.now files.now).state) }
{
    cpus_have_rows(boot);
    let _lines = boot.lines();
    let run = run_programs(alloc, boot, schedule, files)?;
    Ok(Finished {
        history: run.progress.entries,
        marks: run.progress.marks,
        state: run.progress.plain,
    })
}
