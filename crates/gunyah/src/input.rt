//! Reads the files of a step: a boot file, a schedule and call files.

ghost use Rattle.std.specs.Prelude.{◌≡◌, ◌<◌, ◌≤◌, ◌+◌, ◌-◌};
ghost use Rattle.std.specs.Prelude.{◌^◌, ◌∷◌, [], length, true, IfOk, IfSome};
ghost use Rattle.std.specs.List.{All, position};
ghost use Rattle.gh_model.specs.Told.{told_number};
ghost use Rattle.gh_callfile.specs.CallFile.{calls_of_lines};
ghost use Rattle.gh_callfile.specs.Schedule.{is_cpu_of, makes_manager};
ghost use Rattle.gunyah.specs.Input.{ReadsAs, boot_input, without_manager, schedule_input};
ghost use Rattle.gunyah.specs.Input.{HasItsCpus, vm_lines, call_file, calls_on, input_of};
ghost use Rattle.gunyah.specs.Outcome.{ReadsTexts};

use crate::read_err::{BadFile, ReadErr};
use gh_base::{CALL_FILE_CALLS, CpuNo, Sequence};
use gh_bootfile::read_boot;
use gh_callfile::{read_calls, read_schedule};
use gh_model::{Boot, BootLine, FileErr, Line};
use std::alloc::Global;

/// What the files of a step hold: a boot file, a schedule of its CPUs, and for each VM of it from
/// the first on the lines of its call file. A VM behind the last file has none.
#[derive(Drop)]
pub struct StepInput {
    pub boot: Boot,
    pub schedule: Sequence<CpuNo>,
    pub calls: Sequence<Sequence<Line>>,
}

/// The number of a line behind the first and so many others. It stands still at the largest of 32
/// bits.
fn line_number(lines: usize) -> u32
    requires { lines < 2 ^ 63 }
    ensures { result ≡ told_number (lines + 2) }
{
    (lines + 2).min(u32::MAX as usize) as u32
}

/// Where the line of the resource manager is.
fn manager_line(lines: &[BootLine]) -> Option<usize>
    ensures place { result ≡ position makes_manager lines.now }
    ensures within { IfSome result (λ at. at < length lines.now) }
{
    lines
        .iter()
        .position(|line| matches!(line, BootLine::Rm { .. }))
}

/// By now a boot file has no resource manager.
fn refuse_manager(boot: Boot) -> Result<Boot, ReadErr>
    ensures { ReadsAs (without_manager boot) result }
{
    match manager_line(boot.lines()) {
        None => Ok(boot),
        Some(at) => Err(ReadErr::Bad(BadFile::Boot(line_number(at)))),
    }
}

fn boot(alloc: Global, text: &[u8]) -> Result<Boot, ReadErr>
    ensures { ReadsAs (boot_input text.now) result }
{
    match read_boot(alloc, text) {
        Ok(boot) => refuse_manager(boot),
        Err(FileErr::Bad(line)) => Err(ReadErr::Bad(BadFile::Boot(line))),
        Err(FileErr::NoMemory) => Err(ReadErr::NoMemory),
    }
}

fn schedule(alloc: Global, text: &[u8], boot: &Boot) -> Result<Sequence<CpuNo>, ReadErr>
    ensures reads { ReadsAs (schedule_input boot.now text.now) result }
    ensures exist { IfOk result
        (λ cpus. All (λ cpu. is_cpu_of boot.now cpu.0 ≡ true) cpus) }
{
    match read_schedule(alloc, text, boot) {
        Ok(items) => Ok(Sequence::from_vec(items)),
        Err(FileErr::Bad(item)) => Err(ReadErr::Bad(BadFile::Schedule(item))),
        Err(FileErr::NoMemory) => Err(ReadErr::NoMemory),
    }
}

/// VMs of a boot file.
fn vms(lines: &[BootLine]) -> usize
    ensures { result ≡ vm_lines lines.now }
{
    lines
        .iter()
        .filter(|line| matches!(line, BootLine::Vm { .. }))
        .count()
}

/// The calls of lines, repeats counted.
fn count_calls(lines: &[Line]) -> u128
    ensures { result ≡ calls_of_lines lines.now }
{
    lines.iter().map(|line| line.times as u128).sum()
}

/// A call file by its number among the files.
fn calls(
    alloc: Global,
    text: &[u8],
    has_vm: bool,
    number: u32,
    room: u32,
) -> Result<Sequence<Line>, ReadErr>
    ensures { ReadsAs (call_file has_vm number room text.now) result }
{
    if !has_vm {
        return Err(ReadErr::Bad(BadFile::Calls(number, 0)));
    }
    match read_calls(alloc, text, room) {
        Ok(lines) => Ok(Sequence::from_vec(lines)),
        Err(FileErr::Bad(line)) => Err(ReadErr::Bad(BadFile::Calls(number, line))),
        Err(FileErr::NoMemory) => Err(ReadErr::NoMemory),
    }
}

/// The room that these lines leave.
fn room_left(room: u32, lines: &[Line]) -> u32
    ensures { result ≡ room - calls_of_lines lines.now }
{
    (room as u128).saturating_sub(count_calls(lines)) as u32
}

/// The call files, for VMs in order.
fn call_files(
    alloc: Global,
    texts: &[Sequence<u8>],
    vms: usize,
) -> Result<Sequence<Sequence<Line>>, ReadErr>
    requires { length texts.now ≤ 8 }
    ensures { ReadsAs (calls_on vms 65536 [] texts.now) result }
{
    let mut files: Sequence<Sequence<Line>> = Sequence::new(alloc);
    let mut room = CALL_FILE_CALLS;
    for text in texts {
        let has_vm = files.len() < vms;
        let lines = calls(alloc, text.as_slice(), has_vm, files.len() as u32 + 3, room)?;
        room = room_left(room, lines.as_slice());
        files.push(lines)?;
    }
    Ok(files)
}

/// A boot file, a schedule and call files, read in this order.
fn forms(
    alloc: Global,
    boot_text: &[u8],
    schedule_text: &[u8],
    call_texts: &[Sequence<u8>],
) -> Result<StepInput, ReadErr>
    requires { length call_texts.now ≤ 8 }
    ensures reads { ReadsAs (input_of (boot_text.now ∷ schedule_text.now ∷ call_texts.now))
        result }
    ensures exist { IfOk result HasItsCpus }
{
    let boot = boot(alloc, boot_text)?;
    let schedule = schedule(alloc, schedule_text, &boot)?;
    let vms = vms(boot.lines());
    let calls = call_files(alloc, call_texts, vms)?;
    Ok(StepInput {
        boot,
        schedule,
        calls,
    })
}

/// The files of a step, each of which isn't too large: the boot file, the schedule, and up to eight
/// call files.
pub(crate) fn read_input(alloc: Global, texts: &[Sequence<u8>]) -> Result<StepInput, ReadErr>
    requires least { 2 ≤ length texts.now }
    requires most { length texts.now ≤ 10 }
    ensures reads { ReadsAs (input_of texts.now) result }
    ensures texts { ReadsTexts result }
    ensures exist { IfOk result HasItsCpus }
{
    forms(alloc, texts[0].as_slice(), texts[1].as_slice(), &texts[2..])
}
