//! The programs of the VMs.

ghost use Rattle.std.specs.Prelude.{◌≡◌, IfOk};
ghost use Rattle.gh_driver.specs.FileRun.{file_program};
ghost use Rattle.gh_driver.specs.Follows.{first_program, first_programs};
ghost use Rattle.gh_model.specs.Run.{file_of};

use gh_base::{CPUS, CpuNo, Frame, NoMemory, Sequence};
use gh_callfile::VmProgram;
use gh_model::{CpuRow, Line, cpu_row};
use std::alloc::Global;

/// The lines of the call file of a CPU's VM.
fn lines_of<'a>(files: &'a [Sequence<Line>], cpu: CpuNo) -> &'a [Line]
    ensures { result.now ≡ file_of files.now cpu.0 }
{
    if cpu.0 == 0 {
        return &[];
    }
    match files.get(cpu.0 as usize - 1) {
        None => &[],
        Some(lines) => lines.as_slice(),
    }
}

fn copy_of(alloc: Global, line: &Line) -> Result<Line, NoMemory>
    ensures { IfOk result (λ copy. copy ≡ line.now) }
{
    let bytes = Sequence::from_slice(alloc, line.frame.bytes.as_slice())?;
    let frame = Frame {
        x: line.frame.x,
        bytes,
    };
    Ok(Line {
        frame,
        times: line.times,
    })
}

/// A program needs lines of its own.
fn copies_of(alloc: Global, lines: &[Line]) -> Result<Vec<Line>, NoMemory>
    ensures { IfOk result (λ copies. copies.items ≡ lines.now) }
{
    let mut copies = Vec::with_capacity(alloc, lines.len())?;
    for line in lines {
        copies.push(copy_of(alloc, line)?)?;
    }
    Ok(copies)
}

/// The program of the call file of a CPU's VM.
fn vm_program(alloc: Global, files: &[Sequence<Line>], cpu: CpuNo) -> Result<VmProgram, NoMemory>
    ensures { IfOk result (λ program. program ≡ file_program files.now cpu.0) }
{
    let lines = copies_of(alloc, lines_of(files, cpu))?;
    Ok(VmProgram::new(lines))
}

/// The program of a CPU, if it has a row.
fn program_of(
    alloc: Global,
    files: &[Sequence<Line>],
    rows: &[CpuRow],
    cpu: CpuNo,
) -> Result<Option<VmProgram>, NoMemory>
    ensures { IfOk result (λ program. program ≡ first_program files.now rows.now cpu.0) }
{
    if cpu_row(rows, cpu).is_some() {
        let program = vm_program(alloc, files, cpu)?;
        Ok(Some(program))
    } else {
        Ok(None)
    }
}

/// The programs of all CPUs, by number.
pub(crate) fn programs_of(
    alloc: Global,
    files: &[Sequence<Line>],
    rows: &[CpuRow],
) -> Result<Sequence<Option<VmProgram>>, NoMemory>
    ensures { IfOk result (λ programs. programs ≡ first_programs files.now rows.now) }
{
    let mut programs = Sequence::new(alloc);
    for at in 0..CPUS {
        programs.push(program_of(alloc, files, rows, CpuNo(at as u8))?)?;
    }
    Ok(programs)
}
