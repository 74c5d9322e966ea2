//! Whether a CPU may be given a call.

ghost use Rattle.std.specs.Prelude.{◌≡◌, is_some, map, IfOk};
ghost use Rattle.std.specs.List.{list_any};
ghost use Rattle.gh_core.specs.Giving.{follows as follows_of, gives as gives_of};
ghost use Rattle.gh_core.specs.Giving.{is_next_number as is_next_number_of};
ghost use Rattle.gh_core.specs.Running.{IsKept, cpu_of, made_of, stands_for};
ghost use Rattle.gh_model.specs.Legal.{exits};
ghost use Rattle.gh_model.specs.Program.{is_exit as is_exit_of};
ghost use Rattle.gh_model.specs.Rows.{cpu_row};

use crate::call_events::{is_between, is_cpu};
use crate::config::Running;
use crate::cpu::Seat;
use crate::current::MadeCall;
use gh_base::{CALL_NUMBERS, CpuNo, Frame, NoMemory};
use gh_model::{Plain, State, StateReads};
use std::alloc::Global;

/// The function number of the exit call.
const EXIT: u64 = 0xc600_8240;

fn is_exit(frame: &Frame) -> bool
    ensures { result ≡ is_exit_of frame.now }
{
    frame.x[0] % 0x1_0000_0000 == EXIT
}

fn has_exited(made: &[MadeCall]) -> bool
    ensures { result ≡ list_any exits (map made_of made.now) }
{
    for call in made {
        if is_exit(&call.frame) {
            return true;
        }
    }
    false
}

/// Whether a number is the next one behind so many calls, and a call may have it.
fn is_next_number(calls: usize, number: u32) -> bool
    ensures { result ≡ is_next_number_of calls number }
{
    number as u128 == calls as u128 + 1 && number <= CALL_NUMBERS
}

/// Whether the CPU is between calls, has no next call and made no exit call, and the number is
/// next.
fn follows(seat: &Seat, number: u32) -> bool
    ensures { result ≡ follows_of number (cpu_of seat.now) }
{
    is_between(seat)
        && seat.next.is_none()
        && !has_exited(seat.made.as_slice())
        && is_next_number(seat.made.len(), number)
}

fn is_cpu_of(boot: &State, cpu: CpuNo) -> bool
    ensures { result ≡ is_some (cpu_row boot.now cpu.0) }
{
    boot.cpu(cpu).is_some()
}

/// Whether the CPU, one of the boot, may be given a call with this number.
pub(crate) fn gives(
    alloc: Global,
    running: &Running,
    cpu: CpuNo,
    number: u32,
) -> Result<bool, NoMemory>
    requires { IsKept running.now }
    ensures { IfOk result (λ may. may ≡ gives_of (stands_for running.now) cpu.0 number) }
{
    if !is_cpu(cpu) {
        return Ok(false);
    }
    let boot = Plain::boot(alloc, &running.boot)?;
    Ok(is_cpu_of(boot.state(), cpu) && follows(running.seat(cpu), number))
}
