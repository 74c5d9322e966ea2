//! How a CPU is given its next call.

ghost use Rattle.std.specs.Prelude.{◌≡◌, Ok, Err, IfOk};
ghost use Rattle.gh_core.specs.Running.{cpu_of, made_of};
ghost use Rattle.gh_events.specs.Start.{refused_frame as refused_frame_of, with_next};
ghost use Rattle.gh_model.specs.Registers.{call_of};

use crate::cpu::Seat;
use crate::current::{GivenCall, MadeCall, copy_of_frame};
use gh_base::{BoundedSequence, Call, CpuNo, End, Errno, Frame, Mark, NoMemory, Reply};
use gh_frames::read_call;
use std::alloc::Global;

/// A call whose frame is refused, finished as soon as it is given.
fn refused_frame(
    alloc: Global,
    cpu: CpuNo,
    number: u32,
    frame: &Frame,
    errno: Errno,
) -> Result<MadeCall, NoMemory>
    ensures { IfOk result (λ made. made_of made ≡ refused_frame_of cpu.0 number frame.now errno) }
{
    let frame = copy_of_frame(alloc, frame)?;
    let mark = Mark {
        cpu,
        number,
        section: 0,
        looks: BoundedSequence::new(),
        end: End::Frame,
        reply: Reply::refusal(errno),
    };
    Ok(MadeCall {
        mark,
        frame,
        seen: BoundedSequence::new(),
    })
}

/// The CPU with a next call.
fn next_seat(
    alloc: Global,
    seat: &Seat,
    cpu: CpuNo,
    number: u32,
    frame: &Frame,
    call: Call,
) -> Result<Seat, NoMemory>
    ensures { IfOk result (λ given. cpu_of given
        ≡ with_next cpu.0 number frame.now (cpu_of seat.now) (Ok call)) }
{
    let mut given = seat.copied(alloc)?;
    let frame = copy_of_frame(alloc, frame)?;
    given.next = Some(GivenCall {
        number,
        frame,
        call,
    });
    Ok(given)
}

/// The CPU with a call whose frame is refused.
fn refused_seat(
    alloc: Global,
    seat: &Seat,
    cpu: CpuNo,
    number: u32,
    frame: &Frame,
    errno: Errno,
) -> Result<Seat, NoMemory>
    ensures { IfOk result (λ given. cpu_of given
        ≡ with_next cpu.0 number frame.now (cpu_of seat.now) (Err errno)) }
{
    let mut given = seat.copied(alloc)?;
    let made = refused_frame(alloc, cpu, number, frame, errno)?;
    given.made.push(made)?;
    Ok(given)
}

/// The CPU that is given a call of this number and frame.
pub(crate) fn given_seat(
    alloc: Global,
    seat: &Seat,
    cpu: CpuNo,
    number: u32,
    frame: &Frame,
) -> Result<Seat, NoMemory>
    ensures { IfOk result (λ given. cpu_of given
        ≡ with_next cpu.0 number frame.now (cpu_of seat.now) (call_of frame.now)) }
{
    match read_call(frame) {
        Ok(call) => next_seat(alloc, seat, cpu, number, frame, call),
        Err(errno) => refused_seat(alloc, seat, cpu, number, frame, errno),
    }
}
