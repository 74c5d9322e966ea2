//! The item of a call whose frame is refused.

ghost use Rattle.std.specs.Prelude.{◌≡◌, ◌+◌, ◌<◌, length, Err, OnOk};
ghost use Rattle.gh_base.specs.declared.limits.TheConstants.{CPUS};
ghost use Rattle.gh_events.specs.Config.{Config};
ghost use Rattle.gh_events.specs.Start.{MayGive, given};
ghost use Rattle.gh_items.specs.Calling.{AddsMark};
ghost use Rattle.gh_items.specs.Stands.{Stands, frame_mark, seat_refused, with_refused};
ghost use Rattle.gh_model.specs.Registers.{call_of};

use crate::progress::{Progress, Seat, seat_of};
use gh_base::{BoundedSequence, CpuNo, End, Errno, Frame, Mark, NoMemory, Reply};
use gh_callfile::is_exit;

/// The mark of a call whose frame is refused.
fn mark(cpu: CpuNo, number: u32, errno: Errno) -> Mark
    ensures { result ≡ frame_mark cpu.0 number errno }
{
    Mark {
        cpu,
        number,
        section: 0,
        looks: BoundedSequence::new(),
        end: End::Frame,
        reply: Reply::refusal(errno),
    }
}

/// What the CPU's finished calls come to with this one.
fn seat_behind(seat: Seat, frame: &Frame) -> Seat
    requires { seat.calls + 1 < 4294967296 }
    ensures { result ≡ seat_refused seat frame.now }
{
    Seat {
        calls: seat.calls + 1,
        ended: seat.ended || is_exit(frame),
        ..seat
    }
}

/// The call has its end. What it left of its CPU stands in the progress.
fn end_frame(
    progress: &mut Progress,
    cpu: CpuNo,
    seat: Seat,
    number: u32,
    frame: &Frame,
    errno: Errno,
) -> Result<(), NoMemory>
    requires seats { cpu.0 < length progress.old.seats }
    requires counts { seat.calls + 1 < 4294967296 }
    ensures { OnOk result
        (progress.new ≡ with_refused progress.old cpu.0 seat number frame.now errno) }
{
    progress.marks.push(mark(cpu, number, errno))?;
    progress.seats.set(cpu.0 as usize, seat_behind(seat, frame));
    Ok(())
}

/// The CPU is given a call whose frame is refused, which ends it.
pub(crate) fn refuse_frame(
    progress: &mut Progress,
    cpu: CpuNo,
    number: u32,
    frame: &Frame,
    errno: Errno,
) -> Result<(), NoMemory>
    ghost conf: { Config }
    requires stands { Stands progress.old conf }
    requires within { cpu.0 < CPUS }
    requires may { MayGive conf cpu.0 number }
    requires refused { call_of frame.now ≡ Err errno }
    ensures stands { OnOk result (Stands progress.new (given conf cpu.0 number frame.now)) }
    ensures marks { OnOk result (AddsMark progress.old.marks progress.new.marks) }
{
    let seat = seat_of(progress, cpu);
    end_frame(progress, cpu, seat, number, frame, errno)
}
