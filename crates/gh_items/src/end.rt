//! The end of a call.

ghost use Rattle.std.specs.Prelude.{◌≡◌, ◌+◌, ◌<◌, length, map, nat_lt, slice_get, IfOk, OnOk, Some};
ghost use Rattle.std.specs.Option.{unwrap_or};
ghost use Rattle.gh_base.specs.declared.limits.TheConstants.{CPUS};
ghost use Rattle.gh_core.specs.Running.{current_of, seen_of};
ghost use Rattle.gh_items.specs.Stands.{looks_of, mark_at, seat_behind, with_end};
ghost use Rattle.gh_model.specs.Marks.{place, place_after_looks};

use crate::look_item::last_place;
use crate::progress::{Progress, Seat};
use gh_base::{BoundedSequence, CpuNo, End, Look, Mark, NoMemory, Reply};
use gh_callfile::is_exit;
use gh_core::{CurrentCall, SeenLook};

/// The looks alone.
fn looks(seen: &BoundedSequence<SeenLook, 2>) -> BoundedSequence<Look, 2>
    ensures { result ≡ looks_of seen.now }
{
    let mut looks = BoundedSequence::new();
    let count = seen.len();
    let items = seen.as_slice();
    prove!(count <= 2);
    for one in items {
        looks.push(one.look);
    }
    looks
}

/// The CPU's last place behind a call that ends so.
fn place_behind(before: u32, seen: &[SeenLook], end: &End) -> u32
    ensures { result ≡ unwrap_or (place end.now) (place_after_looks before (map seen_of seen.now)) }
{
    match end {
        End::Frame | End::Refused | End::Dead => last_place(before, seen),
        End::Act { place } => *place,
        End::Short { place, held: _ } => *place,
        End::Entry { number } => *number,
    }
}

/// What the CPU's finished calls come to with this one.
fn seat_behind(seat: Seat, call: &CurrentCall, end: &End) -> Seat
    requires calls { seat.calls + 1 < 4294967296 }
    requires sections { seat.sections + 1 < 4294967296 }
    ensures { result ≡ seat_behind seat call.now end.now }
{
    let opened = if call.seen.is_empty() { 0 } else { 1 };
    Seat {
        calls: seat.calls + 1,
        sections: seat.sections + opened,
        place: place_behind(seat.place, call.seen.as_slice(), end),
        ended: seat.ended || is_exit(&call.given.frame),
        ..seat
    }
}

/// The mark of a call that ends so.
fn mark(cpu: CpuNo, call: &CurrentCall, end: End, reply: Reply) -> Mark
    ensures { result ≡ mark_at cpu.0 call.now end reply }
{
    Mark {
        cpu,
        number: call.given.number,
        section: call.section,
        looks: looks(&call.seen),
        end,
        reply,
    }
}

/// The call has its end. What it left of its CPU stands in the progress.
pub(crate) fn end_call(
    progress: &mut Progress,
    cpu: CpuNo,
    seat: Seat,
    call: &CurrentCall,
    end: End,
    reply: Reply,
) -> Result<(), NoMemory>
    requires seats { cpu.0 < length progress.old.seats }
    requires calls { cpu.0 < length progress.old.calls }
    requires counts { seat.calls + 1 < 4294967296 }
    requires sections { seat.sections + 1 < 4294967296 }
    ensures { OnOk result (progress.new ≡ with_end progress.old cpu.0 seat call.now end reply) }
{
    let at = cpu.0 as usize;
    let behind = seat_behind(seat, call, &end);
    progress.marks.push(mark(cpu, call, end, reply))?;
    progress.seats.set(at, behind);
    progress.calls.set(at, None);
    Ok(())
}
