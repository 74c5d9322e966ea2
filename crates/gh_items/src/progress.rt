//! How far a run has come.

ghost use Rattle.std.specs.Prelude.{◌≡◌, ◌<◌, length, slice_get, None, Some};
ghost use Rattle.gh_items.specs.Stands.{with_call};

use gh_base::{CpuNo, Mark, ObjIndex, Sequence, Serial};
use gh_core::CurrentCall;
use gh_model::{Entry, Plain};

/// What the finished calls of a CPU come to.
#[derive(Clone, Copy, Debug)]
pub struct Seat {
    pub cpu: CpuNo,
    /// The capability space that it looks capabilities up in.
    pub cspace: Serial,
    /// Its finished calls.
    pub calls: u32,
    /// Those of them that opened a read section.
    pub sections: u32,
    /// Its last place: the entries of the history that it has surely seen.
    pub place: u32,
    /// Whether it has made its exit call.
    pub ended: bool,
}

/// A run between two steps of its CPUs.
#[derive(Drop)]
pub struct Progress {
    pub plain: Plain,
    /// The history.
    pub entries: Sequence<Entry>,
    /// The finished calls, in the order in which they ended.
    pub marks: Sequence<Mark>,
    /// The index of each object that was made, by serial from 1 on.
    pub places: Sequence<ObjIndex>,
    /// The place that each object was noted with as it was made, 0 to 7, by serial from 1 on: the
    /// least that no partition had. A partition's objects have their indices in its block.
    pub noted: Sequence<u8>,
    /// The CPUs, by number.
    pub seats: Sequence<Seat>,
    /// Their calls in progress.
    pub calls: Sequence<Option<CurrentCall>>,
}

/// What the finished calls of a CPU come to.
pub(crate) fn seat_of(progress: &Progress, cpu: CpuNo) -> Seat
    requires { cpu.0 < length progress.now.seats }
    ensures { slice_get progress.now.seats cpu.0 ≡ Some result }
{
    progress.seats.as_slice()[cpu.0 as usize]
}

/// Another call of a CPU is in progress.
pub(crate) fn put_call(progress: &mut Progress, cpu: CpuNo, call: CurrentCall)
    requires { cpu.0 < length progress.old.calls }
    ensures { progress.new ≡ with_call progress.old cpu.0 (Some call) }
{
    progress.calls.set(cpu.0 as usize, Some(call));
}

/// The call of a CPU that is in progress is taken out.
pub(crate) fn take_call(progress: &mut Progress, cpu: CpuNo) -> Option<CurrentCall>
    requires { cpu.0 < length progress.old.calls }
    ensures taken { progress.new ≡ with_call progress.old cpu.0 None }
    ensures back { progress.old ≡ with_call progress.new cpu.0 result }
{
    progress.calls.as_mut_slice()[cpu.0 as usize].take()
}
