//! The places that a CPU has come to.

ghost use Rattle.std.specs.Prelude.{◌≡◌, map};
ghost use Rattle.gh_events.specs.Config.{last_place as last_place_of};
ghost use Rattle.gh_core.specs.Running.{cpu_of, made_of, seen_of};
ghost use Rattle.gh_model.specs.Marks.{place as place_of_end, place_after as place_after_of};
ghost use Rattle.gh_model.specs.Marks.{place_after_call as place_after_call_of};
ghost use Rattle.gh_model.specs.Marks.{place_after_looks as place_after_looks_of};
ghost use Rattle.gh_model.specs.Word.{is_slot as is_slot_of};

use crate::cpu::Seat;
use crate::current::{MadeCall, SeenLook};
use gh_base::{CSPACE_SLOTS, End};

/// Whether a capability number names a slot.
pub(crate) fn is_slot(slot: u64) -> bool
    ensures { result ≡ is_slot_of slot }
{
    1 <= slot && slot <= CSPACE_SLOTS as u64
}

/// The place that an end gives its CPU.
fn place_of(end: &End) -> Option<u32>
    ensures { result ≡ place_of_end end.now }
{
    match end {
        End::Frame | End::Refused | End::Dead => None,
        End::Act { place } | End::Short { place, .. } => Some(*place),
        End::Entry { number } => Some(*number),
    }
}

/// The place of the last of these looks, or the place before them.
fn place_after_looks(last: u32, seen: &[SeenLook]) -> u32
    ensures { result ≡ place_after_looks_of last (map seen_of seen.now) }
{
    let mut place = last;
    for look in seen {
        place = look.look.place;
    }
    place
}

fn place_after_call(last: u32, made: &MadeCall) -> u32
    ensures { result ≡ place_after_call_of last (made_of made.now) }
{
    match place_of(&made.mark.end) {
        Some(place) => place,
        None => place_after_looks(last, made.seen.as_slice()),
    }
}

/// A CPU's last place after its calls so far, 0 before the first.
fn place_after(made: &[MadeCall]) -> u32
    ensures { result ≡ place_after_of (map made_of made.now) }
{
    let mut place = 0;
    for call in made {
        place = place_after_call(place, call);
    }
    place
}

/// A CPU's last place after these looks of its call in progress.
pub(crate) fn last_place(seat: &Seat, seen: &[SeenLook]) -> u32
    ensures { result ≡ last_place_of (cpu_of seat.now) (map seen_of seen.now) }
{
    place_after_looks(place_after(seat.made.as_slice()), seen)
}
