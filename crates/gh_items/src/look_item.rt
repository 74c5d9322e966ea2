//! The item of a call that looks a capability up.

ghost use Rattle.std.specs.Prelude.{◌≡◌, ◌<◌, ◌≤◌, length, map, Some};
ghost use Rattle.gh_events.specs.CallEvents.{looked};
ghost use Rattle.gh_events.specs.Config.{came_to};
ghost use Rattle.gh_events.specs.Entries.{shown};
ghost use Rattle.gh_core.specs.Running.{current_of, seen_of};
ghost use Rattle.gh_core.specs.declared.current.CallStage.TheVariants.{Reading};
ghost use Rattle.gh_items.specs.Held.{Held, HeldIn, IsHeld, Sees};
ghost use Rattle.gh_items.specs.Stands.{IsNamed, index_in, looked_call, stage_by};
ghost use Rattle.gh_model.specs.Marks.{Wants, place_after_looks};
ghost use Rattle.gh_model.specs.Word.{look_reply};

use crate::progress::Seat;
use gh_base::{CapWord, Errno, Look, Need, ObjIndex, Serial};
use gh_core::{CallStage, CurrentCall, SeenLook};
use gh_model::{Plain, Word};

/// The place of the last look, or the place before them.
pub(crate) fn last_place(before: u32, seen: &[SeenLook]) -> u32
    ensures { result ≡ place_after_looks before (map seen_of seen.now) }
{
    let mut last = before;
    for one in seen {
        last = one.look.place;
    }
    last
}

/// The index of an object that was made.
fn index_of(places: &[ObjIndex], serial: Serial) -> ObjIndex
    requires some { 0 < serial.0 }
    requires made { serial.0 ≤ length places.now }
    ensures { result.0 ≡ index_in places.now serial.0 }
{
    places[serial.0 as usize - 1]
}

/// The word of a slot, with the index of the object that it names.
fn cap_word(places: &[ObjIndex], word: Word) -> CapWord
    requires { IsNamed places.now word.row }
    ensures { result.0 ≡ shown (index_in places.now) word }
{
    match word.row {
        None => CapWord::empty(word.set_at),
        Some(row) => {
            let object = index_of(places, row.serial);
            CapWord::filled(
                row.valid,
                row.kind,
                row.master,
                object,
                row.rights,
                word.set_at,
            )
        }
    }
}

fn stage_of(reply: Result<Serial, Errno>) -> CallStage
    ensures { result ≡ stage_by reply }
{
    match reply {
        Ok(_) => CallStage::Looked,
        Err(_) => CallStage::Failed,
    }
}

/// The call has one more look.
fn put_look(call: &mut CurrentCall, seen: SeenLook, need: Need)
    requires { length call.old.seen < 2 }
    ensures { call.new ≡ looked_call call.old seen (stage_by (look_reply seen.word need)) }
{
    call.stage = stage_of(seen.word.reply(need));
    call.seen.push(seen);
}

/// The call in its section looks up the slot that it wants next.
pub(crate) fn look(
    plain: &Plain,
    places: &[ObjIndex],
    seat: Seat,
    call: &mut CurrentCall,
    slot: u64,
    need: Need,
)
    ghost from: { Held }
    requires held { IsHeld from call.old }
    requires seen { Sees from plain.now places.now seat }
    requires reading { call.old.stage ≡ Reading }
    requires asked { came_to (current_of call.old) ≡ Wants slot need }
    requires room { length call.old.seen < 2 }
    ensures { HeldIn from call.new (looked from.conf from.at slot) }
{
    let word = plain.word(seat.cspace, slot);
    let place = word
        .set_at
        .max(last_place(seat.place, call.seen.as_slice()));
    let look = Look {
        slot,
        place,
        word: cap_word(places, word),
    };
    put_look(call, SeenLook { look, word }, need);
}
