//! The items of a call in its section that pin what it was granted, undo a pin that came too late,
//! and leave the section for the act.

ghost use Rattle.std.specs.Prelude.{◌≡◌, is_some, map, None, Some};
ghost use Rattle.std.specs.List.{last_or};
ghost use Rattle.gh_events.specs.CallEvents.{left, pinned, undone};
ghost use Rattle.gh_events.specs.Config.{seen_index};
ghost use Rattle.gh_core.specs.Running.{seen_of};
ghost use Rattle.gh_core.specs.declared.current.CallStage.TheVariants.{DeadPin, Looked, Reading};
ghost use Rattle.gh_items.specs.Held.{Held, HeldIn, IsHeld};
ghost use Rattle.gh_items.specs.Stands.{pin_stage};
ghost use Rattle.gh_model.specs.Act.{granted};

use gh_base::Serial;
use gh_core::{CallStage, CurrentCall, SeenLook};
use gh_model::{Plain, Word};

/// The object that a word grants.
pub(crate) fn granted(word: Word) -> Serial
    ensures { result ≡ granted word }
{
    match word.row {
        None => Serial(0),
        Some(row) => row.serial,
    }
}

/// Where a pin leads: it is too late on the word of a retired object.
fn pin_stage(dead: bool) -> CallStage
    ensures { result ≡ pin_stage dead }
{
    if dead {
        CallStage::DeadPin
    } else {
        CallStage::Reading
    }
}

/// The call pins the object that its last look granted.
pub(crate) fn pin(plain: &Plain, call: &mut CurrentCall, last: SeenLook)
    ghost from: { Held }
    requires held { IsHeld from call.old }
    requires state { plain.now ≡ from.progress.plain }
    requires looked { call.old.stage ≡ Looked }
    requires last { last_or None (map seen_of call.old.seen) ≡ Some (seen_of last) }
    ensures { HeldIn from call.new (pinned from.conf from.at (seen_index (seen_of last))) }
{
    let dead = plain.retired(granted(last.word)).is_some();
    call.stage = pin_stage(dead);
}

/// The call undoes its pin on a dead word.
pub(crate) fn undo(call: &mut CurrentCall, last: SeenLook)
    ghost from: { Held }
    requires held { IsHeld from call.old }
    ensures { HeldIn from call.new (undone from.conf from.at (seen_index (seen_of last))) }
{
    let _ = last;
    call.stage = CallStage::Undone;
}

/// The call leaves its section, and comes to its act.
pub(crate) fn leave(call: &mut CurrentCall)
    ghost from: { Held }
    requires held { IsHeld from call.old }
    requires reading { call.old.stage ≡ Reading }
    ensures { HeldIn from call.new (left from.conf from.at) }
{
    call.stage = CallStage::AtAct;
}
