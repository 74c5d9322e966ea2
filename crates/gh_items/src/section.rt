//! The next item of a call in its section.

ghost use Rattle.std.specs.Prelude.{◌≡◌, ◌<◌, ◌⊎◌, true, None, OnOk, Some};
ghost use Rattle.std.specs.List.{last_or};
ghost use Rattle.gh_base.specs.declared.limits.TheConstants.{CPUS};
ghost use Rattle.gh_events.specs.CallEvents.{end_of_looks, reply_of_looks};
ghost use Rattle.gh_events.specs.Config.{Config};
ghost use Rattle.gh_core.specs.declared.current.CallStage.TheVariants.{DeadPin, Failed, Looked, Reading, Undone};
ghost use Rattle.gh_schedules.specs.Items.{item};
ghost use Rattle.gh_core.specs.Running.{came_of};
ghost use Rattle.gh_events.specs.Sound.{IsSound};
ghost use Rattle.gh_schedules.specs.Trace.{after_all};
ghost use Rattle.gh_items.specs.Calling.{AddsMark};
ghost use Rattle.gh_items.specs.Held.{Held, HeldIn, IsHeld, Sees, cpu_goes_on, goes_on};
ghost use Rattle.gh_items.specs.Stands.{Stands, with_call};

use crate::leave_item::leave_ended;
use crate::look_item::look;
use crate::progress::{Progress, Seat, seat_of};
use crate::stage_items::{leave, pin, undo};
use gh_base::{CpuNo, End, Errno, NoMemory, ObjIndex, Reply};
use gh_core::{CallStage, Came, CurrentCall, SeenLook};
use gh_model::Plain;

/// The end of a call whose looks came to this, where it leaves its section.
fn end_of(came: Came) -> End
    ensures { result ≡ end_of_looks (came_of came) }
{
    match came {
        Came::Fails { errno: _ } => End::Refused,
        Came::Wants { slot: _, need: _ } | Came::Grants => End::Dead,
    }
}

fn reply_of(came: Came) -> Reply
    ensures { result ≡ reply_of_looks (came_of came) }
{
    match came {
        Came::Fails { errno } => Reply::refusal(errno),
        Came::Wants { slot: _, need: _ } | Came::Grants => Reply::refusal(Errno::CapRevoked),
    }
}

/// The call's last look.
fn last_look(call: &CurrentCall) -> Option<SeenLook>
    ensures { result ≡ last_or None call.now.seen }
{
    call.seen.as_slice().last().copied()
}

/// In its section, the call looks up what it wants next, or leaves.
fn read(plain: &Plain, places: &[ObjIndex], seat: Seat, call: &mut CurrentCall)
    ghost from: { Held }
    requires held { IsHeld from call.old }
    requires seen { Sees from plain.now places.now seat }
    requires reading { call.old.stage ≡ Reading }
    ensures { HeldIn from call.new (after_all from.conf (item from.conf from.at)) }
{
    match call.came_to() {
        Came::Wants { slot, need } => look(plain, places, seat, call, slot, need),
        Came::Fails { errno: _ } => leave(call),
        Came::Grants => leave(call),
    }
}

/// The call pins what its last look granted.
fn pin_last(plain: &Plain, call: &mut CurrentCall)
    ghost from: { Held }
    requires held { IsHeld from call.old }
    requires state { plain.now ≡ from.progress.plain }
    requires looked { call.old.stage ≡ Looked }
    ensures { HeldIn from call.new (after_all from.conf (item from.conf from.at)) }
{
    match last_look(call) {
        None => (),
        Some(last) => pin(plain, call, last),
    }
}

/// The call undoes its last pin.
fn undo_last(call: &mut CurrentCall)
    ghost from: { Held }
    requires held { IsHeld from call.old }
    requires dead { call.old.stage ≡ DeadPin }
    ensures { HeldIn from call.new (after_all from.conf (item from.conf from.at)) }
{
    match last_look(call) {
        None => (),
        Some(last) => undo(call, last),
    }
}

/// The next item of a call that is in progress behind it too.
fn go_on(plain: &Plain, places: &[ObjIndex], seat: Seat, call: &mut CurrentCall)
    ghost from: { Held }
    requires held { IsHeld from call.old }
    requires seen { Sees from plain.now places.now seat }
    requires going { goes_on call.old.stage ≡ true }
    ensures { HeldIn from call.new (after_all from.conf (item from.conf from.at)) }
{
    match call.stage {
        CallStage::Reading => read(plain, places, seat, call),
        CallStage::Looked => pin_last(plain, call),
        CallStage::DeadPin => undo_last(call),
        CallStage::Undone | CallStage::Failed | CallStage::AtAct => (),
    }
}

/// The next item of the CPU's call, which is in progress behind it too. It stays where it is.
pub(crate) fn section_item(progress: &mut Progress, cpu: CpuNo)
    ghost from: { Held }
    requires progress { progress.old ≡ from.progress }
    requires cpu { cpu.0 ≡ from.at }
    requires stands { Stands progress.old from.conf }
    requires sound { IsSound from.conf }
    requires within { cpu.0 < CPUS }
    requires free { from.conf.turn ≡ None }
    requires going { cpu_goes_on progress.old cpu.0 ≡ true }
    ensures stands { Stands progress.new (after_all from.conf (item from.conf cpu.0)) }
    ensures marks { progress.new.marks ≡ progress.old.marks }
{
    let seat = seat_of(progress, cpu);
    match &mut progress.calls.as_mut_slice()[cpu.0 as usize] {
        None => (),
        Some(call) => go_on(&progress.plain, progress.places.as_slice(), seat, call),
    }
}

/// The call ends where it leaves its section.
pub(crate) fn end_of_section(
    progress: &mut Progress,
    cpu: CpuNo,
    call: &CurrentCall,
) -> Result<(), NoMemory>
    ghost conf: { Config }
    requires stands { Stands (with_call progress.old cpu.0 (Some call.now)) conf }
    requires sound { IsSound conf }
    requires within { cpu.0 < CPUS }
    requires ended { (call.now.stage ≡ Undone) ⊎ (call.now.stage ≡ Failed) }
    ensures stands { OnOk result (Stands progress.new (after_all conf (item conf cpu.0))) }
    ensures marks { OnOk result (AddsMark progress.old.marks progress.new.marks) }
{
    let came = call.came_to();
    leave_ended(progress, cpu, call, end_of(came), reply_of(came))
}
