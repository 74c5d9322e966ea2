//! A step of the machine: one event, where it is possible.

ghost use Rattle.std.specs.Prelude.{◌≡◌, IfOk, OnOk};
ghost use Rattle.gh_core.specs.Running.{IsKept, boot_of, stands_for};
ghost use Rattle.gh_core.specs.Stepped.{Did, Steps};
ghost use Rattle.gh_events.specs.Config.{present as present_of};
ghost use Rattle.gh_events.specs.declared.event.Event.TheVariants as events;

use crate::call_events::{enter, leave, look, may_move, pin, undo, unpin};
use crate::commit_events::commit;
use crate::config::{Config, Running};
use crate::ending::end;
use crate::holder_events::{kill, owe, revive, scan, settle};
use crate::reads::present as present_state;
use crate::set_cap::{Setting, set_cap};
use crate::turn_events::{quit, take};
use gh_base::{CpuNo, NoMemory, ObjIndex};
use gh_events::Event;
use gh_model::{Plain, State};
use std::alloc::Global;

/// A pin of the CPU's call, or with `turn` a reference that the holder owes.
fn pin_event(
    alloc: Global,
    running: &mut Running,
    boot: &State,
    present: &State,
    cpu: CpuNo,
    object: ObjIndex,
    turn: bool,
) -> Result<bool, NoMemory>
    requires kept { IsKept running.old }
    requires boot { boot.now ≡ boot_of running.old }
    requires present { present.now ≡ present_of (stands_for running.old) }
    ensures did { IfOk result (λ made. Did (stands_for running.old)
        (events.Pin cpu object turn) made (stands_for running.new)) }
    ensures kept { OnOk result (IsKept running.new) }
{
    if turn {
        owe(running, boot, present, cpu, object)
    } else {
        pin(alloc, running, boot, cpu, object)
    }
}

/// A pin less of the CPU's ended call, or with `turn` a reference less that was owed.
fn unpin_event(
    alloc: Global,
    running: &mut Running,
    boot: &State,
    present: &State,
    cpu: CpuNo,
    object: ObjIndex,
    turn: bool,
) -> Result<bool, NoMemory>
    requires kept { IsKept running.old }
    requires boot { boot.now ≡ boot_of running.old }
    requires present { present.now ≡ present_of (stands_for running.old) }
    ensures did { IfOk result (λ made. Did (stands_for running.old)
        (events.Unpin cpu object turn) made (stands_for running.new)) }
    ensures kept { OnOk result (IsKept running.new) }
{
    if turn {
        settle(running, boot, present, cpu, object)
    } else {
        unpin(alloc, running, boot, cpu, object)
    }
}

/// The holder gives the turn back, its call ended or still at its act.
fn free(
    alloc: Global,
    running: &mut Running,
    boot: &State,
    present: &State,
    cpu: CpuNo,
    ended: bool,
) -> Result<bool, NoMemory>
    requires kept { IsKept running.old }
    requires boot { boot.now ≡ boot_of running.old }
    requires present { present.now ≡ present_of (stands_for running.old) }
    ensures did { IfOk result (λ made. Did (stands_for running.old)
        (events.Free cpu ended) made (stands_for running.new)) }
    ensures kept { OnOk result (IsKept running.new) }
{
    if ended {
        end(alloc, running, boot, present, cpu)
    } else {
        Ok(quit(running, boot, present, cpu))
    }
}

/// Makes an event. False exactly where it isn't possible; then nothing is made of the tables.
fn do_event(
    alloc: Global,
    running: &mut Running,
    boot: &State,
    present: &State,
    event: Event,
) -> Result<bool, NoMemory>
    requires kept { IsKept running.old }
    requires boot { boot.now ≡ boot_of running.old }
    requires present { present.now ≡ present_of (stands_for running.old) }
    ensures did { IfOk result (λ made. Did (stands_for running.old) event made
        (stands_for running.new)) }
    ensures kept { OnOk result (IsKept running.new) }
{
    match event {
        Event::Enter { cpu } => enter(alloc, running, cpu),
        Event::Leave { cpu } => leave(alloc, running, cpu),
        Event::Take { cpu } => take(alloc, running, cpu),
        Event::Look { cpu, slot } => look(alloc, running, boot, present, cpu, slot),
        Event::Pin { cpu, object, turn } => {
            pin_event(alloc, running, boot, present, cpu, object, turn)
        }
        Event::Unpin { cpu, object, turn } => {
            unpin_event(alloc, running, boot, present, cpu, object, turn)
        }
        Event::Undo { cpu, object } => undo(alloc, running, boot, cpu, object),
        Event::Kill { cpu, object } => kill(alloc, running, boot, present, cpu, object),
        Event::Commit { cpu, entry } => commit(alloc, running, boot, present, cpu, entry),
        Event::SetCap {
            cpu,
            entry,
            space,
            slot,
            word,
        } => {
            let setting = Setting { space, slot, word };
            set_cap(alloc, running, boot, present, cpu, entry, setting)
        }
        Event::Free { cpu, ended } => free(alloc, running, boot, present, cpu, ended),
        Event::Scan { cpu, of } => scan(running, cpu, of),
        Event::Revive { cpu, object, count } => {
            revive(alloc, running, present, cpu, object, count)
        }
        Event::Join { cpu } => Ok(may_move(running, cpu)),
        Event::Split { cpu } => Ok(may_move(running, cpu)),
    }
}

/// The same, with the present state made anew.
fn make_event(
    alloc: Global,
    running: &mut Running,
    boot: &State,
    event: Event,
) -> Result<bool, NoMemory>
    requires kept { IsKept running.old }
    requires boot { boot.now ≡ boot_of running.old }
    ensures did { IfOk result (λ made. Did (stands_for running.old) event made
        (stands_for running.new)) }
    ensures kept { OnOk result (IsKept running.new) }
{
    let present = present_state(alloc, running)?;
    do_event(alloc, running, boot, present.state(), event)
}

/// The same, with the boot state made anew too.
fn step_tables(alloc: Global, running: &mut Running, event: Event) -> Result<bool, NoMemory>
    requires { IsKept running.old }
    ensures did { IfOk result (λ made. Did (stands_for running.old) event made
        (stands_for running.new)) }
    ensures kept { OnOk result (IsKept running.new) }
{
    let boot = Plain::boot(alloc, &running.boot)?;
    make_event(alloc, running, boot.state(), event)
}

/// The configuration behind an event; none exactly where the event isn't possible. The tables are
/// copied, and the present state is made anew from the history.
pub fn step(alloc: Global, config: &Config, event: Event) -> Result<Option<Config>, NoMemory>
    ensures { IfOk result (λ next. Steps (stands_for config.now) event next) }
{
    let tables = config.running();
    let mut running = tables.copied(alloc)?;
    let made = step_tables(alloc, &mut running, event)?;
    if made {
        Ok(Some(Config::of(running)))
    } else {
        Ok(None)
    }
}
