//! How the turn is taken and given back.

ghost use Rattle.std.specs.Prelude.{◌≡◌, true, map, option_map, IfOk, OnOk};
ghost use Rattle.gh_events.specs.Config.{pin_of as pin_of_look};
ghost use Rattle.gh_events.specs.Config.{present as present_of};
ghost use Rattle.gh_core.specs.Running.{IsKept, boot_of, came_of, cpu_of, current_of, given_of};
ghost use Rattle.gh_core.specs.Running.{holder_of, is_paid as is_paid_of, owes_nothing as owes_nothing_of, pin_of};
ghost use Rattle.gh_core.specs.Running.{quits, seen_of, stage_of, stands_for, taken_cpu};
ghost use Rattle.gh_core.specs.Running.{turn_quits as turn_quits_of};
ghost use Rattle.gh_core.specs.Tests.{is_granted as is_granted_of, is_whole as is_whole_of};
ghost use Rattle.gh_core.specs.Tests.{same_pin as same_pin_of, same_pins as same_pins_of, takes};
ghost use Rattle.gh_events.specs.TurnEvents.{if_at_act as if_at_act_of};
ghost use Rattle.gh_events.specs.TurnEvents.{if_lookless as if_lookless_of};
ghost use Rattle.gh_events.specs.TurnEvents.{quit as quit_of, ready as ready_of, taken};

use crate::call_events::{begun, granted, has_needs, is_cpu, seen_index};
use crate::config::Running;
use crate::cpu::{HeldPin, Seat};
use crate::current::{CallStage, Came, CurrentCall, GivenCall, SeenLook};
use crate::holder::Turn;
use crate::holder_events::{is_before_act, some_killed};
use crate::table::{Written, last_number};
use gh_base::{CpuNo, NoMemory};
use gh_model::State;
use std::alloc::Global;

// Take

/// A call without looks, begun.
fn if_lookless(alloc: Global, next: &Option<GivenCall>) -> Result<Option<CurrentCall>, NoMemory>
    ensures { IfOk result (λ ready. option_map current_of ready
        ≡ if_lookless_of (option_map given_of next.now)) }
{
    match next {
        None => Ok(None),
        Some(given) => {
            if has_needs(given) {
                return Ok(None);
            }
            let given = given.copied(alloc)?;
            Ok(Some(begun(given, 0, CallStage::AtAct)))
        }
    }
}

/// The call in progress, where it is at its act.
fn if_at_act(alloc: Global, call: &CurrentCall) -> Result<Option<CurrentCall>, NoMemory>
    ensures { IfOk result (λ ready. option_map current_of ready
        ≡ if_at_act_of (stage_of call.now.stage) (current_of call.now)) }
{
    match call.stage {
        CallStage::AtAct => Ok(Some(call.copied(alloc)?)),
        _ => Ok(None),
    }
}

/// The call of a CPU that is at its act.
fn ready(alloc: Global, seat: &Seat) -> Result<Option<CurrentCall>, NoMemory>
    ensures { IfOk result (λ ready. option_map current_of ready ≡ ready_of (cpu_of seat.now)) }
{
    match &seat.current {
        Some(call) => if_at_act(alloc, call),
        None => {
            if !seat.pins.is_empty() {
                return Ok(None);
            }
            if_lookless(alloc, &seat.next)
        }
    }
}

fn is_pin_of(pin: HeldPin, seen: &SeenLook) -> bool
    ensures { result ≡ same_pin_of (pin_of pin) (pin_of_look (seen_of seen.now)) }
{
    pin.serial == granted(seen.word) && pin.index == seen_index(seen)
}

/// Whether the pins are those of the looks.
fn same_pins(pins: &[HeldPin], seen: &[SeenLook]) -> bool
    ensures { result ≡ same_pins_of (map pin_of pins.now) (map pin_of_look (map seen_of seen.now)) }
{
    if pins.len() != seen.len() {
        return false;
    }
    for at in 0..pins.len() {
        if !is_pin_of(pins[at], &seen[at]) {
            return false;
        }
    }
    true
}

fn is_granted(came: Came) -> bool
    ensures { result ≡ is_granted_of (came_of came) }
{
    matches!(came, Came::Grants)
}

/// Whether the call has a grant for each need, and these pins on them.
fn is_whole(pins: &[HeldPin], call: &Option<CurrentCall>) -> bool
    ensures { result ≡ is_whole_of (map pin_of pins.now) (option_map current_of call.now) }
{
    match call {
        None => false,
        Some(call) => is_granted(call.came_to()) && same_pins(pins, call.seen.as_slice()),
    }
}

fn taken_seat(alloc: Global, seat: &Seat, ready: Option<CurrentCall>) -> Result<Seat, NoMemory>
    requires { option_map current_of ready ≡ ready_of (cpu_of seat.now) }
    ensures { IfOk result (λ taken. cpu_of taken ≡ taken_cpu (cpu_of seat.now)) }
{
    let mut taken = seat.copied(alloc)?;
    if taken.current.is_none() {
        taken.next = None;
    }
    taken.current = ready;
    Ok(taken)
}

/// The CPU's call, at its act, gets the turn where that is free.
pub(crate) fn take(alloc: Global, running: &mut Running, cpu: CpuNo) -> Result<bool, NoMemory>
    requires { IsKept running.old }
    ensures may { IfOk result (λ made. made ≡ takes (stands_for running.old) cpu.0) }
    ensures then { IfOk result (λ made. made ≡ true
        → stands_for running.new ≡ taken (stands_for running.old) cpu.0) }
    ensures kept { OnOk result (IsKept running.new) }
{
    if !is_cpu(cpu) || running.turn.is_some() {
        return Ok(false);
    }
    let seat = running.seat(cpu);
    let ready = ready(alloc, seat)?;
    if !is_whole(seat.pins.as_slice(), &ready) {
        return Ok(false);
    }
    let seat = taken_seat(alloc, seat, ready)?;
    running.put_seat(cpu, seat);
    running.put_turn(Some(Turn::new(alloc, cpu)));
    Ok(true)
}

// Free

/// Whether nothing is owed where this was written.
fn is_paid(owed: &[Written], written: Written) -> bool
    ensures { result ≡ is_paid_of owed.now written }
{
    last_number(owed, written.at).unwrap_or(0) == 0
}

/// Whether nothing is owed at any index.
pub(crate) fn owes_nothing(owed: &[Written]) -> bool
    ensures { result ≡ owes_nothing_of owed.now }
{
    for written in owed {
        if !is_paid(owed, *written) {
            return false;
        }
    }
    true
}

fn turn_quits(turn: &Option<Turn>, cpu: CpuNo) -> bool
    ensures { result ≡ turn_quits_of cpu.0 turn.now }
{
    match turn {
        None => false,
        Some(turn) => {
            turn.cpu == cpu && owes_nothing(turn.owed.as_slice()) && is_before_act(turn)
        }
    }
}

/// The holder gives the turn back, and its call stays at its act.
pub(crate) fn quit(running: &mut Running, boot: &State, present: &State, cpu: CpuNo) -> bool
    requires kept { IsKept running.old }
    requires boot { boot.now ≡ boot_of running.old }
    requires present { present.now ≡ present_of (stands_for running.old) }
    ensures may { result ≡ quits running.old cpu.0 }
    ensures then { result ≡ true → stands_for running.new ≡ quit_of (stands_for running.old) }
    ensures kept { IsKept running.new }
{
    if !is_cpu(cpu) || !turn_quits(&running.turn, cpu) || some_killed(running, boot, present) {
        return false;
    }
    running.put_turn(None);
    true
}
