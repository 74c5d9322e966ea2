//! How the holder's call ends.

ghost use Rattle.std.specs.Prelude.{◌≡◌, ◌&&◌, ◌-◌, ◌<◌, true, length, option_map, IfOk, OnOk};
ghost use Rattle.gh_base.specs.Counters.{is_odd};
ghost use Rattle.gh_base.specs.declared.limits.TheConstants.{CPUS};
ghost use Rattle.gh_events.specs.Calls.{last_ending};
ghost use Rattle.gh_events.specs.Config.{entries, judged, present as present_of};
ghost use Rattle.gh_core.specs.Running.{IsKept, boot_of, cpu_of, current_of, end_of, ended_cpu};
ghost use Rattle.gh_core.specs.Running.{ended_of, ending_in, ends, held_causes, history_of};
ghost use Rattle.gh_core.specs.Running.{holder_of, reader_of, reading_of, stands_for};
ghost use Rattle.gh_base.specs.declared.mark.Held.TheVariants as held;
ghost use Rattle.gh_core.specs.Running.{turn_ending as turn_ending_of};
ghost use Rattle.gh_events.specs.TurnEvents.{cause_of, ending as ending_of};
ghost use Rattle.gh_events.specs.TurnEvents.{first_reader as first_reader_of};
ghost use Rattle.gh_events.specs.TurnEvents.{is_scan as is_scan_of};
ghost use Rattle.gh_events.specs.TurnEvents.{refused_ending as refused_ending_of};
ghost use Rattle.gh_events.specs.TurnEvents.{short_ending as short_ending_of};
ghost use Rattle.gh_model.specs.Act.{Refused};
ghost use Rattle.gh_model.specs.History.{state_at};
ghost use Rattle.gh_model.specs.Held.{is_held as is_held_of};
ghost use Rattle.gh_model.specs.Legal.{is_short as is_short_of};

use crate::acts::judge_call;
use crate::call_events::{ended_seat, finished, is_at_act, is_cpu};
use crate::config::Running;
use crate::cpu::Seat;
use crate::current::CurrentCall;
use crate::holder::Turn;
use crate::holder_events::{has_acted, has_part, some_killed};
use crate::log::replayed;
use crate::reads::present as present_state;
use crate::table::last_number;
use crate::turn_events::owes_nothing;
use gh_base::{
    CPUS, Call, Counters, CpuNo, End, Errno, Held, NoMemory, Reply, Sequence, Serial, is_reading,
};
use gh_model::{Judged, ObjectRow, Plain, State, StateReads};
use std::alloc::Global;

/// How a call ended, and its reply.
#[derive(Drop)]
pub struct Ended {
    pub end: End,
    pub reply: Reply,
}

/// A CPU that was reading at a retirement, and its counter then.
#[derive(Clone, Copy)]
pub struct Reader {
    pub cpu: CpuNo,
    pub counter: u64,
}

/// Whether the scan of a CPU found this counter.
pub(crate) fn is_scan(counter: u64, scan: Option<u64>) -> bool
    ensures { result ≡ is_scan_of counter scan }
{
    match scan {
        None => false,
        Some(scan) => scan == counter,
    }
}

/// What the scan of a CPU found.
pub(crate) fn scanned(turn: &Turn, cpu: usize) -> Option<u64>
    ensures { result ≡ (holder_of turn.now).scans cpu }
{
    last_number(turn.scans.as_slice(), cpu as u64)
}

/// Whether a CPU still has this counter, which is odd.
fn is_reader(turn: &Turn, cpu: usize, counter: u64) -> bool
    ensures { result ≡ (is_odd counter && is_scan_of counter ((holder_of turn.now).scans cpu)) }
{
    is_reading(counter) && is_scan(counter, scanned(turn, cpu))
}

/// The first CPU that still has its odd counter of a retirement.
fn first_reader(turn: &Turn, counters: Counters) -> Option<Reader>
    ensures { option_map reader_of result ≡ first_reader_of (holder_of turn.now).scans 0 counters }
{
    for at in 0..CPUS {
        let counter = counters[at];
        if is_reader(turn, at, counter) {
            return Some(Reader {
                cpu: CpuNo(at as u8),
                counter,
            });
        }
    }
    None
}

/// The count that a failed kill saw.
fn seen_by_kill(turn: &Turn, serial: Serial) -> Option<u64>
    ensures { result ≡ (holder_of turn.now).failed serial.0 }
{
    last_number(turn.failed.as_slice(), serial.0 as u64)
}

/// The pins on an object that a failed kill saw.
fn pins(turn: &Turn, serial: Serial) -> Option<Held>
    ensures { result ≡ option_map (held.Pins serial) ((holder_of turn.now).failed serial.0) }
{
    match seen_by_kill(turn, serial) {
        None => None,
        Some(pins) => Some(Held::Pins { serial, pins }),
    }
}

/// The CPU that still reads a retired object.
fn reading(turn: &Turn, serial: Serial, counters: Counters) -> Option<Held>
    ensures { result ≡ option_map (reading_of serial)
        (first_reader_of (holder_of turn.now).scans 0 counters) }
{
    match first_reader(turn, counters) {
        None => None,
        Some(reader) => Some(Held::Reading {
            serial,
            cpu: reader.cpu,
            counter: reader.counter,
        }),
    }
}

/// What holds an object: a CPU that was reading at its retirement, or else the pins that a kill
/// saw.
fn cause(turn: &Turn, row: &ObjectRow) -> Option<Held>
    ensures { result ≡ cause_of (holder_of turn.now) row.now }
{
    let serial = row.serial;
    match row.retired {
        None => pins(turn, serial),
        Some(counters) => reading(turn, serial, counters),
    }
}

/// Whether an object is retired, or without references.
fn is_held(present: &State, row: &ObjectRow) -> bool
    ensures { result ≡ is_held_of present.now row.now }
{
    row.retired.is_some() || present.doomed(row.serial)
}

/// The cause of each such object; none where one has no cause.
fn causes(alloc: Global, turn: &Turn, present: &State) -> Result<Option<Sequence<Held>>, NoMemory>
    ensures { IfOk result (λ held. held ≡ held_causes (holder_of turn.now) present.now) }
{
    let mut held = Sequence::new(alloc);
    let rows = present.objects.as_slice();
    for row in rows {
        if is_held(present, row) {
            match cause(turn, row) {
                None => return Ok(None),
                Some(cause) => held.push(cause)?,
            }
        }
    }
    Ok(Some(held))
}

/// Whether the reply is want of units at a create or a configure.
fn is_short(call: &Call, reply: &Reply) -> bool
    ensures { result ≡ is_short_of call.now reply.now }
{
    match *call {
        Call::Create { .. } | Call::ConfigurePartition { .. } | Call::ConfigureQueue { .. } => {
            reply.x[0] == Errno::Nomem.number()
        }
        _ => false,
    }
}

/// A number of entries in 32 bits. A longer history is answered as want of memory.
fn narrow_entries(count: usize) -> Result<u32, NoMemory>
    ensures { IfOk result (λ narrowed. narrowed ≡ count) }
{
    if count > u32::MAX as usize {
        return Err(NoMemory);
    }
    Ok(count as u32)
}

/// Want of units ends a call once what holds each ending object is known.
fn short_ending(
    alloc: Global,
    turn: &Turn,
    present: &State,
    place: u32,
    reply: Reply,
) -> Result<Option<Ended>, NoMemory>
    ensures { IfOk result (λ ended. option_map ended_of ended
        ≡ short_ending_of (holder_of turn.now) present.now place reply) }
{
    match causes(alloc, turn, present)? {
        None => Ok(None),
        Some(held) => {
            let end = End::Short { place, held };
            Ok(Some(Ended { end, reply }))
        }
    }
}

/// The end of a call whose act is refused in the present state.
fn refused_ending(
    alloc: Global,
    turn: &Turn,
    present: &State,
    place: u32,
    call: &Call,
    reply: Reply,
) -> Result<Option<Ended>, NoMemory>
    ensures { IfOk result (λ ended. option_map ended_of ended
        ≡ refused_ending_of (holder_of turn.now) present.now place call.now (Refused reply)) }
{
    if reply.x[0] == 0 {
        return Ok(None);
    }
    if is_short(call, &reply) {
        return short_ending(alloc, turn, present, place, reply);
    }
    let end = End::Act { place };
    Ok(Some(Ended { end, reply }))
}

/// The state before the last entry.
fn before_last(alloc: Global, running: &Running) -> Result<Plain, NoMemory>
    requires { IsKept running.now }
    ensures { IfOk result (λ plain. plain ≡ state_at (boot_of running.now)
        (history_of running.now) (length (history_of running.now) - 1)) }
{
    let log = running.log.as_slice();
    let before = log.len().saturating_sub(1);
    let front = &log[..before];
    replayed(alloc, &running.boot, front)
}

/// The end of the holder's call where its act's entry is the last one.
fn acted_ending(
    alloc: Global,
    running: &Running,
    cpu: CpuNo,
    call: &CurrentCall,
) -> Result<Option<Ended>, NoMemory>
    requires { IsKept running.now }
    ensures { IfOk result (λ ended. option_map ended_of ended
        ≡ last_ending (boot_of running.now) (history_of running.now) cpu.0 (current_of call.now)) }
{
    let mut plain = before_last(alloc, running)?;
    match judge_call(alloc, &mut plain, cpu, call)? {
        Judged::Refused(_) => Ok(None),
        Judged::Done(reply) => {
            let number = narrow_entries(running.log.len())?;
            let end = End::Entry { number };
            Ok(Some(Ended { end, reply }))
        }
    }
}

/// The end of the holder's call where nothing of its act was committed.
fn unacted_ending(
    alloc: Global,
    running: &Running,
    present: &State,
    turn: &Turn,
    cpu: CpuNo,
    call: &CurrentCall,
) -> Result<Option<Ended>, NoMemory>
    requires kept { IsKept running.now }
    requires present { present.now ≡ present_of (stands_for running.now) }
    ensures { IfOk result (λ ended. option_map ended_of ended
        ≡ refused_ending_of (holder_of turn.now) present.now (entries (stands_for running.now))
        call.now.given.call (judged present.now cpu.0 (current_of call.now))) }
{
    let mut plain = present_state(alloc, running)?;
    match judge_call(alloc, &mut plain, cpu, call)? {
        Judged::Done(_) => Ok(None),
        Judged::Refused(reply) => {
            let place = narrow_entries(running.log.len())?;
            refused_ending(alloc, turn, present, place, &call.given.call, reply)
        }
    }
}

/// The end of the holder's call, where its act has ended.
fn ending(
    alloc: Global,
    running: &Running,
    present: &State,
    turn: &Turn,
    cpu: CpuNo,
    call: &CurrentCall,
) -> Result<Option<Ended>, NoMemory>
    requires kept { IsKept running.now }
    requires present { present.now ≡ present_of (stands_for running.now) }
    ensures { IfOk result (λ ended. option_map ended_of ended
        ≡ ending_of (stands_for running.now) cpu.0 (holder_of turn.now) (current_of call.now)) }
{
    if has_acted(turn) {
        acted_ending(alloc, running, cpu, call)
    } else if has_part(turn) {
        Ok(None)
    } else {
        unacted_ending(alloc, running, present, turn, cpu, call)
    }
}

/// The same, of a call that is at its act.
fn ending_at_act(
    alloc: Global,
    running: &Running,
    present: &State,
    turn: &Turn,
    cpu: CpuNo,
) -> Result<Option<Ended>, NoMemory>
    requires kept { IsKept running.now }
    requires present { present.now ≡ present_of (stands_for running.now) }
    requires within { cpu.0 < CPUS }
    ensures { IfOk result (λ ended. option_map ended_of ended
        ≡ ending_in (stands_for running.now) cpu.0 (holder_of turn.now)
        ((stands_for running.now).cpu cpu.0).current) }
{
    match &running.seat(cpu).current {
        None => Ok(None),
        Some(call) => {
            if !is_at_act(call.stage) {
                return Ok(None);
            }
            ending(alloc, running, present, turn, cpu, call)
        }
    }
}

/// How the call of the turn's CPU ends, if it does: its act has ended, and nothing is owed.
fn turn_ending(
    alloc: Global,
    running: &Running,
    present: &State,
    cpu: CpuNo,
) -> Result<Option<Ended>, NoMemory>
    requires kept { IsKept running.now }
    requires present { present.now ≡ present_of (stands_for running.now) }
    requires within { cpu.0 < CPUS }
    ensures { IfOk result (λ ended. option_map ended_of ended
        ≡ turn_ending_of running.now cpu.0 running.now.turn) }
{
    match &running.turn {
        None => Ok(None),
        Some(turn) => {
            if turn.cpu != cpu || !owes_nothing(turn.owed.as_slice()) {
                return Ok(None);
            }
            ending_at_act(alloc, running, present, turn, cpu)
        }
    }
}

fn end_seat(alloc: Global, seat: &Seat, cpu: CpuNo, ended: Ended) -> Result<Seat, NoMemory>
    ensures { IfOk result (λ seat_ended. cpu_of seat_ended
        ≡ ended_cpu cpu.0 (cpu_of seat.now) (ended_of ended) (cpu_of seat.now).current) }
{
    match &seat.current {
        None => seat.copied(alloc),
        Some(call) => {
            let made = finished(alloc, cpu, call, ended.end, ended.reply)?;
            ended_seat(alloc, seat, made)
        }
    }
}

/// The holder gives the turn back, and its call has its end.
pub(crate) fn end(
    alloc: Global,
    running: &mut Running,
    boot: &State,
    present: &State,
    cpu: CpuNo,
) -> Result<bool, NoMemory>
    requires kept { IsKept running.old }
    requires boot { boot.now ≡ boot_of running.old }
    requires present { present.now ≡ present_of (stands_for running.old) }
    ensures may { IfOk result (λ made. made ≡ ends running.old cpu.0) }
    ensures then { IfOk result (λ made. made ≡ true
        → stands_for running.new ≡ end_of running.old cpu.0) }
    ensures kept { OnOk result (IsKept running.new) }
{
    if !is_cpu(cpu) || some_killed(running, boot, present) {
        return Ok(false);
    }
    match turn_ending(alloc, running, present, cpu)? {
        None => Ok(false),
        Some(ended) => {
            let seat = end_seat(alloc, running.seat(cpu), cpu, ended)?;
            running.put_seat(cpu, seat);
            running.put_turn(None);
            Ok(true)
        }
    }
}
