//! What holds the objects that nobody refers to, where a call ends for want of units.

ghost use Rattle.std.specs.Prelude.{◌≡◌, ◌&&◌, ◌++◌, IfOk, OnOk, Some, flat_map, if◌then◌else◌};
ghost use Rattle.std.specs.Prelude.{option_map, slice_get, true};
ghost use Rattle.gh_base.specs.Counters.{is_odd};
ghost use Rattle.gh_events.specs.Config.{Config, present};
ghost use Rattle.gh_events.specs.TurnEvents.{as_list, first_reader, is_scan, reading};
ghost use Rattle.gh_items.specs.SweepReads.{IsMade, StandsWith};
ghost use Rattle.gh_items.specs.Swept.{AreMade, cause_now};
ghost use Rattle.gh_model.specs.Held.{is_held};
ghost use Rattle.gh_schedules.specs.Causes.{causes_now, count_of, counters_now, held_by};
ghost use Rattle.gh_schedules.specs.Sweep.{HasNotBegun};

use crate::progress::Progress;
use crate::sweep_reads::{counters, pins_of};
use gh_base::{CPUS, Counters, CpuNo, Held, NoMemory, Sequence, is_reading};
use gh_core::CurrentCall;
use gh_model::{ObjectRow, State, StateReads};
use std::alloc::Global;

/// This CPU, where its counter still is the odd one of a retirement, or else that of the others.
fn reader_or(cpu: u8, before: u64, now: u64, others: Option<(u8, u64)>) -> Option<(u8, u64)>
    ensures { result ≡ (if is_odd before && is_scan before (Some now) then Some (cpu, before)
        else others) }
{
    if is_reading(before) && now == before {
        Some((cpu, before))
    } else {
        others
    }
}

/// The first CPU that still has its odd counter of a retirement, and that counter.
fn first_reader(now: &Counters, seen: &Counters) -> Option<(u8, u64)>
    ensures { result ≡ first_reader (slice_get now.now) 0 seen.now }
{
    let mut first = None;
    let mut cpu: u8 = CPUS as u8;
    while cpu > 0 {
        cpu -= 1;
        first = reader_or(cpu, seen[cpu as usize], now[cpu as usize], first);
    }
    first
}

/// What holds an object with these counters of its retirement.
fn reading(now: &Counters, seen: &Counters, row: &ObjectRow) -> Option<Held>
    ensures { result ≡ option_map (reading row.now) (first_reader (slice_get now.now) 0 seen.now) }
{
    match first_reader(now, seen) {
        None => None,
        Some((cpu, counter)) => Some(Held::Reading {
            serial: row.serial,
            cpu: CpuNo(cpu),
            counter,
        }),
    }
}

/// What holds an object that is retired or without references.
fn held_by(
    progress: &Progress,
    cpu: CpuNo,
    call: &CurrentCall,
    now: &Counters,
    row: &ObjectRow,
) -> Option<Held>
    ghost conf: { Config }
    requires stands { StandsWith progress.now cpu.0 call.now conf }
    requires begins { HasNotBegun conf cpu.0 }
    requires counters { now.now ≡ counters_now conf }
    requires made { IsMade conf row.now.serial.0 }
    requires held { is_held (present conf) row.now ≡ true }
    ensures { result ≡ held_by (counters_now conf) (count_of conf row.now.serial.0) row.now
        row.now.retired }
{
    match row.retired {
        None => Some(Held::Pins {
            serial: row.serial,
            pins: pins_of(progress, cpu, call, row.serial),
        }),
        Some(seen) => reading(now, &seen, row),
    }
}

/// Whether the object is retired, or has no references.
fn is_held(state: &State, row: &ObjectRow) -> bool
    ensures { result ≡ is_held state.now row.now }
{
    row.retired.is_some() || state.doomed(row.serial)
}

/// What holds an object, none where it isn't retired and has references.
fn cause(
    progress: &Progress,
    cpu: CpuNo,
    call: &CurrentCall,
    now: &Counters,
    row: &ObjectRow,
) -> Option<Held>
    ghost conf: { Config }
    requires stands { StandsWith progress.now cpu.0 call.now conf }
    requires begins { HasNotBegun conf cpu.0 }
    requires counters { now.now ≡ counters_now conf }
    requires made { IsMade conf row.now.serial.0 }
    ensures { result ≡ cause_now conf row.now }
{
    if is_held(progress.plain.state(), row) {
        held_by(progress, cpu, call, now, row)
    } else {
        None
    }
}

fn push_some(held: &mut Sequence<Held>, one: Option<Held>) -> Result<(), NoMemory>
    ensures { OnOk result (held.new ≡ held.old ++ as_list one) }
{
    match one {
        None => Ok(()),
        Some(one) => held.push(one),
    }
}

/// What holds each of these objects, in their order.
fn causes_of(
    progress: &Progress,
    alloc: Global,
    cpu: CpuNo,
    call: &CurrentCall,
    rows: &[ObjectRow],
) -> Result<Sequence<Held>, NoMemory>
    ghost conf: { Config }
    requires stands { StandsWith progress.now cpu.0 call.now conf }
    requires begins { HasNotBegun conf cpu.0 }
    requires made { AreMade conf rows.now }
    ensures { IfOk result (λ held. held
        ≡ flat_map (λ row. as_list (cause_now conf row)) rows.now) }
{
    let now = counters(progress, cpu, call);
    let mut held = Sequence::new(alloc);
    for row in rows {
        push_some(&mut held, cause(progress, cpu, call, &now, row))?;
    }
    Ok(held)
}

/// What holds each object that is retired or without references, by rising serial. Nothing of the
/// CPU's act was committed.
pub(crate) fn causes(
    progress: &Progress,
    alloc: Global,
    cpu: CpuNo,
    call: &CurrentCall,
) -> Result<Sequence<Held>, NoMemory>
    ghost conf: { Config }
    requires stands { StandsWith progress.now cpu.0 call.now conf }
    requires begins { HasNotBegun conf cpu.0 }
    ensures { IfOk result (λ held. held ≡ causes_now conf) }
{
    let rows = progress.plain.state().objects.as_slice();
    causes_of(progress, alloc, cpu, call, rows)
}
