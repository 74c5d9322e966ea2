//! What the sweep does about one object: it is retired where its word counts nothing, and reclaimed
//! once every CPU has left that was reading then.

ghost use Rattle.std.specs.Prelude.{◌≡◌, ◌<◌, ◌+◌, if◌then◌else◌, IfOk, OnOk, Some};
ghost use Rattle.gh_base.specs.declared.limits.TheConstants.{HISTORY_ENTRIES};
ghost use Rattle.gh_events.specs.Config.{Config};
ghost use Rattle.gh_items.specs.Stands.{Stands, with_call};
ghost use Rattle.gh_items.specs.Sweeps.{Scans, ScansIn, tried, with_dead, with_retired};
ghost use Rattle.gh_model.specs.Graced.{retirement};
ghost use Rattle.gh_schedules.specs.Sweep.{has_left, have_left, is_left, killing, may_kill};
ghost use Rattle.gh_schedules.specs.Sweep.{may_reclaim, reclaiming};
ghost use Rattle.gh_schedules.specs.Trace.{after_all};

use crate::progress::Progress;
use crate::sweep_reads::{counters, pins_of};
use gh_base::{CPUS, Counters, CpuNo, NoMemory, Serial, is_reading};
use gh_core::CurrentCall;
use gh_model::{Entry, ObjectRow, State, StateReads, object_row};
use std::alloc::Global;

/// Whether a CPU that was reading has left.
fn has_left(before: u64, now: u64) -> bool
    ensures { result ≡ has_left before now }
{
    !is_reading(before) || before < now
}

/// Whether each of them has.
fn have_left(before: Counters, now: Counters) -> bool
    ensures { result ≡ have_left before now }
{
    for at in 0..CPUS {
        if !has_left(before[at], now[at]) {
            return false;
        }
    }
    true
}

/// Whether each has that was reading at the object's retirement.
fn is_left(row: Option<ObjectRow>, now: Counters) -> bool
    ensures { result ≡ is_left (retirement row) now }
{
    match row {
        None => false,
        Some(row) => match row.retired {
            None => false,
            Some(before) => have_left(before, now),
        },
    }
}

/// Whether a retired object may be reclaimed.
fn may_reclaim(state: &State, serial: Serial, now: Counters) -> bool
    ensures { result ≡ may_reclaim state.now serial now }
{
    StateReads::doomed(state, serial) && is_left(object_row(state.objects.as_slice(), serial), now)
}

/// A retired object is reclaimed, as an entry of the history, where it may be.
fn reclaim_by(
    progress: &mut Progress,
    alloc: Global,
    serial: Serial,
    seen: Counters,
) -> Result<(), NoMemory>
    requires room { progress.old.plain.entries < HISTORY_ENTRIES }
    ensures made { OnOk result (progress.new ≡ tried progress.old serial seen) }
    ensures marks { progress.new.marks ≡ progress.old.marks }
{
    if !may_reclaim(progress.plain.state(), serial, seen) {
        return Ok(());
    }
    progress.plain.reclaim(alloc, serial)?;
    progress.entries.push(Entry::Reclaimed { serial, seen })
}

/// An object without references is retired, as an entry of the history. False where it isn't one,
/// or is retired.
fn retire(progress: &mut Progress, serial: Serial, seen: Counters) -> Result<bool, NoMemory>
    requires room { progress.old.plain.entries < HISTORY_ENTRIES }
    ensures may { IfOk result (λ made. made ≡ may_kill progress.old.plain serial) }
    ensures made { IfOk result (λ made. progress.new
        ≡ (if made then with_retired progress.old serial seen else progress.old)) }
    ensures marks { progress.new.marks ≡ progress.old.marks }
{
    if !progress.plain.retire_seen(serial, seen) {
        return Ok(false);
    }
    progress.entries.push(Entry::Retired { serial, seen })?;
    Ok(true)
}

/// A retired object is tried for its reclaim.
pub(crate) fn reclaim(
    progress: &mut Progress,
    alloc: Global,
    cpu: CpuNo,
    call: &CurrentCall,
    serial: Serial,
) -> Result<(), NoMemory>
    requires scans { Scans progress.old cpu.0 call.now }
    ensures stands { (conf : Config) → ScansIn progress.old cpu.0 call.now conf → OnOk result
        (Stands (with_call progress.new cpu.0 (Some call.now))
        (after_all conf (reclaiming cpu.0 serial conf))) }
    ensures marks { progress.new.marks ≡ progress.old.marks }
{
    let seen = counters(progress, cpu, call);
    reclaim_by(progress, alloc, serial, seen)
}

/// A killed object is retired, and tried once for its reclaim.
fn retire_dead(
    progress: &mut Progress,
    alloc: Global,
    serial: Serial,
    seen: Counters,
) -> Result<(), NoMemory>
    requires room { progress.old.plain.entries + 1 < HISTORY_ENTRIES }
    ensures made { OnOk result (progress.new
        ≡ (if may_kill progress.old.plain serial then with_dead progress.old serial seen
        else progress.old)) }
    ensures marks { progress.new.marks ≡ progress.old.marks }
{
    if retire(progress, serial, seen)? {
        reclaim_by(progress, alloc, serial, seen)
    } else {
        Ok(())
    }
}

/// An object that lives without references is killed where its word counts nothing.
pub(crate) fn kill(
    progress: &mut Progress,
    alloc: Global,
    cpu: CpuNo,
    call: &CurrentCall,
    serial: Serial,
) -> Result<(), NoMemory>
    requires scans { Scans progress.old cpu.0 call.now }
    ensures stands { (conf : Config) → ScansIn progress.old cpu.0 call.now conf → OnOk result
        (Stands (with_call progress.new cpu.0 (Some call.now))
        (after_all conf (killing cpu.0 serial conf))) }
    ensures marks { progress.new.marks ≡ progress.old.marks }
{
    if pins_of(progress, cpu, call, serial) > 0 {
        return Ok(());
    }
    let seen = counters(progress, cpu, call);
    retire_dead(progress, alloc, serial, seen)
}
