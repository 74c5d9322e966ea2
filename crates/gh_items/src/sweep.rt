//! The sweep: the objects without references are retired and reclaimed, as far as pins and readers
//! let them.

ghost use Rattle.std.specs.Prelude.{◌≡◌, ◌+◌, ◌*◌, length, IfOk, OnOk, Some};
ghost use Rattle.gh_events.specs.Config.{Config};
ghost use Rattle.gh_events.specs.Sound.{IsSound};
ghost use Rattle.gh_items.specs.Stands.{Stands, with_call};
ghost use Rattle.gh_items.specs.Sweeps.{Scans, ScansIn, Sweeps, SweepsIn};
ghost use Rattle.gh_schedules.specs.Indices.{HasBlocks};
ghost use Rattle.gh_schedules.specs.Sweep.{HasNotBegun, KeepsNine, doomed_objects, is_doomed_row};
ghost use Rattle.gh_schedules.specs.Sweep.{kills_all, reclaims_all, retired_objects, round, rounds};
ghost use Rattle.gh_schedules.specs.Sweep.{sweep};
ghost use Rattle.gh_schedules.specs.Trace.{after_all};

use crate::progress::Progress;
use crate::sweep_object::{kill, reclaim};
use gh_base::{CpuNo, NoMemory, Sequence, Serial};
use gh_core::CurrentCall;
use gh_model::{ObjectRow, State, StateReads};
use std::alloc::Global;

/// The retired objects, by rising serial.
fn retired_objects(alloc: Global, state: &State) -> Result<Vec<Serial>, NoMemory>
    ensures { IfOk result (λ serials. serials.items ≡ retired_objects state.now) }
{
    let serials: Vec<Serial> = state
        .objects
        .as_slice()
        .iter()
        .filter(|row| row.retired.is_some())
        .map(|row| row.serial)
        .collect(alloc)?;
    Ok(serials)
}

/// Whether the object is to be killed: it has no references and isn't retired.
fn is_doomed_row(state: &State, row: &ObjectRow) -> bool
    ensures { result ≡ is_doomed_row state.now row.now }
{
    StateReads::doomed(state, row.serial) && row.retired.is_none()
}

/// The objects that are to be killed, by rising serial.
fn doomed_objects(alloc: Global, state: &State) -> Result<Sequence<Serial>, NoMemory>
    ensures { IfOk result (λ serials. serials ≡ doomed_objects state.now) }
{
    let mut serials = Sequence::new(alloc);
    let rows = state.objects.as_slice();
    for row in rows {
        if is_doomed_row(state, row) {
            serials.push(row.serial)?;
        }
    }
    Ok(serials)
}

/// Each object is tried for its reclaim that is retired at the begin.
fn reclaims_all(
    progress: &mut Progress,
    alloc: Global,
    cpu: CpuNo,
    call: &CurrentCall,
) -> Result<(), NoMemory>
    requires scans { Scans progress.old cpu.0 call.now }
    ensures stands { (conf : Config) → ScansIn progress.old cpu.0 call.now conf → OnOk result
        (Stands (with_call progress.new cpu.0 (Some call.now))
        (after_all conf (reclaims_all cpu.0 conf))) }
    ensures marks { progress.new.marks ≡ progress.old.marks }
{
    let serials = retired_objects(alloc, progress.plain.state())?;
    let objects = serials.as_slice();
    for serial in objects {
        reclaim(progress, alloc, cpu, call, *serial)?;
    }
    Ok(())
}

/// Each object is killed that is without references at the begin, where its word counts nothing.
fn kills_all(
    progress: &mut Progress,
    alloc: Global,
    cpu: CpuNo,
    call: &CurrentCall,
) -> Result<(), NoMemory>
    requires scans { Scans progress.old cpu.0 call.now }
    ensures stands { (conf : Config) → ScansIn progress.old cpu.0 call.now conf → OnOk result
        (Stands (with_call progress.new cpu.0 (Some call.now))
        (after_all conf (kills_all cpu.0 conf))) }
    ensures marks { progress.new.marks ≡ progress.old.marks }
{
    let serials = doomed_objects(alloc, progress.plain.state())?;
    let objects = serials.as_slice();
    for serial in objects {
        kill(progress, alloc, cpu, call, *serial)?;
    }
    Ok(())
}

/// One round.
fn round(
    progress: &mut Progress,
    alloc: Global,
    cpu: CpuNo,
    call: &CurrentCall,
) -> Result<(), NoMemory>
    requires sweeps { Sweeps progress.old cpu.0 call.now }
    ensures stands { (conf : Config) → SweepsIn progress.old cpu.0 call.now conf → OnOk result
        (Stands (with_call progress.new cpu.0 (Some call.now))
        (after_all conf (round cpu.0 conf))) }
    ensures marks { progress.new.marks ≡ progress.old.marks }
{
    reclaims_all(progress, alloc, cpu, call)?;
    kills_all(progress, alloc, cpu, call)
}

/// The entries of the history so far.
fn entry_count(progress: &Progress) -> usize
    ensures { result ≡ length progress.now.entries }
{
    progress.entries.len()
}

/// So many rounds at most, until one adds no entry.
fn rounds(
    progress: &mut Progress,
    alloc: Global,
    cpu: CpuNo,
    call: &CurrentCall,
    count: usize,
) -> Result<(), NoMemory>
    ghost conf: { Config }
    requires sweeps { SweepsIn progress.old cpu.0 call.now conf }
    ensures stands { OnOk result (Stands (with_call progress.new cpu.0 (Some call.now))
        (after_all conf (rounds cpu.0 count conf))) }
    ensures marks { progress.new.marks ≡ progress.old.marks }
{
    for made in 0..count {
        let before = entry_count(progress);
        round(progress, alloc, cpu, call)?;
        if entry_count(progress) <= before {
            return Ok(());
        }
    }
    Ok(())
}

/// The sweep of the CPU that has the turn, before anything of its act is committed.
pub(crate) fn sweep(
    progress: &mut Progress,
    alloc: Global,
    cpu: CpuNo,
    call: &CurrentCall,
) -> Result<(), NoMemory>
    ghost conf: { Config }
    requires stands { Stands (with_call progress.old cpu.0 (Some call.now)) conf }
    requires sound { IsSound conf }
    requires blocks { HasBlocks conf }
    requires nine { KeepsNine conf.history }
    requires begins { HasNotBegun conf cpu.0 }
    ensures stands { OnOk result (Stands (with_call progress.new cpu.0 (Some call.now))
        (after_all conf (sweep cpu.0 conf))) }
    ensures marks { OnOk result (progress.new.marks ≡ progress.old.marks) }
{
    let objects = progress.plain.state().objects.len();
    rounds(progress, alloc, cpu, call, 2 * objects + 1)
}
