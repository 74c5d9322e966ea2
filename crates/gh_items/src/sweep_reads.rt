//! Counters of CPUs and pins on objects, by the calls in progress: a run's progress keeps no words.

ghost use Rattle.std.specs.Prelude.{◌≡◌, ◌≤◌, length, map, slice_get, true, None, Some};
ghost use Rattle.std.specs.Option.{unwrap_or};
ghost use Rattle.gh_core.specs.Running.{given_of, stage_of};
ghost use Rattle.gh_events.specs.Calls.{steps_at};
ghost use Rattle.gh_events.specs.Config.{Config, present};
ghost use Rattle.gh_events.specs.References.{pins_at};
ghost use Rattle.gh_items.specs.Stands.{index_in};
ghost use Rattle.gh_items.specs.SweepReads.{IsMade, StandsWith, call_at, call_pins, call_steps};
ghost use Rattle.gh_items.specs.SweepReads.{counter_at, pinned_count, sections_at};
ghost use Rattle.gh_schedules.specs.Sweep.{HasNotBegun, all_cpus};
ghost use Rattle.gh_model.specs.References.{is_doomed};

use crate::progress::Progress;
use gh_base::{CPUS, Counters, CpuNo, ObjIndex, Serial};
use gh_core::{CallStage, CurrentCall, SeenLook};
use gh_frames::needs;

// Counters

/// How far a call in progress has brought its CPU's counter.
fn steps(call: &CurrentCall) -> u64
    ensures { result ≡ steps_at (stage_of call.now.stage) (given_of call.now.given) }
{
    match call.stage {
        CallStage::AtAct => {
            if needs(&call.given.call).is_empty() {
                0
            } else {
                2
            }
        }
        CallStage::Reading
        | CallStage::Looked
        | CallStage::DeadPin
        | CallStage::Undone
        | CallStage::Failed => 1,
    }
}

/// How far the call in progress of a CPU other than the holder has.
fn other_steps(progress: &Progress, at: usize) -> u64
    ensures { result ≡ call_steps (unwrap_or (slice_get progress.now.calls at) None) }
{
    match progress.calls.as_slice().get(at) {
        None => 0,
        Some(call) => match call {
            None => 0,
            Some(call) => steps(call),
        },
    }
}

/// The finished calls of a CPU that opened a section.
fn sections(progress: &Progress, at: usize) -> u32
    ensures { result ≡ sections_at progress.now at }
{
    match progress.seats.as_slice().get(at) {
        None => 0,
        Some(seat) => seat.sections,
    }
}

/// The counter of a CPU.
fn counter(progress: &Progress, cpu: CpuNo, call: &CurrentCall, at: usize) -> u64
    ensures { result ≡ counter_at progress.now cpu.0 call.now at }
{
    let steps = if at == cpu.0 as usize {
        steps(call)
    } else {
        other_steps(progress, at)
    };
    2 * sections(progress, at) as u64 + steps
}

/// The counters of all CPUs, with the holder's call beside the progress.
pub(crate) fn counters(progress: &Progress, cpu: CpuNo, call: &CurrentCall) -> Counters
    ensures { (conf : Config) → StandsWith progress.now cpu.0 call.now conf
        → result ≡ map conf.counter all_cpus }
{
    let mut counters = [0; CPUS];
    for at in 0..CPUS {
        counters[at] = counter(progress, cpu, call, at);
    }
    counters
}

// Pins

/// The index of an object, 0 where none was made.
pub(crate) fn index_of(places: &[ObjIndex], serial: Serial) -> ObjIndex
    ensures { result.0 ≡ index_in places.now serial.0 }
{
    match places.get(serial.0.saturating_sub(1) as usize) {
        None => ObjIndex(0),
        Some(index) => *index,
    }
}

/// As many of the first looks of a call have their pins.
fn pinned_count(call: &CurrentCall) -> usize
    ensures { result ≡ pinned_count call.now.stage (length call.now.seen) }
{
    let count = call.seen.len();
    match call.stage {
        CallStage::Reading | CallStage::DeadPin | CallStage::AtAct => count,
        CallStage::Looked | CallStage::Undone | CallStage::Failed => count.saturating_sub(1),
    }
}

/// The pins of a call at an index.
fn pinned_at(call: &CurrentCall, index: ObjIndex) -> usize
    ensures { result ≡ call_pins index.0 (Some call.now) }
{
    call.seen
        .as_slice()
        .iter()
        .take(pinned_count(call))
        .filter(|seen| seen.look.word.object() == index)
        .count()
}

/// They are two at most.
fn pins_in(call: &CurrentCall, index: ObjIndex) -> usize
    ensures pins { result ≡ call_pins index.0 (Some call.now) }
    ensures few { result ≤ 2 }
{
    let count = call.seen.len();
    prove!(count <= 2);
    pinned_at(call, index)
}

/// Those of a CPU other than the holder.
fn other_pins(progress: &Progress, at: usize, index: ObjIndex) -> usize
    ensures pins { result ≡ call_pins index.0 (unwrap_or (slice_get progress.now.calls at) None) }
    ensures few { result ≤ 2 }
{
    match progress.calls.as_slice().get(at) {
        None => 0,
        Some(call) => match call {
            None => 0,
            Some(call) => pins_in(call, index),
        },
    }
}

/// Those of a CPU.
fn pins_of_cpu(
    progress: &Progress,
    cpu: CpuNo,
    call: &CurrentCall,
    at: usize,
    index: ObjIndex,
) -> usize
    ensures pins { result ≡ call_pins index.0 (call_at progress.now cpu.0 call.now at) }
    ensures few { result ≤ 2 }
{
    if at == cpu.0 as usize {
        pins_in(call, index)
    } else {
        other_pins(progress, at, index)
    }
}

/// The pins on an object, with the holder's call beside the progress. Of one that lives without
/// references this is the count of its word, as long as nothing of the act was committed.
pub(crate) fn pins_of(progress: &Progress, cpu: CpuNo, call: &CurrentCall, serial: Serial) -> u64
    ensures pins { (conf : Config) → StandsWith progress.now cpu.0 call.now conf
        → IsMade conf serial.0 → result ≡ pins_at conf.cpu (conf.index serial.0) }
    ensures counts { (conf : Config) → StandsWith progress.now cpu.0 call.now conf
        → IsMade conf serial.0 → HasNotBegun conf cpu.0 → is_doomed (present conf) serial.0 ≡ true
        → result ≡ conf.count (conf.index serial.0) }
{
    let index = index_of(progress.places.as_slice(), serial);
    let mut pins = 0;
    for at in 0..CPUS {
        pins += pins_of_cpu(progress, cpu, call, at, index);
    }
    pins as u64
}
