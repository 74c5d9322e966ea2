//! What a run has, beside what a row says.

use crate::row::{Behind, Fact, Standing};
use gh_base::{CpuNo, ObjIndex, Serial};
use gh_core::{CallStage, CurrentCall};
use gh_items::Progress;

fn standing_of(call: &CurrentCall) -> Standing {
    let looks = call.seen.len();
    match call.stage {
        CallStage::Reading => Standing::Reads(looks),
        CallStage::Looked => Standing::Looked(looks),
        CallStage::DeadPin => Standing::TooLate(looks),
        CallStage::Undone => Standing::Undid(looks),
        CallStage::Failed => Standing::Fails(looks),
        CallStage::AtAct => Standing::Acts(looks),
    }
}

fn stage_at(progress: &Progress, cpu: CpuNo) -> Standing {
    match progress.calls.as_slice().get(cpu.0 as usize) {
        None => Standing::Rests,
        Some(call) => match call {
            None => Standing::Rests,
            Some(call) => standing_of(call),
        },
    }
}

/// So many entries and finished calls there are; the state has counted the entries too.
fn counts(progress: &Progress, entries: usize, marks: usize) -> bool {
    progress.entries.len() == entries
        && progress.plain.entries() as u128 == entries as u128
        && progress.marks.len() == marks
}

/// Whether the run is so behind an item of the CPU.
pub(crate) fn is_behind(progress: &Progress, cpu: CpuNo, behind: Behind) -> bool {
    let (wanted, entries, marks) = behind;
    stage_at(progress, cpu) == wanted && counts(progress, entries, marks)
}

fn lies_at(progress: &Progress, serial: Serial, index: ObjIndex) -> bool {
    match progress
        .places
        .as_slice()
        .get(serial.0.saturating_sub(1) as usize)
    {
        None => false,
        Some(at) => *at == index,
    }
}

fn has_seat(progress: &Progress, cpu: CpuNo, place: u32, ended: bool) -> bool {
    match progress.seats.as_slice().get(cpu.0 as usize) {
        None => false,
        Some(seat) => seat.cpu == cpu && seat.place == place && seat.ended == ended,
    }
}

/// Whether the run has this.
pub(crate) fn stands(progress: &Progress, fact: Fact) -> bool {
    match fact {
        Fact::Units(serial, units) => progress.plain.units(serial) == Some(units),
        Fact::LiesAt(serial, index) => lies_at(progress, serial, index),
        Fact::Doomed(serial) => progress.plain.doomed(serial),
        Fact::Retired(serial, seen) => progress.plain.retired(serial) == seen,
        Fact::Seat(cpu, place, ended) => has_seat(progress, cpu, place, ended),
    }
}
