//! The act of a call: it is decided, and then its changes are made.

ghost use Rattle.std.specs.Prelude.{◌≡◌, ◌<◌, [], Option, IfOk, OnErr};
ghost use Rattle.gh_base.specs.declared.limits.TheConstants.{HISTORY_ENTRIES};
ghost use Rattle.gh_model.specs.Act.{Judges, counted};
ghost use Rattle.gh_model.specs.Boot.{cpu_cspace};
ghost use Rattle.gh_model.specs.Decide.{decision as decision_of, has_moved, same_row};
ghost use Rattle.gh_model.specs.Decide.{same_rows, same_word, source_word, verdict};
ghost use Rattle.gh_model.specs.Small.{IsKept};

use crate::capability_calls::done;
use crate::change::Decision;
use crate::decide::decision;
use crate::lookup::cpu_row;
use crate::make::make_all;
use crate::plain::Judged;
use crate::rows::{CapabilityRow, TakenSlot};
use crate::state::State;
use crate::state_reads::StateReads;
use crate::word::Word;
use gh_base::{Call, CpuNo, NoMemory, Reply, Sequence, Serial};
use std::alloc::Global;

/// No slot is taken by a revoke now.
fn forget(taken: &mut Sequence<TakenSlot>)
    ensures { taken.new ≡ [] }
{
    for done in 0..taken.len() {
        let _ = taken.pop();
    }
}

/// An entry of the history is made, which is no part of a revoke.
pub(crate) fn count(state: &mut State)
    requires { state.old.entries < HISTORY_ENTRIES }
    ensures { state.new ≡ counted state.old }
{
    state.entries += 1;
    forget(&mut state.taken);
}

fn same_row(a: CapabilityRow, b: CapabilityRow) -> bool
    ensures { result ≡ same_row a b }
{
    a.cspace == b.cspace
        && a.slot == b.slot
        && a.serial == b.serial
        && a.kind.number() == b.kind.number()
        && a.rights.0 == b.rights.0
        && a.master == b.master
        && a.valid == b.valid
}

fn same_rows(a: Option<CapabilityRow>, b: Option<CapabilityRow>) -> bool
    ensures { result ≡ same_rows a b }
{
    match (a, b) {
        (None, None) => true,
        (Some(a), Some(b)) => same_row(a, b),
        _ => false,
    }
}

fn same_word(a: Word, b: Word) -> bool
    ensures { result ≡ same_word a b }
{
    a.set_at == b.set_at && same_rows(a.row, b.row)
}

/// The word of the capability to copy that the call's look found.
fn source_word(words: &[Word]) -> Word
    ensures { result ≡ source_word words.now }
{
    match words.get(1) {
        None => Word {
            row: None,
            set_at: 0,
        },
        Some(word) => *word,
    }
}

/// The capability space of a CPU; serial 0 where there is no such CPU.
pub(crate) fn cspace_of(state: &State, cpu: CpuNo) -> Serial
    ensures { result.0 ≡ cpu_cspace state.now.cpus cpu.0 }
{
    match cpu_row(state.cpus.as_slice(), cpu) {
        None => Serial(0),
        Some(row) => row.cspace,
    }
}

/// Whether the capability to copy isn't the one that the call's look found.
pub(crate) fn has_moved(state: &State, cpu: CpuNo, call: &Call, words: &[Word]) -> bool
    ensures { result ≡ has_moved state.now cpu.0 call.now words.now }
{
    match *call {
        Call::CapCopy { source, .. } => {
            let word = state.word(cspace_of(state, cpu), source);
            !same_word(word, source_word(words))
        }
        _ => false,
    }
}

/// The act of a call: a refusal, or its changes and an entry of the history. Without memory nothing
/// changes.
pub(crate) fn act(
    alloc: Global,
    state: &mut State,
    moved: bool,
    cpu: CpuNo,
    call: &Call,
    bytes: &[u8],
    grants: &[Serial],
) -> Result<Judged, NoMemory>
    requires kept { IsKept state.old }
    requires entries { state.old.entries < HISTORY_ENTRIES }
    ensures judged { IfOk result (λ judged. Judges state.old state.new judged
        (verdict state.old (decision_of moved state.old cpu.0 call.now bytes.now grants.now))) }
    ensures no_memory { OnErr result (state.new ≡ state.old) }
{
    match decision(alloc, &*state, moved, cpu, call, bytes, grants)? {
        Decision::Refuse { errno } => Ok(Judged::Refused(Reply::refusal(errno))),
        Decision::Unfinished => Ok(Judged::Refused(done())),
        Decision::Make { changes, reply } => {
            make_all(alloc, state, changes)?;
            count(state);
            Ok(Judged::Done(reply))
        }
    }
}
