//! The changes of an entry, and the slots that they set.

ghost use Rattle.std.specs.Prelude.{◌≡◌, ◌&&◌, ◌∷◌, [], if◌then◌else◌, option_map, IfOk};
ghost use Rattle.gh_core.specs.Running.{event_of, slot_of};
ghost use Rattle.gh_invariant.specs.Effects.{sets as sets_of, sets_some as sets_some_of};
ghost use Rattle.gh_invariant.specs.Effects.{slots_set as slots_set_of};
ghost use Rattle.gh_events.specs.Entries.{slot_set as slot_set_of};
ghost use Rattle.gh_invariant.specs.Events.{changes_of, judged_by, made_by as made_by_of};
ghost use Rattle.gh_model.specs.Decide.{has_moved as has_moved_of, same_row as same_row_of};
ghost use Rattle.gh_model.specs.Decide.{same_rows as same_rows_of, same_word as same_word_of};
ghost use Rattle.gh_model.specs.Decide.{source_word as source_word_of};
ghost use Rattle.gh_model.specs.Boot.{cpu_cspace};
ghost use Rattle.gh_model.specs.History.{is_retired as is_retired_of, is_unretired as is_unretired_of};
ghost use Rattle.gh_model.specs.History.{may_part as may_part_of};
ghost use Rattle.gh_model.specs.References.{is_doomed};
ghost use Rattle.gh_model.specs.Rows.{object_row as object_row_of};
ghost use Rattle.gh_model.specs.Small.{IsSmall};
ghost use Rattle.gh_model.specs.declared.change.Change.TheVariants.{Reclaim};

use crate::commit::capability_row;
use crate::log::{Logged, grants, may_act};
use gh_base::{Call, CpuNo, NoMemory, Sequence, Serial};
use gh_model::{
    CapabilityRow, Change, Decision, Entry, ObjectRow, State, StateReads, Word, cpu_row, decision,
    object_row,
};
use std::alloc::Global;

fn same_row(a: CapabilityRow, b: CapabilityRow) -> bool
    ensures { result ≡ same_row_of a b }
{
    a.cspace == b.cspace
        && a.slot == b.slot
        && a.serial == b.serial
        && a.kind.number() == b.kind.number()
        && a.rights.0 == b.rights.0
        && a.master == b.master
        && a.valid == b.valid
}

fn same_rows(a: Option<CapabilityRow>, b: Option<CapabilityRow>) -> bool
    ensures { result ≡ same_rows_of a b }
{
    match (a, b) {
        (None, None) => true,
        (Some(a), Some(b)) => same_row(a, b),
        _ => false,
    }
}

fn same_word(a: Word, b: Word) -> bool
    ensures { result ≡ same_word_of a b }
{
    a.set_at == b.set_at && same_rows(a.row, b.row)
}

/// The word of the capability to copy that the call's look found.
fn source_word(words: &[Word]) -> Word
    ensures { result ≡ source_word_of words.now }
{
    match words.get(1) {
        None => Word {
            row: None,
            set_at: 0,
        },
        Some(word) => *word,
    }
}

/// The capability space of a CPU; serial 0 where there is no such CPU.
fn cspace_of(state: &State, cpu: CpuNo) -> Serial
    ensures { result.0 ≡ cpu_cspace state.now.cpus cpu.0 }
{
    match cpu_row(state.cpus.as_slice(), cpu) {
        None => Serial(0),
        Some(row) => row.cspace,
    }
}

/// Whether the capability to copy isn't the one that the call's look found.
fn has_moved(state: &State, cpu: CpuNo, call: &Call, words: &[Word]) -> bool
    ensures { result ≡ has_moved_of state.now cpu.0 call.now words.now }
{
    match *call {
        Call::CapCopy { source, .. } => {
            let word = state.word(cspace_of(state, cpu), source);
            !same_word(word, source_word(words))
        }
        _ => false,
    }
}

/// The changes of a decision.
fn made_by(alloc: Global, decision: Decision) -> Sequence<Change>
    ensures { result ≡ made_by_of decision }
{
    match decision {
        Decision::Refuse { .. } | Decision::Unfinished => Sequence::new(alloc),
        Decision::Make { changes, .. } => changes,
    }
}

/// The changes of an act.
fn act_changes(
    alloc: Global,
    state: &State,
    cpu: CpuNo,
    logged: &Logged,
) -> Result<Sequence<Change>, NoMemory>
    requires { IsSmall state.now }
    ensures { IfOk result (λ changes. changes
        ≡ made_by_of (judged_by state.now cpu.0 (event_of logged.now))) }
{
    let words = logged.words.as_slice();
    let moved = has_moved(state, cpu, &logged.call, words);
    let grants = grants(alloc, &logged.call, words)?;
    let bytes = logged.frame.bytes.as_slice();
    let made = decision(
        alloc,
        state,
        moved,
        cpu,
        &logged.call,
        bytes,
        grants.as_slice(),
    )?;
    Ok(made_by(alloc, made))
}

fn may_part(row: Option<CapabilityRow>) -> bool
    ensures { result ≡ may_part_of row }
{
    match row {
        None => false,
        Some(row) => row.valid && !row.master,
    }
}

fn is_retired(row: Option<ObjectRow>) -> bool
    ensures { result ≡ is_retired_of row }
{
    match row {
        None => false,
        Some(row) => row.retired.is_some(),
    }
}

fn is_unretired(row: Option<ObjectRow>) -> bool
    ensures { result ≡ is_unretired_of row }
{
    match row {
        None => false,
        Some(row) => row.retired.is_none(),
    }
}

/// A list of one change, or none.
fn one_if(alloc: Global, may: bool, change: Change) -> Result<Sequence<Change>, NoMemory>
    ensures { IfOk result (λ changes. changes ≡ (if may then change ∷ [] else [])) }
{
    let mut changes = Sequence::new(alloc);
    if may {
        changes.push(change)?;
    }
    Ok(changes)
}

/// The changes of a reclaim.
fn reclaim_changes(
    alloc: Global,
    state: &State,
    serial: Serial,
) -> Result<Sequence<Change>, NoMemory>
    ensures { IfOk result (λ changes. changes
        ≡ (if is_doomed state.now serial.0 && is_retired_of (object_row_of state.now serial.0)
        then Reclaim serial ∷ [] else [])) }
{
    let row = object_row(state.objects.as_slice(), serial);
    let may = state.doomed(serial) && is_retired(row);
    one_if(alloc, may, Change::Reclaim { object: serial })
}

/// The changes of an entry; none where the state doesn't allow it.
pub(crate) fn changes(
    alloc: Global,
    state: &State,
    logged: &Logged,
) -> Result<Sequence<Change>, NoMemory>
    requires { IsSmall state.now }
    ensures { IfOk result (λ changes. changes ≡ changes_of state.now (event_of logged.now)) }
{
    match logged.entry {
        Entry::Acted { cpu, .. } => {
            if !may_act(state, cpu, &logged.call, logged.words.as_slice()) {
                return Ok(Sequence::new(alloc));
            }
            act_changes(alloc, state, cpu, logged)
        }
        Entry::Part { space, slot, .. } => {
            let may = may_part(capability_row(state.caps.as_slice(), space, slot));
            one_if(
                alloc,
                may,
                Change::RevokeCapability {
                    cspace: space,
                    slot,
                },
            )
        }
        Entry::Retired { serial, seen } => {
            let row = object_row(state.objects.as_slice(), serial);
            let may = state.doomed(serial) && is_unretired(row);
            one_if(
                alloc,
                may,
                Change::Retire {
                    object: serial,
                    seen,
                },
            )
        }
        Entry::Reclaimed { serial, .. } => reclaim_changes(alloc, state, serial),
    }
}

/// A slot that a change sets.
#[derive(Clone, Copy)]
pub struct SlotSet {
    pub cspace: Serial,
    pub slot: u8,
}

fn sets(change: &Change) -> Option<SlotSet>
    ensures { option_map slot_of result ≡ sets_of change.now }
{
    match change {
        Change::PutCapability { row } => Some(SlotSet {
            cspace: row.cspace,
            slot: row.slot,
        }),
        Change::DropCapability { cspace, slot } | Change::RevokeCapability { cspace, slot } => {
            Some(SlotSet {
                cspace: *cspace,
                slot: *slot,
            })
        }
        _ => None,
    }
}

fn sets_some(change: &Change) -> bool
    ensures { result ≡ sets_some_of change.now }
{
    sets(change).is_some()
}

/// How many slots the changes set.
pub(crate) fn slots_set(changes: &[Change]) -> usize
    ensures { result ≡ slots_set_of changes.now }
{
    let mut count = 0;
    for change in changes {
        if sets_some(change) {
            count += 1;
        }
    }
    count
}

/// The first slot that the changes set.
pub(crate) fn slot_set(changes: &[Change]) -> Option<SlotSet>
    ensures { option_map slot_of result ≡ slot_set_of changes.now }
{
    for change in changes {
        let slot = sets(change);
        if slot.is_some() {
            return slot;
        }
    }
    None
}
