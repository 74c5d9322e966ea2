//! Which entries the holder may commit.

ghost use Rattle.std.specs.Prelude.{◌≡◌, ◌<◌, find, is_some, map, IfOk, IfSome};
ghost use Rattle.gh_base.specs.declared.limits.TheConstants.{CPUS};
ghost use Rattle.gh_events.specs.Config.{judged, present as present_of};
ghost use Rattle.gh_events.specs.Entries.{is_before as is_before_of, is_least as is_least_of};
ghost use Rattle.gh_events.specs.Entries.{is_plain_of as is_plain_of_object, logged as logged_of};
ghost use Rattle.gh_core.specs.EntryTests.{are_scans as are_scans_of, goes_on as goes_on_of};
ghost use Rattle.gh_core.specs.EntryTests.{has_left as has_left_of, have_left as have_left_of};
ghost use Rattle.gh_core.specs.EntryTests.{is_its as is_its_of, is_next_slot as is_next_slot_of};
ghost use Rattle.gh_core.specs.EntryTests.{is_unread as is_unread_of, kind_goes as kind_goes_of};
ghost use Rattle.gh_core.specs.EntryTests.{part_goes as part_goes_of};
ghost use Rattle.gh_core.specs.Running.{IsKept, boot_of, current_of, event_of, holder_of, stands_for};
ghost use Rattle.gh_model.specs.Graced.{retirement};
ghost use Rattle.gh_model.specs.Legal.{is_revoke as is_revoke_of, revoked_object as revoked_of};
ghost use Rattle.gh_model.specs.Legal.{row_names as row_names_of};
ghost use Rattle.gh_model.specs.Rows.{fills, object_row as object_row_of};

use crate::acts::{judge_call, words_of};
use crate::call_events::granted;
use crate::config::Running;
use crate::current::{CurrentCall, copy_of_frame};
use crate::ending::{is_scan, scanned};
use crate::holder::Turn;
use crate::holder_events::{has_part, some_killed};
use crate::indices::index_of;
use crate::log::Logged;
use crate::reads::{is_dead, present as present_state};
use gh_base::{CPUS, Call, Counters, CpuNo, NoMemory, Serial, is_reading};
use gh_model::{CapabilityRow, Entry, Judged, ObjectRow, State, Word, object_row};
use std::alloc::Global;

/// An entry with the call that it is of.
pub(crate) fn logged(alloc: Global, entry: Entry, call: &CurrentCall) -> Result<Logged, NoMemory>
    ensures { IfOk result (λ logged. event_of logged ≡ logged_of entry (current_of call.now)) }
{
    let frame = copy_of_frame(alloc, &call.given.frame)?;
    Ok(Logged {
        entry,
        call: call.given.call,
        frame,
        words: words_of(&call.seen),
    })
}

/// Whether an entry of this CPU and number is of the holder's call.
pub(crate) fn is_its(turn: &Turn, call: &CurrentCall, cpu: CpuNo, number: u32) -> bool
    ensures { result ≡ is_its_of (holder_of turn.now) (current_of call.now) cpu.0 number }
{
    cpu == turn.cpu && number == call.given.number
}

// Parts

/// Whether the act isn't refused for another cause than that capabilities are left.
fn goes_on(
    alloc: Global,
    running: &Running,
    cpu: CpuNo,
    call: &CurrentCall,
) -> Result<bool, NoMemory>
    requires { IsKept running.now }
    ensures { IfOk result (λ goes. goes
        ≡ goes_on_of (judged (present_of (stands_for running.now)) cpu.0 (current_of call.now))) }
{
    let mut plain = present_state(alloc, running)?;
    match judge_call(alloc, &mut plain, cpu, call)? {
        Judged::Done(_) => Ok(false),
        Judged::Refused(reply) => Ok(reply.x[0] == 0),
    }
}

fn is_revoke(call: &Call) -> bool
    ensures { result ≡ is_revoke_of call.now }
{
    matches!(call, Call::CapsRevoke { .. })
}

pub(crate) fn capability_row(
    rows: &[CapabilityRow],
    space: Serial,
    slot: u8,
) -> Option<CapabilityRow>
    ensures { result ≡ find (fills space.0 slot) rows.now }
{
    rows.iter()
        .copied()
        .find(|row| row.cspace == space && row.slot == slot)
}

fn row_names(object: Serial, row: Option<CapabilityRow>) -> bool
    ensures { result ≡ row_names_of object.0 row }
{
    match row {
        None => false,
        Some(row) => row.serial == object,
    }
}

/// The object of a revoke: that of its one look.
fn revoked_object(logged: &Logged) -> Serial
    ensures { result.0 ≡ revoked_of (event_of logged.now) }
{
    let words = logged.words.as_slice();
    if words.is_empty() {
        return Serial(0);
    }
    granted(words[0])
}

/// Whether the row is a valid capability of the object without master mark.
fn is_plain_of(object: Serial, row: &CapabilityRow) -> bool
    ensures { result ≡ is_plain_of_object object.0 row.now }
{
    row.valid && !row.master && row.serial == object
}

/// Whether the slot isn't behind the row's.
fn is_before(space: Serial, slot: u8, row: &CapabilityRow) -> bool
    ensures { result ≡ is_before_of space.0 slot row.now }
{
    space.0 < row.cspace.0 || space == row.cspace && slot <= row.slot
}

/// Whether the slot is the least that holds a valid capability of the object without master mark.
fn is_least(present: &State, object: Serial, space: Serial, slot: u8) -> bool
    ensures { result ≡ is_least_of present.now object.0 space.0 slot }
{
    let rows = present.caps.as_slice();
    for row in rows {
        if is_plain_of(object, row) && !is_before(space, slot, row) {
            return false;
        }
    }
    true
}

/// Whether it is that of a revoke's object.
fn is_next_slot(present: &State, logged: &Logged, space: Serial, slot: u8) -> bool
    ensures { result ≡ is_next_slot_of present.now (event_of logged.now) space.0 slot }
{
    let object = revoked_object(logged);
    row_names(object, capability_row(present.caps.as_slice(), space, slot))
        && is_least(present, object, space, slot)
}

// Retirements and reclaims

/// Whether these counters are what was scanned.
pub(crate) fn are_scans(turn: &Turn, seen: Counters) -> bool
    ensures { result ≡ are_scans_of (holder_of turn.now) seen }
{
    for at in 0..CPUS {
        if !is_scan(seen[at], scanned(turn, at)) {
            return false;
        }
    }
    true
}

fn has_left(before: u64, now: u64) -> bool
    ensures { result ≡ has_left_of before now }
{
    if is_reading(before) {
        before < now
    } else {
        true
    }
}

/// Whether every CPU that was reading has left.
fn have_left(before: Counters, now: Counters) -> bool
    ensures { result ≡ have_left_of before now }
{
    for at in 0..CPUS {
        if !has_left(before[at], now[at]) {
            return false;
        }
    }
    true
}

/// Whether every CPU that was reading at the object's retirement has.
pub(crate) fn is_unread(row: Option<ObjectRow>, seen: Counters) -> bool
    ensures { result ≡ is_unread_of (retirement row) seen }
{
    match row {
        None => true,
        Some(row) => match row.retired {
            None => true,
            Some(before) => have_left(before, seen),
        },
    }
}

// Each kind of entry

pub(crate) fn part_goes(
    alloc: Global,
    running: &Running,
    present: &State,
    turn: &Turn,
    call: &CurrentCall,
    logged: &Logged,
) -> Result<bool, NoMemory>
    requires kept { IsKept running.now }
    requires present { present.now ≡ present_of (stands_for running.now) }
    ensures { IfOk result (λ goes. goes ≡ part_goes_of (stands_for running.now)
        (holder_of turn.now) (current_of call.now) (event_of logged.now) logged.now.entry) }
{
    match logged.entry {
        Entry::Part {
            cpu,
            number,
            space,
            slot,
        } => {
            if !is_its(turn, call, cpu, number) || !is_revoke(&call.given.call) {
                return Ok(false);
            }
            let goes = goes_on(alloc, running, cpu, call)?;
            Ok(goes && is_next_slot(present, logged, space, slot))
        }
        _ => Ok(false),
    }
}
