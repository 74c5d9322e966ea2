//! The events of the turn's holder on reference words and counters.

ghost use Rattle.std.specs.Prelude.{◌≡◌, ◌<◌, ◌^◌, true, option_map, IfOk, OnOk};
ghost use Rattle.gh_events.specs.Config.{has_acted as has_acted_of, has_part as has_part_of};
ghost use Rattle.gh_events.specs.Config.{is_acted as is_acted_of, is_killed as is_killed_of};
ghost use Rattle.gh_events.specs.Config.{live_references as live_references_of};
ghost use Rattle.gh_events.specs.Config.{present as present_of, some_killed as some_killed_of};
ghost use Rattle.gh_events.specs.HolderEvents.{killed, least_owed as least_owed_of};
ghost use Rattle.gh_events.specs.HolderEvents.{one_less as one_less_of, one_more as one_more_of};
ghost use Rattle.gh_events.specs.HolderEvents.{is_create as is_create_of, revived};
ghost use Rattle.gh_events.specs.HolderEvents.{owed, scanned, settled, with_failed, with_revived};
ghost use Rattle.gh_events.specs.HolderEvents.{with_owed, with_scan, without_scans};
ghost use Rattle.gh_core.specs.Running.{IsKept, boot_of, holder_of, killed_with, stands_for};
ghost use Rattle.gh_model.specs.Legal.{is_part as is_part_of};
ghost use Rattle.gh_core.specs.Running.{current_of};
ghost use Rattle.gh_core.specs.Tests.{creates as creates_of, fits_count as fits_count_of};
ghost use Rattle.gh_core.specs.Tests.{revived_none as revived_none_of, revives};
ghost use Rattle.gh_core.specs.Tests.{holder_is, is_any, is_before_act as is_before_act_of};
ghost use Rattle.gh_core.specs.Tests.{is_ending as is_ending_of, kills, may_die as may_die_of};
ghost use Rattle.gh_core.specs.Tests.{owes, owes_little as owes_little_of};
ghost use Rattle.gh_core.specs.Tests.{owes_more as owes_more_of, owes_none_at as owes_none_at_of, scans, settles};

use crate::acts::does;
use crate::call_events::{is_at_act, is_cpu, is_index};
use crate::config::Running;
use crate::current::CurrentCall;
use crate::holder::Turn;
use crate::indices::{index_of, object_at, references_at};
use crate::reads::{count, counter, is_dead, one_more, present as present_state};
use crate::table::{Written, last_number};
use gh_base::{Call, CpuNo, NoMemory, ObjIndex, Sequence};
use gh_model::{Entry, ObjectRow, State, StateReads};
use std::alloc::Global;

/// The most that is owed at an index, with the references of its object.
const MOST_OWED: u128 = 4_611_686_018_427_387_904;

/// What the holder owes at an index.
pub(crate) fn owed_at(turn: &Turn, at: u64) -> u64
    ensures { result ≡ (holder_of turn.now).owed at }
{
    last_number(turn.owed.as_slice(), at).unwrap_or(0)
}

/// The references of the object that lives at an index now.
pub(crate) fn live_references(running: &Running, present: &State, at: u64) -> u128
    requires { present.now ≡ present_of (stands_for running.now) }
    ensures value { result ≡ live_references_of (stands_for running.now) at }
    ensures small { result < 2 ^ 68 }
{
    references_at(
        present,
        running.first.as_slice(),
        running.given.as_slice(),
        at,
    )
}

// Pin and Unpin of the turn

fn owes_little(running: &Running, boot: &State, present: &State, at: u64, turn: &Turn) -> bool
    requires boot { boot.now ≡ boot_of running.now }
    requires present { present.now ≡ present_of (stands_for running.now) }
    ensures { result ≡ owes_little_of (stands_for running.now) at (holder_of turn.now) }
{
    let references = live_references(running, present, at);
    !is_dead(running, boot, at) && owed_at(turn, at) as u128 + references < MOST_OWED
}

fn holder_owes_little(running: &Running, boot: &State, present: &State, cpu: CpuNo, at: u64) -> bool
    requires boot { boot.now ≡ boot_of running.now }
    requires present { present.now ≡ present_of (stands_for running.now) }
    ensures { result ≡ holder_is cpu.0 (owes_little_of (stands_for running.now) at)
        (option_map holder_of running.now.turn) }
{
    match &running.turn {
        None => false,
        Some(turn) => turn.cpu == cpu && owes_little(running, boot, present, at, turn),
    }
}

/// Whether the word isn't dead, and little is owed there.
fn may_owe(running: &Running, boot: &State, present: &State, cpu: CpuNo, object: ObjIndex) -> bool
    requires boot { boot.now ≡ boot_of running.now }
    requires present { present.now ≡ present_of (stands_for running.now) }
    ensures { result ≡ owes (stands_for running.now) cpu.0 object.0 }
{
    is_cpu(cpu)
        && is_index(object)
        && holder_owes_little(running, boot, present, cpu, object.0 as u64)
}

fn put_owed(turn: &mut Turn, at: u64, value: u64) -> Result<(), NoMemory>
    ensures { OnOk result (holder_of turn.new ≡ with_owed at value (holder_of turn.old)) }
{
    turn.owed.push(Written { at, value })
}

fn owe_more(turn: &mut Option<Turn>, at: u64) -> Result<(), NoMemory>
    ensures { OnOk result (option_map holder_of turn.new
        ≡ option_map (one_more_of at) (option_map holder_of turn.old)) }
{
    match turn {
        None => Ok(()),
        Some(turn) => {
            let more = one_more(owed_at(turn, at))?;
            put_owed(turn, at, more)
        }
    }
}

/// The holder adds a reference that it owes.
pub(crate) fn owe(
    running: &mut Running,
    boot: &State,
    present: &State,
    cpu: CpuNo,
    object: ObjIndex,
) -> Result<bool, NoMemory>
    requires kept { IsKept running.old }
    requires boot { boot.now ≡ boot_of running.old }
    requires present { present.now ≡ present_of (stands_for running.old) }
    ensures may { IfOk result (λ made. made ≡ owes (stands_for running.old) cpu.0 object.0) }
    ensures then { IfOk result (λ made. made ≡ true
        → stands_for running.new ≡ owed (stands_for running.old) object.0) }
    ensures kept { OnOk result (IsKept running.new) }
{
    if !may_owe(running, boot, present, cpu, object) {
        return Ok(false);
    }
    let at = object.0 as u64;
    let more = one_more(count(running, boot, at)?)?;
    running.put_count(at, more)?;
    owe_more(&mut running.turn, at)?;
    Ok(true)
}

/// What has to stay owed at an index: one where no object lives.
fn least_owed(running: &Running, present: &State, at: u64) -> u64
    requires { present.now ≡ present_of (stands_for running.now) }
    ensures { result ≡ least_owed_of (stands_for running.now) at }
{
    let given = running.given.as_slice();
    if object_at(present, running.first.as_slice(), given, at).is_some() {
        0
    } else {
        1
    }
}

fn holder_owes_more(running: &Running, present: &State, cpu: CpuNo, at: u64) -> bool
    requires { present.now ≡ present_of (stands_for running.now) }
    ensures { result ≡ holder_is cpu.0 (owes_more_of (stands_for running.now) at)
        (option_map holder_of running.now.turn) }
{
    match &running.turn {
        None => false,
        Some(turn) => turn.cpu == cpu && least_owed(running, present, at) < owed_at(turn, at),
    }
}

/// Whether the holder owes one there, or more than one where no object lives.
fn may_settle(running: &Running, present: &State, cpu: CpuNo, object: ObjIndex) -> bool
    requires { present.now ≡ present_of (stands_for running.now) }
    ensures { result ≡ settles (stands_for running.now) cpu.0 object.0 }
{
    is_cpu(cpu) && is_index(object) && holder_owes_more(running, present, cpu, object.0 as u64)
}

fn owe_less(turn: &mut Option<Turn>, at: u64) -> Result<(), NoMemory>
    ensures { OnOk result (option_map holder_of turn.new
        ≡ option_map (one_less_of at) (option_map holder_of turn.old)) }
{
    match turn {
        None => Ok(()),
        Some(turn) => {
            let less = owed_at(turn, at).saturating_sub(1);
            put_owed(turn, at, less)
        }
    }
}

/// The holder takes a reference away that it owed.
pub(crate) fn settle(
    running: &mut Running,
    boot: &State,
    present: &State,
    cpu: CpuNo,
    object: ObjIndex,
) -> Result<bool, NoMemory>
    requires kept { IsKept running.old }
    requires boot { boot.now ≡ boot_of running.old }
    requires present { present.now ≡ present_of (stands_for running.old) }
    ensures may { IfOk result (λ made. made ≡ settles (stands_for running.old) cpu.0 object.0) }
    ensures then { IfOk result (λ made. made ≡ true
        → stands_for running.new ≡ settled (stands_for running.old) object.0) }
    ensures kept { OnOk result (IsKept running.new) }
{
    if !may_settle(running, present, cpu, object) {
        return Ok(false);
    }
    let at = object.0 as u64;
    let less = count(running, boot, at)?.saturating_sub(1);
    running.put_count(at, less)?;
    owe_less(&mut running.turn, at)?;
    Ok(true)
}

// Kill

fn is_acted(entry: &Entry) -> bool
    ensures { result ≡ is_acted_of entry.now }
{
    matches!(entry, Entry::Acted { .. })
}

fn is_part(entry: &Entry) -> bool
    ensures { result ≡ is_part_of entry.now }
{
    matches!(entry, Entry::Part { .. })
}

/// Whether the act's entry was committed in this turn.
pub(crate) fn has_acted(turn: &Turn) -> bool
    ensures { result ≡ has_acted_of (holder_of turn.now) }
{
    turn.entries.as_slice().iter().any(|entry| is_acted(entry))
}

/// Whether a part of it was.
pub(crate) fn has_part(turn: &Turn) -> bool
    ensures { result ≡ has_part_of (holder_of turn.now) }
{
    turn.entries.as_slice().iter().any(|entry| is_part(entry))
}

/// Whether nothing of the act was committed.
pub(crate) fn is_before_act(turn: &Turn) -> bool
    ensures { result ≡ is_before_act_of (holder_of turn.now) }
{
    !has_acted(turn) && !has_part(turn)
}

/// Whether an object is killed and not retired.
fn is_killed(running: &Running, boot: &State, row: &ObjectRow) -> bool
    requires { boot.now ≡ boot_of running.now }
    ensures { result
        ≡ is_killed_of (stands_for running.now).dead (stands_for running.now).index row.now }
{
    let index = index_of(
        running.first.as_slice(),
        running.given.as_slice(),
        row.serial,
    );
    match row.retired {
        Some(_) => false,
        None => is_dead(running, boot, index),
    }
}

/// Whether some object is.
pub(crate) fn some_killed(running: &Running, boot: &State, present: &State) -> bool
    requires boot { boot.now ≡ boot_of running.now }
    requires present { present.now ≡ present_of (stands_for running.now) }
    ensures { result ≡ some_killed_of (stands_for running.now) }
{
    let rows = present.objects.as_slice();
    for row in rows {
        if is_killed(running, boot, row) {
            return true;
        }
    }
    false
}

/// Whether the object is without references and not retired.
fn is_ending(present: &State, row: Option<ObjectRow>) -> bool
    ensures { result ≡ is_ending_of present.now row }
{
    match row {
        None => false,
        Some(row) => present.doomed(row.serial) && row.retired.is_none(),
    }
}

fn may_die(running: &Running, boot: &State, present: &State, at: u64) -> bool
    requires boot { boot.now ≡ boot_of running.now }
    requires present { present.now ≡ present_of (stands_for running.now) }
    ensures { result ≡ may_die_of (stands_for running.now) at }
{
    let given = running.given.as_slice();
    is_ending(
        present,
        object_at(present, running.first.as_slice(), given, at),
    ) && !is_dead(running, boot, at)
        && !some_killed(running, boot, present)
}

fn owes_none_at(turn: &Option<Turn>, cpu: CpuNo, at: u64) -> bool
    ensures { result ≡ holder_is cpu.0 (owes_none_at_of at) (option_map holder_of turn.now) }
{
    match turn {
        None => false,
        Some(turn) => turn.cpu == cpu && owed_at(turn, at) == 0 && is_before_act(turn),
    }
}

fn may_kill(running: &Running, boot: &State, present: &State, cpu: CpuNo, object: ObjIndex) -> bool
    requires boot { boot.now ≡ boot_of running.now }
    requires present { present.now ≡ present_of (stands_for running.now) }
    ensures { result ≡ kills (stands_for running.now) cpu.0 object.0 }
{
    let at = object.0 as u64;
    is_cpu(cpu)
        && is_index(object)
        && owes_none_at(&running.turn, cpu, at)
        && may_die(running, boot, present, at)
}

fn clear_scans(alloc: Global, turn: &mut Option<Turn>)
    ensures { option_map holder_of turn.new
        ≡ option_map without_scans (option_map holder_of turn.old) }
{
    if let Some(turn) = turn {
        turn.scans = Sequence::new(alloc);
    }
}

fn put_failed(turn: &mut Option<Turn>, at: u64, value: u64) -> Result<(), NoMemory>
    ensures { OnOk result (option_map holder_of turn.new
        ≡ option_map (with_failed at value) (option_map holder_of turn.old)) }
{
    match turn {
        None => Ok(()),
        Some(turn) => turn.failed.push(Written { at, value }),
    }
}

/// The word of this count becomes dead where that is 0, and else the count is kept as seen.
fn killed_word(
    alloc: Global,
    running: &mut Running,
    object: Option<ObjectRow>,
    at: u64,
    seen: u64,
) -> Result<(), NoMemory>
    requires { IsKept running.old }
    ensures made { OnOk result (stands_for running.new
        ≡ killed_with (stands_for running.old) at seen object) }
    ensures kept { OnOk result (IsKept running.new) }
{
    if seen == 0 {
        clear_scans(alloc, &mut running.turn);
        return running.put_mark(at, true);
    }
    match object {
        None => Ok(()),
        Some(row) => put_failed(&mut running.turn, row.serial.0 as u64, seen),
    }
}

/// The holder makes a reference word of 0 dead, or learns that it isn't 0.
pub(crate) fn kill(
    alloc: Global,
    running: &mut Running,
    boot: &State,
    present: &State,
    cpu: CpuNo,
    object: ObjIndex,
) -> Result<bool, NoMemory>
    requires kept { IsKept running.old }
    requires boot { boot.now ≡ boot_of running.old }
    requires present { present.now ≡ present_of (stands_for running.old) }
    ensures may { IfOk result (λ made. made ≡ kills (stands_for running.old) cpu.0 object.0) }
    ensures then { IfOk result (λ made. made ≡ true
        → stands_for running.new ≡ killed (stands_for running.old) object.0) }
    ensures kept { OnOk result (IsKept running.new) }
{
    if !may_kill(running, boot, present, cpu, object) {
        return Ok(false);
    }
    let at = object.0 as u64;
    let seen = count(running, boot, at)?;
    let given = running.given.as_slice();
    let row = object_at(present, running.first.as_slice(), given, at);
    killed_word(alloc, running, row, at, seen)?;
    Ok(true)
}

// Scan

fn has_turn(turn: &Option<Turn>, cpu: CpuNo) -> bool
    ensures { result ≡ holder_is cpu.0 is_any (option_map holder_of turn.now) }
{
    match turn {
        None => false,
        Some(turn) => turn.cpu == cpu,
    }
}

fn put_scan(turn: &mut Option<Turn>, at: u64, value: u64) -> Result<(), NoMemory>
    ensures { OnOk result (option_map holder_of turn.new
        ≡ option_map (with_scan at value) (option_map holder_of turn.old)) }
{
    match turn {
        None => Ok(()),
        Some(turn) => turn.scans.push(Written { at, value }),
    }
}

/// The holder loads a CPU's counter.
pub(crate) fn scan(running: &mut Running, cpu: CpuNo, of: CpuNo) -> Result<bool, NoMemory>
    requires kept { IsKept running.old }
    ensures may { IfOk result (λ made. made ≡ scans (stands_for running.old) cpu.0 of.0) }
    ensures then { IfOk result (λ made. made ≡ true
        → stands_for running.new ≡ scanned (stands_for running.old) of.0) }
    ensures kept { OnOk result (IsKept running.new) }
{
    if !is_cpu(cpu) || !is_cpu(of) || !has_turn(&running.turn, cpu) {
        return Ok(false);
    }
    let value = counter(running, of);
    put_scan(&mut running.turn, of.0 as u64, value)?;
    Ok(true)
}

// Revive

fn is_create(call: &Call) -> bool
    ensures { result ≡ is_create_of call.now }
{
    matches!(call, Call::Create { .. })
}

/// Whether the call at its act is a create that is done in the present state.
fn creates(
    alloc: Global,
    running: &Running,
    cpu: CpuNo,
    current: &Option<CurrentCall>,
) -> Result<bool, NoMemory>
    requires { IsKept running.now }
    ensures { IfOk result (λ made. made
        ≡ creates_of (present_of (stands_for running.now)) cpu.0
        (option_map current_of current.now)) }
{
    match current {
        None => Ok(false),
        Some(call) => {
            if !is_at_act(call.stage) || !is_create(&call.given.call) {
                return Ok(false);
            }
            let present = present_state(alloc, running)?;
            does(alloc, present, cpu, call)
        }
    }
}

fn revived_none(turn: &Option<Turn>, cpu: CpuNo) -> bool
    ensures { result ≡ holder_is cpu.0 revived_none_of (option_map holder_of turn.now) }
{
    match turn {
        None => false,
        Some(turn) => turn.cpu == cpu && !has_acted(turn) && turn.revived.is_empty(),
    }
}

/// Whether the index has no live object, and the count is neither 0 nor above the most.
fn fits_count(running: &Running, present: &State, at: u64, count: u64) -> bool
    requires { present.now ≡ present_of (stands_for running.now) }
    ensures { result ≡ fits_count_of (stands_for running.now) at count }
{
    let given = running.given.as_slice();
    !object_at(present, running.first.as_slice(), given, at).is_some()
        && 0 < count
        && count as u128 <= MOST_OWED
}

fn may_revive(
    alloc: Global,
    running: &Running,
    present: &State,
    cpu: CpuNo,
    object: ObjIndex,
    count: u64,
) -> Result<bool, NoMemory>
    requires kept { IsKept running.now }
    requires present { present.now ≡ present_of (stands_for running.now) }
    ensures { IfOk result (λ made. made ≡ revives (stands_for running.now) cpu.0 object.0 count) }
{
    if !is_cpu(cpu) || !is_index(object) || !revived_none(&running.turn, cpu) {
        return Ok(false);
    }
    if !creates(alloc, running, cpu, &running.seat(cpu).current)? {
        return Ok(false);
    }
    Ok(fits_count(running, present, object.0 as u64, count))
}

fn put_revived(turn: &mut Turn, at: u64, count: u64) -> Result<(), NoMemory>
    ensures { OnOk result (holder_of turn.new ≡ with_revived at count (holder_of turn.old)) }
{
    put_owed(turn, at, count)?;
    turn.revived.push(at)
}

fn revive_turn(turn: &mut Option<Turn>, at: u64, count: u64) -> Result<(), NoMemory>
    ensures { OnOk result (option_map holder_of turn.new
        ≡ option_map (with_revived at count) (option_map holder_of turn.old)) }
{
    match turn {
        None => Ok(()),
        Some(turn) => put_revived(turn, at, count),
    }
}

/// The holder gives an index without an object a new count, all of it owed.
pub(crate) fn revive(
    alloc: Global,
    running: &mut Running,
    present: &State,
    cpu: CpuNo,
    object: ObjIndex,
    count: u64,
) -> Result<bool, NoMemory>
    requires kept { IsKept running.old }
    requires present { present.now ≡ present_of (stands_for running.old) }
    ensures may { IfOk result (λ made. made
        ≡ revives (stands_for running.old) cpu.0 object.0 count) }
    ensures then { IfOk result (λ made. made ≡ true
        → stands_for running.new ≡ revived (stands_for running.old) object.0 count) }
    ensures kept { OnOk result (IsKept running.new) }
{
    if !may_revive(alloc, running, present, cpu, object, count)? {
        return Ok(false);
    }
    let at = object.0 as u64;
    revive_turn(&mut running.turn, at, count)?;
    running.put_count(at, count)?;
    running.put_mark(at, false)?;
    Ok(true)
}
