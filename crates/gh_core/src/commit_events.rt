//! The events by which the holder commits entries.

ghost use Rattle.std.specs.Prelude.{◌≡◌, ◌<◌, false, None, Some, is_some, option_map, true, IfOk, IfSome, OnOk};
ghost use Rattle.gh_base.specs.declared.limits.TheConstants.{CPUS};
ghost use Rattle.gh_events.specs.Config.{present as present_of};
ghost use Rattle.gh_core.specs.EntryTests.{entry_goes, goes_in};
ghost use Rattle.gh_core.specs.EntryTests.{event_goes, kind_goes as kind_goes_of};
ghost use Rattle.gh_core.specs.EntryTests.{may_commit as may_commit_of};
ghost use Rattle.gh_core.specs.EntryTests.{reclaims as reclaims_of, retires as retires_of, sets_slots};
ghost use Rattle.gh_core.specs.Owing.{next_is, owing_covers, owing_of, with_event, with_owing};
ghost use Rattle.gh_core.specs.Running.{IsKept, boot_of, current_of, event_of, holder_of};
ghost use Rattle.gh_core.specs.Running.{index_in, is_made, no_number, stands_for};
ghost use Rattle.gh_core.specs.Tables.{numbers};
ghost use Rattle.gh_events.specs.TurnEvents.{MayCommit, committed};
ghost use Rattle.gh_model.specs.History.{after_event};

use crate::call_events::{is_at_act, is_cpu};
use crate::commit::{are_scans, is_its, is_unread, logged as logged_entry, part_goes};
use crate::config::Running;
use crate::current::CurrentCall;
use crate::holder::Turn;
use crate::holder_events::{has_acted, has_part, some_killed};
use crate::indices::index_of;
use crate::log::{Logged, make};
use crate::owing::{Behind, covers, owed_behind};
use crate::reads::{is_dead, present as present_state};
use crate::slots_set::{changes, slots_set};
use crate::table::Written;
use gh_base::{Counters, CpuNo, NoMemory, Sequence, Serial};
use gh_model::{Entry, Plain, State, object_row};
use std::alloc::Global;

/// A CPU with its turn and its call in progress.
#[derive(Clone, Copy)]
pub struct Acting<'a> {
    pub cpu: CpuNo,
    pub turn: &'a Turn,
    pub call: &'a CurrentCall,
}

/// Whether an object's word is dead, and these counters were scanned before any part.
fn retires(running: &Running, boot: &State, turn: &Turn, serial: Serial, seen: Counters) -> bool
    requires { boot.now ≡ boot_of running.now }
    ensures { result ≡ retires_of (stands_for running.now) (holder_of turn.now) serial.0 seen }
{
    let index = index_of(running.first.as_slice(), running.given.as_slice(), serial);
    is_dead(running, boot, index) && are_scans(turn, seen) && !has_part(turn)
}

/// Whether every CPU that was reading at an object's retirement has left, by these counters.
fn reclaims(present: &State, turn: &Turn, serial: Serial, seen: Counters) -> bool
    ensures { result ≡ reclaims_of present.now (holder_of turn.now) serial.0 seen }
{
    let row = object_row(present.objects.as_slice(), serial);
    is_unread(row, seen) && are_scans(turn, seen) && !has_part(turn)
}

/// Whether an entry of its kind may come beside that the state allows it.
fn kind_goes(
    alloc: Global,
    running: &Running,
    boot: &State,
    present: &State,
    acting: Acting,
    logged: &Logged,
) -> Result<bool, NoMemory>
    requires kept { IsKept running.now }
    requires boot { boot.now ≡ boot_of running.now }
    requires present { present.now ≡ present_of (stands_for running.now) }
    ensures { IfOk result (λ goes. goes ≡ kind_goes_of (stands_for running.now)
        (holder_of acting.entry.turn.now) (current_of acting.entry.call.now) (event_of logged.now)
        logged.now.entry) }
{
    match logged.entry {
        Entry::Acted { cpu, number } => Ok(
            is_its(acting.turn, acting.call, cpu, number) && !some_killed(running, boot, present),
        ),
        Entry::Part { .. } => {
            let goes = part_goes(alloc, running, present, acting.turn, acting.call, logged)?;
            Ok(goes && !some_killed(running, boot, present))
        }
        Entry::Retired { serial, seen } => Ok(retires(running, boot, acting.turn, serial, seen)),
        Entry::Reclaimed { serial, seen } => Ok(reclaims(present, acting.turn, serial, seen)),
    }
}

/// Whether the CPU has the turn, its call is at its act, and the act's entry is still to come.
fn may_commit(acting: Acting) -> bool
    ensures { result ≡ may_commit_of acting.entry.cpu.0 (holder_of acting.entry.turn.now)
        (current_of acting.entry.call.now) }
{
    acting.turn.cpu == acting.cpu && is_at_act(acting.call.stage) && !has_acted(acting.turn)
}

/// The state behind an entry, where that is allowed.
fn allowed(
    alloc: Global,
    running: &Running,
    boot: &State,
    present: &State,
    acting: Acting,
    logged: &Logged,
) -> Result<Option<Plain>, NoMemory>
    requires kept { IsKept running.now }
    requires boot { boot.now ≡ boot_of running.now }
    requires present { present.now ≡ present_of (stands_for running.now) }
    ensures may { IfOk result (λ next. is_some next ≡ event_goes (stands_for running.now)
        acting.entry.cpu.0 (holder_of acting.entry.turn.now) (current_of acting.entry.call.now)
        (event_of logged.now)) }
    ensures next { IfOk result (λ next. IfSome next (λ plain. plain
        ≡ after_event (present_of (stands_for running.now)) (event_of logged.now))) }
{
    if !may_commit(acting) {
        return Ok(None);
    }
    if !kind_goes(alloc, running, boot, present, acting, logged)? {
        return Ok(None);
    }
    let mut next = present_state(alloc, running)?;
    if make(alloc, &mut next, logged)? {
        Ok(Some(next))
    } else {
        Ok(None)
    }
}

/// Whether an entry sets so many slots.
fn sets(alloc: Global, running: &Running, logged: &Logged, count: usize) -> Result<bool, NoMemory>
    requires { IsKept running.now }
    ensures { IfOk result (λ sets. sets
        ≡ sets_slots (present_of (stands_for running.now)) (event_of logged.now) count) }
{
    let plain = present_state(alloc, running)?;
    let changes = changes(alloc, plain.state(), logged)?;
    Ok(slots_set(changes.as_slice()) == count)
}

/// An entry that is allowed, and the state behind it.
#[derive(Drop)]
pub struct Next {
    pub logged: Logged,
    pub state: Plain,
}

/// The entry of a call, where it is allowed and sets so many slots.
fn entry_of(
    alloc: Global,
    running: &Running,
    boot: &State,
    present: &State,
    acting: Acting,
    entry: Entry,
    slots: usize,
) -> Result<Option<Next>, NoMemory>
    requires kept { IsKept running.now }
    requires boot { boot.now ≡ boot_of running.now }
    requires present { present.now ≡ present_of (stands_for running.now) }
    ensures may { IfOk result (λ next. is_some next ≡ goes_in (stands_for running.now)
        acting.entry.cpu.0 entry slots (Some (holder_of acting.entry.turn.now))
        (Some (current_of acting.entry.call.now))) }
    ensures next { IfOk result (λ next. IfSome next (λ ready. next_is (stands_for running.now)
        entry (Some (current_of acting.entry.call.now)) ready)) }
{
    let logged = logged_entry(alloc, entry, acting.call)?;
    match allowed(alloc, running, boot, present, acting, &logged)? {
        None => Ok(None),
        Some(state) => {
            if sets(alloc, running, &logged, slots)? {
                Ok(Some(Next { logged, state }))
            } else {
                Ok(None)
            }
        }
    }
}

/// The entry of the CPU's call, where it has the turn.
pub(crate) fn ready_entry(
    alloc: Global,
    running: &Running,
    boot: &State,
    present: &State,
    cpu: CpuNo,
    entry: Entry,
    slots: usize,
) -> Result<Option<Next>, NoMemory>
    requires kept { IsKept running.now }
    requires boot { boot.now ≡ boot_of running.now }
    requires present { present.now ≡ present_of (stands_for running.now) }
    requires within { cpu.0 < CPUS }
    ensures may { IfOk result (λ next. is_some next
        ≡ entry_goes (stands_for running.now) cpu.0 entry slots) }
    ensures next { IfOk result (λ next. IfSome next (λ ready. next_is (stands_for running.now)
        entry ((stands_for running.now).cpu cpu.0).current ready)) }
{
    match (&running.turn, &running.seat(cpu).current) {
        (Some(turn), Some(call)) => {
            let acting = Acting { cpu, turn, call };
            entry_of(alloc, running, boot, present, acting, entry, slots)
        }
        _ => Ok(None),
    }
}

fn put_owing(turn: &mut Option<Turn>, entry: Entry, owed: Sequence<Written>) -> Result<(), NoMemory>
    ensures { OnOk result (option_map holder_of turn.new
        ≡ option_map (with_owing entry (numbers no_number owed)) (option_map holder_of turn.old)) }
{
    match turn {
        None => Ok(()),
        Some(turn) => {
            turn.entries.push(entry)?;
            turn.owed = owed;
            Ok(())
        }
    }
}

/// The history gets an event that is allowed, and the holder owes this.
pub(crate) fn put_event(
    running: &mut Running,
    logged: Logged,
    owed: Sequence<Written>,
) -> Result<(), NoMemory>
    requires kept { IsKept running.old }
    requires made { is_made (present_of (stands_for running.old)) (event_of logged) ≡ true }
    ensures put { OnOk result (stands_for running.new
        ≡ with_event (stands_for running.old) (event_of logged) (numbers no_number owed)) }
    ensures first { OnOk result (running.new.first ≡ running.old.first) }
    ensures kept { OnOk result (IsKept running.new) }
{
    let entry = logged.entry;
    put_owing(&mut running.turn, entry, owed)?;
    running.log.push(logged)
}

/// What is owed behind an entry; none where an owed amount would fall below 0.
pub(crate) fn owing_behind(
    alloc: Global,
    turn: &Option<Turn>,
    behind: Behind,
) -> Result<Option<Sequence<Written>>, NoMemory>
    ensures none { IfOk result (λ owed. owed ≡ None → owing_covers turn.now
        behind.entry.old.now behind.entry.new.now
        (index_in behind.entry.first.now behind.entry.given.now)
        (index_in behind.entry.first.now behind.entry.later.now) → ⊥) }
    ensures some { IfOk result (λ owed. is_some owed ≡ true → owing_covers turn.now
        behind.entry.old.now behind.entry.new.now
        (index_in behind.entry.first.now behind.entry.given.now)
        (index_in behind.entry.first.now behind.entry.later.now)) }
    ensures value { IfOk result (λ owed. IfSome owed (λ all. all ≡ owing_of turn.now
        behind.entry.old.now behind.entry.new.now
        (index_in behind.entry.first.now behind.entry.given.now)
        (index_in behind.entry.first.now behind.entry.later.now))) }
{
    match turn {
        None => Ok(None),
        Some(turn) => {
            let owed = turn.owed.as_slice();
            if !covers(behind, owed) {
                return Ok(None);
            }
            Ok(Some(owed_behind(alloc, behind, owed)?))
        }
    }
}

/// What is owed behind an entry that leaves the indices as they are.
fn owing_there(
    alloc: Global,
    running: &Running,
    present: &State,
    new: &Plain,
) -> Result<Option<Sequence<Written>>, NoMemory>
    ensures none { IfOk result (λ owed. owed ≡ None → owing_covers running.now.turn present.now
        new.now (stands_for running.now).index (stands_for running.now).index → ⊥) }
    ensures some { IfOk result (λ owed. is_some owed ≡ true → owing_covers running.now.turn
        present.now new.now (stands_for running.now).index (stands_for running.now).index) }
    ensures value { IfOk result (λ owed. IfSome owed (λ all. all ≡ owing_of running.now.turn
        present.now new.now (stands_for running.now).index (stands_for running.now).index)) }
{
    let behind = Behind {
        old: present,
        new: new.state(),
        first: running.first.as_slice(),
        given: running.given.as_slice(),
        later: running.given.as_slice(),
    };
    owing_behind(alloc, &running.turn, behind)
}

/// An entry that is allowed is committed where no owed amount falls below 0.
fn commit_ready(
    alloc: Global,
    running: &mut Running,
    present: &State,
    next: Next,
) -> Result<bool, NoMemory>
    requires kept { IsKept running.old }
    requires present { present.now ≡ present_of (stands_for running.old) }
    requires made { is_made (present_of (stands_for running.old)) (event_of next.logged) ≡ true }
    ensures no { IfOk result (λ made. made ≡ false → owing_covers running.old.turn
        present.now next.state (stands_for running.old).index (stands_for running.old).index
        → ⊥) }
    ensures may { IfOk result (λ made. made ≡ true → owing_covers running.old.turn
        present.now next.state (stands_for running.old).index (stands_for running.old).index) }
    ensures then { IfOk result (λ made. made ≡ true → stands_for running.new
        ≡ with_event (stands_for running.old) (event_of next.logged) (numbers no_number
        (owing_of running.old.turn present.now next.state (stands_for running.old).index
        (stands_for running.old).index))) }
    ensures kept { OnOk result (IsKept running.new) }
{
    match owing_there(alloc, running, present, &next.state)? {
        None => Ok(false),
        Some(owed) => {
            put_event(running, next.logged, owed)?;
            Ok(true)
        }
    }
}

/// The holder commits an entry that sets no slot.
pub(crate) fn commit(
    alloc: Global,
    running: &mut Running,
    boot: &State,
    present: &State,
    cpu: CpuNo,
    entry: Entry,
) -> Result<bool, NoMemory>
    requires kept { IsKept running.old }
    requires boot { boot.now ≡ boot_of running.old }
    requires present { present.now ≡ present_of (stands_for running.old) }
    ensures no { IfOk result (λ made. made ≡ false
        → MayCommit (stands_for running.old) cpu.0 entry → ⊥) }
    ensures may { IfOk result (λ made. made ≡ true
        → MayCommit (stands_for running.old) cpu.0 entry) }
    ensures then { IfOk result (λ made. made ≡ true
        → stands_for running.new ≡ committed (stands_for running.old) cpu.0 entry) }
    ensures kept { OnOk result (IsKept running.new) }
{
    if !is_cpu(cpu) {
        return Ok(false);
    }
    match ready_entry(alloc, running, boot, present, cpu, entry, 0)? {
        None => Ok(false),
        Some(next) => commit_ready(alloc, running, present, next),
    }
}
