//! The event by which the holder commits an entry that sets a slot.

ghost use Rattle.std.specs.Prelude.{◌≡◌, ◌<◌, false, is_some, None, option_map, true};
ghost use Rattle.std.specs.Prelude.{IfOk, IfSome, OnOk};
ghost use Rattle.std.specs.List.{list_all, list_any};
ghost use Rattle.gh_events.specs.Config.{present as present_of};
ghost use Rattle.gh_events.specs.Entries.{is_that_index, makes_object as makes_object_of};
ghost use Rattle.gh_events.specs.Entries.{slot_set as slot_set_of};
ghost use Rattle.gh_core.specs.Owing.{later_indices as later_indices_of, owing_covers, owing_of};
ghost use Rattle.gh_core.specs.Owing.{revived_for as revived_for_of, setting_goes as setting_goes_of};
ghost use Rattle.gh_core.specs.Owing.{later_of, slot_shows as slot_shows_of, with_event, with_slot};
ghost use Rattle.gh_core.specs.Running.{IsKept, boot_of, event_of, has_index, holder_of, index_in};
ghost use Rattle.gh_core.specs.Running.{is_made, no_number, slot_of, stands_for};
ghost use Rattle.gh_core.specs.Tables.{numbers};
ghost use Rattle.gh_events.specs.TurnEvents.{MaySetCap, set_cap as set_cap_of};
ghost use Rattle.gh_invariant.specs.Events.{changes_of};

use crate::call_events::{is_cpu, is_index};
use crate::commit_events::{Next, owing_behind, put_event, ready_entry};
use crate::config::Running;
use crate::holder::Turn;
use crate::indices::index_of;
use crate::log::Logged;
use crate::owing::Behind;
use crate::reads::{present as present_state, shown};
use crate::slots_set::{SlotSet, changes, slot_set};
use crate::table::{SlotWritten, Written};
use gh_base::{CapWord, CpuNo, NoMemory, ObjIndex, Sequence};
use gh_model::{Entry, Plain, State, StateReads, object_row};
use std::alloc::Global;

/// The slot that an entry sets, and the word that it gets.
#[derive(Clone, Copy)]
pub struct Setting {
    /// The index of the capability space.
    pub space: ObjIndex,
    pub slot: u8,
    pub word: CapWord,
}

/// Whether an entry makes an object: the next serial lives behind it.
fn makes_object(old: &State, new: &State) -> bool
    ensures { result ≡ makes_object_of old.now new.now }
{
    object_row(new.objects.as_slice(), old.next_serial()).is_some()
}

/// The indices of objects that entries made, behind one more: an object that it makes has the index
/// in the word.
fn later_indices(
    alloc: Global,
    given: &[Written],
    old: &State,
    new: &State,
    word: CapWord,
) -> Result<Sequence<Written>, NoMemory>
    ensures { IfOk result (λ later. later ≡ later_indices_of given.now old.now new.now word) }
{
    let mut later = Sequence::from_slice(alloc, given)?;
    if makes_object(old, new) {
        later.push(Written {
            at: old.next_serial().0 as u64,
            value: word.object().0 as u64,
        })?;
    }
    Ok(later)
}

fn is_revived(revived: &[u64], index: u64) -> bool
    ensures { result ≡ list_any (is_that_index index) revived.now }
{
    for one in revived {
        if *one == index {
            return true;
        }
    }
    false
}

/// Whether an object that the entry makes has an index that was revived in this turn.
fn revived_for(turn: &Option<Turn>, old: &State, new: &State, word: CapWord) -> bool
    ensures { result ≡ revived_for_of (option_map holder_of turn.now) old.now new.now word }
{
    match turn {
        None => false,
        Some(turn) => {
            let index = word.object().0 as u64;
            !makes_object(old, new) || is_revived(turn.revived.as_slice(), index)
        }
    }
}

/// Whether the slot that was set is this one, and the word shows what it has in the new state.
fn slot_shows(
    running: &Running,
    new: &State,
    later: &[Written],
    setting: Setting,
    place: Option<SlotSet>,
) -> bool
    requires kept { IsKept running.now }
    requires later { list_all has_index later.now ≡ true }
    ensures { result ≡ slot_shows_of (stands_for running.now) new.now
        (index_in running.now.first later.now) setting.space.0 setting.slot setting.word
        (option_map slot_of place) }
{
    match place {
        None => false,
        Some(place) => {
            let first = running.first.as_slice();
            let index = index_of(first, running.given.as_slice(), place.cspace);
            let word = shown(first, later, new.word(place.cspace, setting.slot as u64));
            place.slot == setting.slot
                && index == setting.space.0 as u64
                && setting.word.0 == word.0
        }
    }
}

/// The slot that an event sets first.
fn slot_of_event(
    alloc: Global,
    running: &Running,
    logged: &Logged,
) -> Result<Option<SlotSet>, NoMemory>
    requires { IsKept running.now }
    ensures { IfOk result (λ place. option_map slot_of place
        ≡ slot_set_of (changes_of (present_of (stands_for running.now)) (event_of logged.now))) }
{
    let plain = present_state(alloc, running)?;
    let changes = changes(alloc, plain.state(), logged)?;
    Ok(slot_set(changes.as_slice()))
}

/// Whether the event may set the slot to this word.
fn setting_goes(
    alloc: Global,
    running: &Running,
    present: &State,
    next: &Next,
    later: &[Written],
    setting: Setting,
) -> Result<bool, NoMemory>
    requires kept { IsKept running.now }
    requires present { present.now ≡ present_of (stands_for running.now) }
    requires later { list_all has_index later.now ≡ true }
    ensures { IfOk result (λ goes. goes ≡ setting_goes_of (stands_for running.now)
        (event_of next.now.logged) next.now.state (index_in running.now.first later.now)
        setting.space.0 setting.slot setting.word) }
{
    let place = slot_of_event(alloc, running, &next.logged)?;
    let new = next.state.state();
    Ok(
        slot_shows(running, new, later, setting, place)
            && revived_for(&running.turn, present, new, setting.word),
    )
}

/// What is owed behind an entry that leaves these indices.
fn owing_later(
    alloc: Global,
    running: &Running,
    present: &State,
    new: &Plain,
    later: &[Written],
) -> Result<Option<Sequence<Written>>, NoMemory>
    ensures none { IfOk result (λ owed. owed ≡ None → owing_covers running.now.turn present.now
        new.now (stands_for running.now).index (index_in running.now.first later.now) → ⊥) }
    ensures some { IfOk result (λ owed. is_some owed ≡ true → owing_covers running.now.turn
        present.now new.now (stands_for running.now).index
        (index_in running.now.first later.now)) }
    ensures value { IfOk result (λ owed. IfSome owed (λ all. all ≡ owing_of running.now.turn
        present.now new.now (stands_for running.now).index
        (index_in running.now.first later.now))) }
{
    let behind = Behind {
        old: present,
        new: new.state(),
        first: running.first.as_slice(),
        given: running.given.as_slice(),
        later,
    };
    owing_behind(alloc, &running.turn, behind)
}

/// The indices and the word of a slot.
fn put_setting(
    running: &mut Running,
    later: Sequence<Written>,
    setting: Setting,
) -> Result<(), NoMemory>
    requires kept { IsKept running.old }
    requires later { list_all has_index later ≡ true }
    ensures put { OnOk result (stands_for running.new ≡ with_slot (stands_for running.old)
        (index_in running.old.first later) setting.space.0 setting.slot setting.word) }
    ensures kept { OnOk result (IsKept running.new) }
{
    running.given = later;
    running.caps.push(SlotWritten {
        space: setting.space.0 as u64,
        slot: setting.slot as u64,
        word: setting.word,
    })
}

/// The indices behind the entry that is ready.
fn later_here(
    alloc: Global,
    running: &Running,
    present: &State,
    next: &Next,
    word: CapWord,
) -> Result<Sequence<Written>, NoMemory>
    requires kept { IsKept running.now }
    requires present { present.now ≡ present_of (stands_for running.now) }
    ensures later { IfOk result (λ later. later ≡ later_indices_of running.now.given
        (present_of (stands_for running.now)) next.now.state word) }
    ensures within { IfOk result (λ later. list_all has_index later ≡ true) }
{
    let given = running.given.as_slice();
    later_indices(alloc, given, present, next.state.state(), word)
}

/// An entry that is allowed sets its slot, where it may and no owed amount falls below 0.
fn set_ready(
    alloc: Global,
    running: &mut Running,
    present: &State,
    next: Next,
    setting: Setting,
) -> Result<bool, NoMemory>
    requires kept { IsKept running.old }
    requires present { present.now ≡ present_of (stands_for running.old) }
    requires made { is_made (present_of (stands_for running.old)) (event_of next.logged) ≡ true }
    ensures no { IfOk result (λ made. made ≡ false
        → setting_goes_of (stands_for running.old) (event_of next.logged) next.state
        (later_of running.old next setting.word) setting.space.0 setting.slot setting.word ≡ true
        → owing_covers running.old.turn (present_of (stands_for running.old)) next.state
        (stands_for running.old).index (later_of running.old next setting.word) → ⊥) }
    ensures goes { IfOk result (λ made. made ≡ true
        → setting_goes_of (stands_for running.old) (event_of next.logged) next.state
        (later_of running.old next setting.word) setting.space.0 setting.slot setting.word
        ≡ true) }
    ensures covers { IfOk result (λ made. made ≡ true → owing_covers running.old.turn
        (present_of (stands_for running.old)) next.state (stands_for running.old).index
        (later_of running.old next setting.word)) }
    ensures then { IfOk result (λ made. made ≡ true → stands_for running.new ≡ with_slot
        (with_event (stands_for running.old) (event_of next.logged) (numbers no_number (owing_of
        running.old.turn (present_of (stands_for running.old)) next.state
        (stands_for running.old).index (later_of running.old next setting.word))))
        (later_of running.old next setting.word) setting.space.0 setting.slot setting.word) }
    ensures kept { OnOk result (IsKept running.new) }
{
    let later = later_here(alloc, running, present, &next, setting.word)?;
    if !setting_goes(alloc, running, present, &next, later.as_slice(), setting)? {
        return Ok(false);
    }
    match owing_later(alloc, running, present, &next.state, later.as_slice())? {
        None => Ok(false),
        Some(owed) => {
            put_event(running, next.logged, owed)?;
            put_setting(running, later, setting)?;
            Ok(true)
        }
    }
}

/// The holder commits an entry that sets a slot.
pub(crate) fn set_cap(
    alloc: Global,
    running: &mut Running,
    boot: &State,
    present: &State,
    cpu: CpuNo,
    entry: Entry,
    setting: Setting,
) -> Result<bool, NoMemory>
    requires kept { IsKept running.old }
    requires boot { boot.now ≡ boot_of running.old }
    requires present { present.now ≡ present_of (stands_for running.old) }
    ensures no { IfOk result (λ made. made ≡ false → MaySetCap (stands_for running.old) cpu.0
        entry setting.space.0 setting.slot setting.word → ⊥) }
    ensures may { IfOk result (λ made. made ≡ true → MaySetCap (stands_for running.old) cpu.0
        entry setting.space.0 setting.slot setting.word) }
    ensures then { IfOk result (λ made. made ≡ true → stands_for running.new ≡ set_cap_of
        (stands_for running.old) cpu.0 entry setting.space.0 setting.slot setting.word) }
    ensures kept { OnOk result (IsKept running.new) }
{
    if !is_cpu(cpu) {
        return Ok(false);
    }
    if !is_index(setting.space) {
        return Ok(false);
    }
    match ready_entry(alloc, running, boot, present, cpu, entry, 1)? {
        None => Ok(false),
        Some(next) => set_ready(alloc, running, present, next, setting),
    }
}
