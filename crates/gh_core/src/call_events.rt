//! The events of a call outside the turn.

ghost use Rattle.std.specs.Prelude.{◌≡◌, ◌<◌, ◌≤◌, ◌++◌, false, true};
ghost use Rattle.std.specs.Prelude.{length, map, nat_lt, None, option_map, IfOk, OnOk};
ghost use Rattle.std.specs.List.{last_or, list_any};
ghost use Rattle.gh_base.specs.declared.limits.TheConstants.{CPUS, OBJECT_INDICES};
ghost use Rattle.gh_events.specs.CallEvents.{after_leave, at_stage, begun as begun_of};
ghost use Rattle.gh_events.specs.CallEvents.{end_of_looks as end_of_looks_of, entered};
ghost use Rattle.gh_events.specs.CallEvents.{finished as finished_of, left, looked};
ghost use Rattle.gh_events.specs.CallEvents.{leaves_from as leaves_from_of};
ghost use Rattle.gh_events.specs.CallEvents.{reply_of_looks as reply_of_looks_of, unpinned, with_end};
ghost use Rattle.gh_events.specs.CallEvents.{without_pin as without_pin_of};
ghost use Rattle.gh_events.specs.CallEvents.{found as found_of, has_needs as has_needs_of};
ghost use Rattle.gh_events.specs.CallEvents.{loaded as loaded_of, pin_of_call as pin_of_call_of};
ghost use Rattle.gh_events.specs.CallEvents.{pin_of_look, pinned, undone, with_call, with_pin};
ghost use Rattle.gh_events.specs.CallEvents.{stage_after_look as stage_after_look_of, with_look};
ghost use Rattle.gh_events.specs.Config.{Reading, is_pin_at, present as present_of, seen_index as seen_index_of};
ghost use Rattle.gh_core.specs.Running.{IsKept, boot_of, came_of, cpu_of, current_of};
ghost use Rattle.gh_core.specs.Running.{ended_holds as ended_holds_of, looks_ended};
ghost use Rattle.gh_core.specs.Running.{looked_cpu_of, made_of, pin_list, pin_of, unpinned_cpu};
ghost use Rattle.gh_core.specs.Running.{with_current as with_current_of};
ghost use Rattle.gh_model.specs.Act.{granted as granted_of};
ghost use Rattle.gh_core.specs.Running.{entered_cpu, given_of, seen_of, stage_of, stands_for};
ghost use Rattle.gh_core.specs.Tests.{asks as asks_of, enters, is_between as is_between_of};
ghost use Rattle.gh_core.specs.Tests.{is_at_act as is_at_act_of, is_dead_pin as is_dead_pin_of};
ghost use Rattle.gh_core.specs.Tests.{is_looked as is_looked_of};
ghost use Rattle.gh_core.specs.Tests.{is_reading as is_reading_of, is_seen_at, looks, moves};
ghost use Rattle.gh_core.specs.Tests.{last_is_at as last_is_at_of, leaves, pins, undoes, unpins};
ghost use Rattle.gh_core.specs.Tests.{may_leave as may_leave_of};
ghost use Rattle.gh_model.specs.Marks.{look_of};
ghost use Rattle.gh_core.specs.Tests.{next_looks as next_looks_of, wants as wants_of};

use crate::config::Running;
use crate::cpu::{HeldPin, Seat};
use crate::current::{
    CallStage, Came, CurrentCall, GivenCall, MadeCall, SeenLook, copy_of_frame, copy_of_two,
};
use crate::indices::index_of;
use crate::lookups::{is_slot, last_place};
use crate::reads::{cap, count, counter, cspace_of, is_dead, one_more};
use gh_base::{
    BoundedSequence, CPUS, CapWord, CpuNo, End, Errno, Look, Mark, NoMemory, OBJECT_INDICES,
    ObjIndex, Reply, Sequence, Serial,
};
use gh_frames::needs;
use gh_model::{State, StateReads, Word};
use std::alloc::Global;

/// Whether a machine has this CPU.
pub(crate) fn is_cpu(cpu: CpuNo) -> bool
    ensures { result ≡ nat_lt cpu.0 CPUS }
{
    (cpu.0 as usize) < CPUS
}

/// Whether a call looks up a capability.
pub(crate) fn has_needs(given: &GivenCall) -> bool
    ensures { result ≡ has_needs_of (given_of given.now) }
{
    needs(&given.call).len() > 0
}

fn next_looks(next: &Option<GivenCall>) -> bool
    ensures { result ≡ next_looks_of (option_map given_of next.now) }
{
    match next {
        None => false,
        Some(given) => has_needs(given),
    }
}

/// Whether the CPU is between calls.
pub(crate) fn is_between(seat: &Seat) -> bool
    ensures { result ≡ is_between_of (cpu_of seat.now) }
{
    seat.current.is_none() && seat.pins.is_empty()
}

// Enter

/// Whether the CPU is between calls, and its next call looks up a capability.
fn may_enter(running: &Running, cpu: CpuNo) -> bool
    requires { IsKept running.now }
    ensures { result ≡ enters (stands_for running.now) cpu.0 }
{
    if !is_cpu(cpu) {
        return false;
    }
    let seat = running.seat(cpu);
    is_between(seat) && next_looks(&seat.next)
}

/// A call at its begin.
pub(crate) fn begun(given: GivenCall, section: u64, stage: CallStage) -> CurrentCall
    ensures { current_of result ≡ begun_of section (stage_of stage) (given_of given) }
{
    CurrentCall {
        given,
        section,
        seen: BoundedSequence::new(),
        stage,
    }
}

fn begun_next(
    alloc: Global,
    next: &Option<GivenCall>,
    section: u64,
) -> Result<Option<CurrentCall>, NoMemory>
    ensures { IfOk result (λ current. option_map current_of current
        ≡ option_map (begun_of section Reading) (option_map given_of next.now)) }
{
    match next {
        None => Ok(None),
        Some(given) => {
            let given = given.copied(alloc)?;
            Ok(Some(begun(given, section, CallStage::Reading)))
        }
    }
}

fn entered_seat(alloc: Global, seat: &Seat, section: u64) -> Result<Seat, NoMemory>
    ensures { IfOk result (λ entered. cpu_of entered ≡ entered_cpu section (cpu_of seat.now)) }
{
    let current = begun_next(alloc, &seat.next, section)?;
    let mut entered = seat.copied(alloc)?;
    entered.next = None;
    entered.current = current;
    Ok(entered)
}

/// The CPU opens a read section, and begins its next call.
pub(crate) fn enter(alloc: Global, running: &mut Running, cpu: CpuNo) -> Result<bool, NoMemory>
    requires { IsKept running.old }
    ensures may { IfOk result (λ made. made ≡ enters (stands_for running.old) cpu.0) }
    ensures then { IfOk result (λ made. made ≡ true
        → stands_for running.new ≡ entered (stands_for running.old) cpu.0) }
    ensures kept { OnOk result (IsKept running.new) }
{
    if !may_enter(running, cpu) {
        return Ok(false);
    }
    let section = one_more(counter(running, cpu))?;
    let seat = entered_seat(alloc, running.seat(cpu), section)?;
    running.put_counter(cpu, section)?;
    running.put_seat(cpu, seat);
    Ok(true)
}

// Look

fn is_reading(stage: CallStage) -> bool
    ensures { result ≡ is_reading_of (stage_of stage) }
{
    matches!(stage, CallStage::Reading)
}

/// Whether the call's next look is at this slot.
fn wants(slot: u64, came: Came) -> bool
    ensures { result ≡ wants_of slot (came_of came) }
{
    match came {
        Came::Wants { slot: wanted, .. } => wanted == slot,
        _ => false,
    }
}

fn asks(slot: u64, current: &Option<CurrentCall>) -> bool
    ensures { result ≡ asks_of slot (option_map current_of current.now) }
{
    match current {
        None => false,
        Some(call) => is_reading(call.stage) && wants(slot, call.came_to()),
    }
}

/// Whether the call, in its section and with each earlier grant pinned, looks up this slot next.
fn may_look(running: &Running, cpu: CpuNo, slot: u64) -> bool
    requires { IsKept running.now }
    ensures { result ≡ looks (stands_for running.now) cpu.0 slot }
{
    is_cpu(cpu) && asks(slot, &running.seat(cpu).current)
}

/// The stage behind a look.
fn stage_after_look(came: Came) -> CallStage
    ensures { stage_of result ≡ stage_after_look_of (came_of came) }
{
    match came {
        Came::Fails { .. } => CallStage::Failed,
        _ => CallStage::Looked,
    }
}

/// The call gets a look. It has one at most so far.
fn look_call(call: &mut CurrentCall, seen: SeenLook)
    requires { length call.old.seen < 2 }
    ensures { current_of call.new ≡ with_look (seen_of seen) (current_of call.old) }
{
    call.seen.push(seen);
    call.stage = stage_after_look(call.came_to());
}

/// The word that a CPU looks up: a number that names no slot loads the word of number 0.
fn loaded(running: &Running, boot: &State, cpu: CpuNo, slot: u64) -> CapWord
    requires kept { IsKept running.now }
    requires boot { boot.now ≡ boot_of running.now }
    ensures { result ≡ loaded_of (stands_for running.now) cpu.0 slot }
{
    let first = running.first.as_slice();
    let space = index_of(first, running.given.as_slice(), cspace_of(boot, cpu));
    let slot = if is_slot(slot) { slot } else { 0 };
    cap(running, boot, space, slot)
}

/// The look of a CPU: the present word, at the greater of its setting and the CPU's last place.
fn found(
    running: &Running,
    boot: &State,
    present: &State,
    cpu: CpuNo,
    slot: u64,
    call: &CurrentCall,
) -> SeenLook
    requires kept { IsKept running.now }
    requires boot { boot.now ≡ boot_of running.now }
    requires present { present.now ≡ present_of (stands_for running.now) }
    requires within { cpu.0 < CPUS }
    ensures { seen_of result
        ≡ found_of (stands_for running.now) cpu.0 slot (current_of call.now) }
{
    let word = loaded(running, boot, cpu, slot);
    let last = last_place(running.seat(cpu), call.seen.as_slice());
    let look = Look {
        slot,
        place: word.set_at().max(last),
        word,
    };
    SeenLook {
        look,
        word: present.word(cspace_of(boot, cpu), slot),
    }
}

/// The call with one look more.
fn looked_call(alloc: Global, call: &CurrentCall, seen: SeenLook) -> Result<CurrentCall, NoMemory>
    requires { length call.now.seen < 2 }
    ensures { IfOk result (λ looked. current_of looked
        ≡ with_look (seen_of seen) (current_of call.now)) }
{
    let mut looked = call.copied(alloc)?;
    look_call(&mut looked, seen);
    Ok(looked)
}

/// The CPU with this call in progress.
fn with_current(alloc: Global, seat: &Seat, call: CurrentCall) -> Result<Seat, NoMemory>
    ensures { IfOk result (λ with. cpu_of with ≡ with_current_of (cpu_of seat.now) (current_of call)) }
{
    let mut with = seat.copied(alloc)?;
    with.current = Some(call);
    Ok(with)
}

fn look_seat(
    alloc: Global,
    running: &Running,
    boot: &State,
    present: &State,
    cpu: CpuNo,
    slot: u64,
) -> Result<Seat, NoMemory>
    requires kept { IsKept running.now }
    requires boot { boot.now ≡ boot_of running.now }
    requires present { present.now ≡ present_of (stands_for running.now) }
    requires within { cpu.0 < CPUS }
    requires may { looks (stands_for running.now) cpu.0 slot ≡ true }
    ensures { IfOk result (λ seat. cpu_of seat ≡ looked_cpu_of (stands_for running.now) cpu.0 slot) }
{
    let seat = running.seat(cpu);
    match &seat.current {
        None => seat.copied(alloc),
        Some(call) => {
            let seen = found(running, boot, present, cpu, slot, call);
            let looked = looked_call(alloc, call, seen)?;
            with_current(alloc, seat, looked)
        }
    }
}

// Pin

fn set_stage(current: &mut Option<CurrentCall>, stage: CallStage)
    ensures { option_map current_of current.new
        ≡ option_map (at_stage (stage_of stage)) (option_map current_of current.old) }
{
    if let Some(call) = current {
        call.stage = stage;
    }
}

/// The CPU with its call at another stage.
fn with_stage(alloc: Global, seat: &Seat, stage: CallStage) -> Result<Seat, NoMemory>
    ensures { IfOk result (λ staged. cpu_of staged
        ≡ with_call (at_stage (stage_of stage)) (cpu_of seat.now)) }
{
    let mut staged = seat.copied(alloc)?;
    set_stage(&mut staged.current, stage);
    Ok(staged)
}

fn is_looked(stage: CallStage) -> bool
    ensures { result ≡ is_looked_of (stage_of stage) }
{
    matches!(stage, CallStage::Looked)
}

fn is_dead_pin(stage: CallStage) -> bool
    ensures { result ≡ is_dead_pin_of (stage_of stage) }
{
    matches!(stage, CallStage::DeadPin)
}

pub(crate) fn is_at_act(stage: CallStage) -> bool
    ensures { result ≡ is_at_act_of (stage_of stage) }
{
    matches!(stage, CallStage::AtAct)
}

/// The index in the word of a look.
pub(crate) fn seen_index(seen: &SeenLook) -> u64
    ensures { result ≡ seen_index_of (seen_of seen.now) }
{
    seen.look.word.object().0 as u64
}

/// The last look.
fn last_look(seen: &[SeenLook]) -> Option<SeenLook>
    ensures { option_map seen_of result ≡ last_or None (map seen_of seen.now) }
{
    let mut last = None;
    for look in seen {
        last = Some(*look);
    }
    last
}

/// Whether the last of these looks found a word of this index.
fn last_is_at(seen: &[SeenLook], object: ObjIndex) -> bool
    ensures { result ≡ is_seen_at object.0 (last_or None (map seen_of seen.now)) }
{
    match last_look(seen) {
        None => false,
        Some(look) => seen_index(&look) == object.0 as u64,
    }
}

fn looked_at(current: &Option<CurrentCall>, object: ObjIndex) -> bool
    ensures { result ≡ last_is_at_of is_looked_of object.0 (option_map current_of current.now) }
{
    match current {
        None => false,
        Some(call) => is_looked(call.stage) && last_is_at(call.seen.as_slice(), object),
    }
}

fn dead_pin_at(current: &Option<CurrentCall>, object: ObjIndex) -> bool
    ensures { result ≡ last_is_at_of is_dead_pin_of object.0 (option_map current_of current.now) }
{
    match current {
        None => false,
        Some(call) => is_dead_pin(call.stage) && last_is_at(call.seen.as_slice(), object),
    }
}

/// Whether an object index is one.
pub(crate) fn is_index(object: ObjIndex) -> bool
    ensures { result ≡ nat_lt object.0 OBJECT_INDICES }
{
    (object.0 as usize) < OBJECT_INDICES
}

/// Whether the call's last look granted this index, and has no pin yet.
fn may_pin(running: &Running, cpu: CpuNo, object: ObjIndex) -> bool
    requires { IsKept running.now }
    ensures { result ≡ pins (stands_for running.now) cpu.0 object.0 }
{
    is_cpu(cpu) && is_index(object) && looked_at(&running.seat(cpu).current, object)
}

/// The object that a word grants.
pub(crate) fn granted(word: Word) -> Serial
    ensures { result ≡ granted_of word }
{
    match word.row {
        None => Serial(0),
        Some(row) => row.serial,
    }
}

/// The pin on what the last look granted.
fn last_pin(seen: &[SeenLook]) -> Option<HeldPin>
    ensures { pin_list result ≡ pin_of_look (last_or None (map seen_of seen.now)) }
{
    match last_look(seen) {
        None => None,
        Some(look) => Some(HeldPin {
            serial: granted(look.word),
            index: seen_index(&look),
        }),
    }
}

fn pin_of_call(current: &Option<CurrentCall>) -> Option<HeldPin>
    ensures { pin_list result ≡ pin_of_call_of (option_map current_of current.now) }
{
    match current {
        None => None,
        Some(call) => last_pin(call.seen.as_slice()),
    }
}

fn push_pin(pins: &mut Sequence<HeldPin>, pin: Option<HeldPin>) -> Result<(), NoMemory>
    ensures { OnOk result (map pin_of pins.new ≡ map pin_of pins.old ++ pin_list pin) }
{
    match pin {
        None => Ok(()),
        Some(pin) => pins.push(pin),
    }
}

fn held_seat(alloc: Global, seat: &Seat) -> Result<Seat, NoMemory>
    ensures { IfOk result (λ pinned. cpu_of pinned ≡ with_pin false (cpu_of seat.now)) }
{
    let mut pinned = with_stage(alloc, seat, CallStage::Reading)?;
    push_pin(&mut pinned.pins, pin_of_call(&seat.current))?;
    Ok(pinned)
}

fn pinned_seat(alloc: Global, seat: &Seat, dead: bool) -> Result<Seat, NoMemory>
    ensures { IfOk result (λ pinned. cpu_of pinned ≡ with_pin dead (cpu_of seat.now)) }
{
    if dead {
        with_stage(alloc, seat, CallStage::DeadPin)
    } else {
        held_seat(alloc, seat)
    }
}

/// The CPU's call pins what its last look granted.
pub(crate) fn pin(
    alloc: Global,
    running: &mut Running,
    boot: &State,
    cpu: CpuNo,
    object: ObjIndex,
) -> Result<bool, NoMemory>
    requires kept { IsKept running.old }
    requires boot { boot.now ≡ boot_of running.old }
    ensures may { IfOk result (λ made. made ≡ pins (stands_for running.old) cpu.0 object.0) }
    ensures then { IfOk result (λ made. made ≡ true
        → stands_for running.new ≡ pinned (stands_for running.old) cpu.0 object.0) }
    ensures kept { OnOk result (IsKept running.new) }
{
    if !may_pin(running, cpu, object) {
        return Ok(false);
    }
    let at = object.0 as u64;
    let dead = is_dead(running, boot, at);
    let more = one_more(count(running, boot, at)?)?;
    let seat = pinned_seat(alloc, running.seat(cpu), dead)?;
    running.put_count(at, more)?;
    running.put_seat(cpu, seat);
    Ok(true)
}

// Undo

/// Whether the call has a pin on the dead word at this index.
fn may_undo(running: &Running, cpu: CpuNo, object: ObjIndex) -> bool
    requires { IsKept running.now }
    ensures { result ≡ undoes (stands_for running.now) cpu.0 object.0 }
{
    is_cpu(cpu) && is_index(object) && dead_pin_at(&running.seat(cpu).current, object)
}

/// The CPU takes away its pin on a dead word.
pub(crate) fn undo(
    alloc: Global,
    running: &mut Running,
    boot: &State,
    cpu: CpuNo,
    object: ObjIndex,
) -> Result<bool, NoMemory>
    requires kept { IsKept running.old }
    requires boot { boot.now ≡ boot_of running.old }
    ensures may { IfOk result (λ made. made ≡ undoes (stands_for running.old) cpu.0 object.0) }
    ensures then { IfOk result (λ made. made ≡ true
        → stands_for running.new ≡ undone (stands_for running.old) cpu.0 object.0) }
    ensures kept { OnOk result (IsKept running.new) }
{
    if !may_undo(running, cpu, object) {
        return Ok(false);
    }
    let at = object.0 as u64;
    let less = count(running, boot, at)?.saturating_sub(1);
    let seat = with_stage(alloc, running.seat(cpu), CallStage::Undone)?;
    running.put_count(at, less)?;
    running.put_seat(cpu, seat);
    Ok(true)
}

// Look, whole

/// The CPU loads the word of the capability that its call looks up next.
pub(crate) fn look(
    alloc: Global,
    running: &mut Running,
    boot: &State,
    present: &State,
    cpu: CpuNo,
    slot: u64,
) -> Result<bool, NoMemory>
    requires kept { IsKept running.old }
    requires boot { boot.now ≡ boot_of running.old }
    requires present { present.now ≡ present_of (stands_for running.old) }
    ensures may { IfOk result (λ made. made ≡ looks (stands_for running.old) cpu.0 slot) }
    ensures then { IfOk result (λ made. made ≡ true
        → stands_for running.new ≡ looked (stands_for running.old) cpu.0 slot) }
    ensures kept { OnOk result (IsKept running.new) }
{
    if !may_look(running, cpu, slot) {
        return Ok(false);
    }
    let seat = look_seat(alloc, running, boot, present, cpu, slot)?;
    running.put_seat(cpu, seat);
    Ok(true)
}

// Leave

/// Whether nothing is left to do in the section of a call at this stage.
fn leaves_from(stage: CallStage, came: Came) -> bool
    ensures { result ≡ leaves_from_of (stage_of stage) (came_of came) }
{
    match stage {
        CallStage::Reading => matches!(came, Came::Grants),
        CallStage::Undone | CallStage::Failed => true,
        CallStage::Looked | CallStage::DeadPin | CallStage::AtAct => false,
    }
}

fn current_leaves(current: &Option<CurrentCall>) -> bool
    ensures { result ≡ may_leave_of (option_map current_of current.now) }
{
    match current {
        None => false,
        Some(call) => leaves_from(call.stage, call.came_to()),
    }
}

fn may_leave(running: &Running, cpu: CpuNo) -> bool
    requires { IsKept running.now }
    ensures { result ≡ leaves (stands_for running.now) cpu.0 }
{
    is_cpu(cpu) && current_leaves(&running.seat(cpu).current)
}

fn looks_of(seen: &[SeenLook]) -> BoundedSequence<Look, 2>
    requires { length seen.now ≤ 2 }
    ensures { result ≡ map look_of (map seen_of seen.now) }
{
    let mut looks = BoundedSequence::new();
    for look in seen {
        looks.push(look.look);
    }
    looks
}

/// A finished call, with its end and its reply.
pub(crate) fn finished(
    alloc: Global,
    cpu: CpuNo,
    call: &CurrentCall,
    end: End,
    reply: Reply,
) -> Result<MadeCall, NoMemory>
    ensures { IfOk result (λ made. made_of made ≡ finished_of cpu.0 (current_of call.now) end reply) }
{
    let frame = copy_of_frame(alloc, &call.given.frame)?;
    let seen = copy_of_two(&call.seen);
    let _count = seen.len();
    let mark = Mark {
        cpu,
        number: call.given.number,
        section: call.section,
        looks: looks_of(seen.as_slice()),
        end,
        reply,
    };
    Ok(MadeCall { mark, frame, seen })
}

/// The CPU with its call ended; its pins stay.
pub(crate) fn ended_seat(alloc: Global, seat: &Seat, made: MadeCall) -> Result<Seat, NoMemory>
    ensures { IfOk result (λ ended. cpu_of ended ≡ with_end (cpu_of seat.now) (made_of made)) }
{
    let mut ended = seat.copied(alloc)?;
    ended.current = None;
    ended.made.push(made)?;
    Ok(ended)
}

fn end_of_looks(came: Came) -> End
    ensures { result ≡ end_of_looks_of (came_of came) }
{
    match came {
        Came::Fails { .. } => End::Refused,
        _ => End::Dead,
    }
}

fn reply_of_looks(came: Came) -> Reply
    ensures { result ≡ reply_of_looks_of (came_of came) }
{
    match came {
        Came::Fails { errno } => Reply::refusal(errno),
        _ => Reply::refusal(Errno::CapRevoked),
    }
}

/// The CPU with a call that was refused or is dead ended.
fn refused_seat(
    alloc: Global,
    seat: &Seat,
    cpu: CpuNo,
    call: &CurrentCall,
) -> Result<Seat, NoMemory>
    ensures { IfOk result (λ ended. cpu_of ended
        ≡ looks_ended cpu.0 (cpu_of seat.now) (current_of call.now)) }
{
    let came = call.came_to();
    let made = finished(alloc, cpu, call, end_of_looks(came), reply_of_looks(came))?;
    ended_seat(alloc, seat, made)
}

fn left_seat(alloc: Global, seat: &Seat, cpu: CpuNo) -> Result<Seat, NoMemory>
    ensures { IfOk result (λ left. cpu_of left
        ≡ after_leave cpu.0 (cpu_of seat.now) (cpu_of seat.now).current) }
{
    match &seat.current {
        None => seat.copied(alloc),
        Some(call) => match call.stage {
            CallStage::Reading => with_stage(alloc, seat, CallStage::AtAct),
            _ => refused_seat(alloc, seat, cpu, call),
        },
    }
}

/// The CPU closes its section.
pub(crate) fn leave(alloc: Global, running: &mut Running, cpu: CpuNo) -> Result<bool, NoMemory>
    requires { IsKept running.old }
    ensures may { IfOk result (λ made. made ≡ leaves (stands_for running.old) cpu.0) }
    ensures then { IfOk result (λ made. made ≡ true
        → stands_for running.new ≡ left (stands_for running.old) cpu.0) }
    ensures kept { OnOk result (IsKept running.new) }
{
    if !may_leave(running, cpu) {
        return Ok(false);
    }
    let more = one_more(counter(running, cpu))?;
    let seat = left_seat(alloc, running.seat(cpu), cpu)?;
    running.put_counter(cpu, more)?;
    running.put_seat(cpu, seat);
    Ok(true)
}

// Unpin

fn holds(pins: &[HeldPin], object: ObjIndex) -> bool
    ensures { result ≡ list_any (is_pin_at object.0) (map pin_of pins.now) }
{
    for pin in pins {
        if pin.index == object.0 as u64 {
            return true;
        }
    }
    false
}

fn ended_holds(seat: &Seat, object: ObjIndex) -> bool
    ensures { result ≡ ended_holds_of object.0 (cpu_of seat.now) }
{
    seat.current.is_none() && holds(seat.pins.as_slice(), object)
}

/// Whether the last call has ended but for its pins, and one is at this index.
fn may_unpin(running: &Running, cpu: CpuNo, object: ObjIndex) -> bool
    requires { IsKept running.now }
    ensures { result ≡ unpins (stands_for running.now) cpu.0 object.0 }
{
    is_cpu(cpu) && is_index(object) && ended_holds(running.seat(cpu), object)
}

/// The pins without the first one at an index.
fn without_pin(
    alloc: Global,
    pins: &[HeldPin],
    object: ObjIndex,
) -> Result<Sequence<HeldPin>, NoMemory>
    ensures { IfOk result (λ left. map pin_of left
        ≡ without_pin_of object.0 (map pin_of pins.now)) }
{
    let mut left = Sequence::new(alloc);
    let mut found = false;
    for pin in pins {
        if !found && pin.index == object.0 as u64 {
            found = true;
        } else {
            left.push(*pin)?;
        }
    }
    Ok(left)
}

fn unpinned_seat(alloc: Global, seat: &Seat, object: ObjIndex) -> Result<Seat, NoMemory>
    ensures { IfOk result (λ unpinned. cpu_of unpinned ≡ unpinned_cpu object.0 (cpu_of seat.now)) }
{
    let pins = without_pin(alloc, seat.pins.as_slice(), object)?;
    let mut unpinned = seat.copied(alloc)?;
    unpinned.pins = pins;
    Ok(unpinned)
}

/// The CPU drops a pin of its ended call.
pub(crate) fn unpin(
    alloc: Global,
    running: &mut Running,
    boot: &State,
    cpu: CpuNo,
    object: ObjIndex,
) -> Result<bool, NoMemory>
    requires kept { IsKept running.old }
    requires boot { boot.now ≡ boot_of running.old }
    ensures may { IfOk result (λ made. made ≡ unpins (stands_for running.old) cpu.0 object.0) }
    ensures then { IfOk result (λ made. made ≡ true
        → stands_for running.new ≡ unpinned (stands_for running.old) cpu.0 object.0) }
    ensures kept { OnOk result (IsKept running.new) }
{
    if !may_unpin(running, cpu, object) {
        return Ok(false);
    }
    let at = object.0 as u64;
    let less = count(running, boot, at)?.saturating_sub(1);
    let seat = unpinned_seat(alloc, running.seat(cpu), object)?;
    running.put_count(at, less)?;
    running.put_seat(cpu, seat);
    Ok(true)
}

// Join and Split

/// Whether the CPU's seat may be given back or made: it is between calls.
pub(crate) fn may_move(running: &Running, cpu: CpuNo) -> bool
    requires { IsKept running.now }
    ensures { result ≡ moves (stands_for running.now) cpu.0 }
{
    is_cpu(cpu) && is_between(running.seat(cpu))
}
