//! The act of a call that sweeps.

ghost use Rattle.std.specs.Prelude.{◌≡◌, ◌+◌, ◌<◌, length, map, true, IfOk, OnOk, Some, option_map};
ghost use Rattle.gh_core.specs.Running.{current_of, seen_of};
ghost use Rattle.gh_events.specs.Config.{Config};
ghost use Rattle.gh_events.specs.TurnEvents.{taken};
ghost use Rattle.gh_items.specs.Acts.{ActsNext, judged_in};
ghost use Rattle.gh_items.specs.Calling.{AddsMark};
ghost use Rattle.gh_items.specs.Stands.{Stands, index_in, index_number, noted_in, with_call};
ghost use Rattle.gh_items.specs.SweepReads.{StandsWith};
ghost use Rattle.gh_items.specs.Swept.{refused_end, with_done, with_place, with_refusal};
ghost use Rattle.gh_model.specs.Act.{grants_of};
ghost use Rattle.gh_model.specs.Decisions.{grant_at};
ghost use Rattle.gh_model.specs.Legal.{is_short};
ghost use Rattle.gh_model.specs.Marks.{word_of};
ghost use Rattle.gh_schedules.specs.Causes.{causes_now};
ghost use Rattle.gh_items.specs.NewIndex.{index_made};
ghost use Rattle.gh_schedules.specs.Indices.{kind_made};
ghost use Rattle.gh_schedules.specs.Items.{act, sweeps};
ghost use Rattle.gh_schedules.specs.Sweep.{HasNotBegun};
ghost use Rattle.gh_schedules.specs.Trace.{after_all};

use crate::causes::causes;
use crate::end::end_call;
use crate::judge::{grants, judge, words_of};
use crate::new_index::{new_index, new_place};
use crate::progress::{Progress, Seat, seat_of};
use crate::sweep::sweep;
use gh_base::{Call, CpuNo, End, Kind, NoMemory, ObjIndex, Reply, Serial};
use gh_core::CurrentCall;
use gh_model::{Entry, Judged};
use std::alloc::Global;

/// The kind of the object that a call makes, if it makes one.
fn kind_made(call: &Call) -> Option<Kind>
    ensures { result ≡ kind_made call.now }
{
    match call {
        Call::Create {
            partition: _,
            cspace: _,
            kind,
        } => Kind::of_number(*kind),
        _ => None,
    }
}

/// The object of the first look.
fn first_grant(grants: &[Serial]) -> Serial
    ensures { result ≡ grant_at grants.now 0 }
{
    match grants.get(0) {
        None => Serial(0),
        Some(grant) => *grant,
    }
}

/// The index that the object of the call gets, if it makes one.
fn index_made(
    progress: &Progress,
    alloc: Global,
    call: &CurrentCall,
) -> Result<Option<ObjIndex>, NoMemory>
    ensures { IfOk result (λ index. option_map index_number index
        ≡ index_made progress.now.plain (noted_in progress.now.noted)
        (index_in progress.now.places) call.now.given.call
        (grants_of call.now.given.call (map word_of (map seen_of call.now.seen)))) }
{
    let words = words_of(&call.seen);
    let grants = grants(alloc, &call.given.call, words.as_slice())?;
    match kind_made(&call.given.call) {
        None => Ok(None),
        Some(_) => Ok(Some(new_index(
            progress.plain.state(),
            progress.noted.as_slice(),
            progress.places.as_slice(),
            first_grant(grants.as_slice()),
        ))),
    }
}

/// Whether the reply is want of units at a call that takes some.
fn is_short(call: &Call, reply: &Reply) -> bool
    ensures { result ≡ is_short call.now reply.now }
{
    match call {
        Call::Create { .. } | Call::ConfigurePartition { .. } | Call::ConfigureQueue { .. } => {
            reply.x[0] == 10
        }
        _ => false,
    }
}

/// How a call ends whose act is refused.
fn refused_end(
    progress: &Progress,
    alloc: Global,
    cpu: CpuNo,
    call: &CurrentCall,
    reply: &Reply,
) -> Result<End, NoMemory>
    ghost conf: { Config }
    requires stands { StandsWith progress.now cpu.0 call.now conf }
    requires begins { HasNotBegun conf cpu.0 }
    ensures { IfOk result (λ end. end
        ≡ refused_end call.now.given.call reply.now progress.now.plain.entries (causes_now conf)) }
{
    let place = progress.plain.entries();
    if is_short(&call.given.call, reply) {
        let held = causes(progress, alloc, cpu, call)?;
        Ok(End::Short { place, held })
    } else {
        Ok(End::Act { place })
    }
}

/// The call ends, as its act is refused.
fn end_refused(
    progress: &mut Progress,
    alloc: Global,
    cpu: CpuNo,
    seat: Seat,
    call: &CurrentCall,
    reply: Reply,
) -> Result<(), NoMemory>
    ghost conf: { Config }
    requires stands { StandsWith progress.old cpu.0 call.now conf }
    requires begins { HasNotBegun conf cpu.0 }
    requires seats { cpu.0 < length progress.old.seats }
    requires calls { cpu.0 < length progress.old.calls }
    requires counts { seat.calls + 1 < 4294967296 }
    requires sections { seat.sections + 1 < 4294967296 }
    ensures { OnOk result (progress.new
        ≡ with_refusal progress.old cpu.0 seat call.now (causes_now conf) reply) }
{
    let end = refused_end(progress, alloc, cpu, call, &reply)?;
    end_call(progress, cpu, seat, call, end, reply)
}

/// The object that was made has its index, and is noted with the place.
fn push_place(progress: &mut Progress, index: Option<ObjIndex>, place: u8) -> Result<(), NoMemory>
    ensures { OnOk result (progress.new ≡ with_place progress.old index place) }
{
    match index {
        None => Ok(()),
        Some(index) => {
            progress.places.push(index)?;
            progress.noted.push(place)
        }
    }
}

/// The call ends, as its act is done: it is an entry of the history.
fn end_done(
    progress: &mut Progress,
    cpu: CpuNo,
    seat: Seat,
    call: &CurrentCall,
    index: Option<ObjIndex>,
    place: u8,
    reply: Reply,
) -> Result<(), NoMemory>
    requires seats { cpu.0 < length progress.old.seats }
    requires calls { cpu.0 < length progress.old.calls }
    requires counts { seat.calls + 1 < 4294967296 }
    requires sections { seat.sections + 1 < 4294967296 }
    ensures { OnOk result
        (progress.new ≡ with_done progress.old cpu.0 seat call.now index place reply) }
{
    let number = progress.plain.entries();
    let entry = Entry::Acted {
        cpu,
        number: call.given.number,
    };
    progress.entries.push(entry)?;
    push_place(progress, index, place)?;
    end_call(progress, cpu, seat, call, End::Entry { number }, reply)
}

/// Behind its sweep the act is judged, and the call ends.
fn swept_judged(
    progress: &mut Progress,
    alloc: Global,
    cpu: CpuNo,
    call: &CurrentCall,
) -> Result<(), NoMemory>
    ghost conf: { Config }
    requires stands { Stands (with_call progress.old cpu.0 (Some call.now)) (judged_in conf cpu.0) }
    requires next { ActsNext conf cpu.0 (current_of call.now) }
    requires swept { sweeps call.now.given.call ≡ true }
    ensures stands { OnOk result (Stands progress.new (after_all conf (act cpu.0 conf))) }
    ensures marks { OnOk result (AddsMark progress.old.marks progress.new.marks) }
{
    let seat = seat_of(progress, cpu);
    let index = index_made(progress, alloc, call)?;
    let place = new_place(progress.plain.state(), progress.noted.as_slice());
    let judged = judge(progress, alloc, cpu, call)?;
    match judged {
        Judged::Refused(reply) => end_refused(progress, alloc, cpu, seat, call, reply),
        Judged::Done(reply) => end_done(progress, cpu, seat, call, index, place, reply),
    }
}

/// The act of a call that sweeps. It begins with its turn.
pub(crate) fn swept_act(
    progress: &mut Progress,
    alloc: Global,
    cpu: CpuNo,
    call: &CurrentCall,
) -> Result<(), NoMemory>
    ghost conf: { Config }
    requires stands { Stands (with_call progress.old cpu.0 (Some call.now)) (taken conf cpu.0) }
    requires next { ActsNext conf cpu.0 (current_of call.now) }
    requires swept { sweeps call.now.given.call ≡ true }
    ensures stands { OnOk result (Stands progress.new (after_all conf (act cpu.0 conf))) }
    ensures marks { OnOk result (AddsMark progress.old.marks progress.new.marks) }
{
    sweep(progress, alloc, cpu, call)?;
    swept_judged(progress, alloc, cpu, call)
}
