//! The parts of a call that revokes the capabilities of an object one slot after another.

ghost use Rattle.std.specs.Prelude.{◌≡◌, ◌<◌, length, drop, filter, find, if◌then◌else◌, map, true, false, IfOk, OnOk, Some, None};
ghost use Rattle.gh_base.specs.declared.limits.TheConstants.{CPUS, HISTORY_ENTRIES};
ghost use Rattle.gh_events.specs.Config.{Config, judged};
ghost use Rattle.gh_events.specs.Entries.{is_before, is_plain_of};
ghost use Rattle.gh_schedules.specs.Items.{goes_on, least, lesser, object_revoked, part, parts};
ghost use Rattle.gh_core.specs.Running.{current_of};
ghost use Rattle.gh_events.specs.Sound.{IsSound};
ghost use Rattle.gh_schedules.specs.Trace.{AreDone, after_all};
ghost use Rattle.gh_items.specs.Parts.{StandsSoundly, all_parts, is_unfinished, part_row, with_part};
ghost use Rattle.gh_items.specs.Stands.{Stands, with_call};
ghost use Rattle.gh_model.specs.History.{may_part};
ghost use Rattle.gh_model.specs.Legal.{is_revoke};
ghost use Rattle.gh_model.specs.Rows.{fills};

use crate::judge::{grants, words_of};
use crate::progress::Progress;
use crate::stage_items::granted;
use gh_base::{CpuNo, NoMemory, Serial};
use gh_core::CurrentCall;
use gh_model::{CapabilityRow, Decision, Entry, decision};
use std::alloc::Global;

/// Whether the row is a valid capability of the object without master mark.
fn is_plain_of(object: Serial, row: &CapabilityRow) -> bool
    ensures { result ≡ is_plain_of object.0 row.now }
{
    row.valid && !row.master && row.serial == object
}

/// Whether the slot isn't behind the other's.
fn is_before(row: &CapabilityRow, other: &CapabilityRow) -> bool
    ensures { result ≡ is_before row.now.cspace.0 row.now.slot other.now }
{
    row.cspace.0 < other.cspace.0 || row.cspace == other.cspace && row.slot <= other.slot
}

/// The one in the lesser slot.
fn lesser(row: CapabilityRow, other: Option<CapabilityRow>) -> Option<CapabilityRow>
    ensures { result ≡ lesser row other }
{
    match other {
        None => Some(row),
        Some(other) => {
            if is_before(&row, &other) {
                Some(row)
            } else {
                Some(other)
            }
        }
    }
}

/// The one in the least slot, of this row and those behind it.
fn with_row(
    object: Serial,
    row: CapabilityRow,
    least: Option<CapabilityRow>,
) -> Option<CapabilityRow>
    ensures { result ≡ (if is_plain_of object.0 row then lesser row least else least) }
{
    if is_plain_of(object, &row) {
        lesser(row, least)
    } else {
        least
    }
}

/// The valid capability of the object without master mark that is in the least slot.
fn next_part(caps: &[CapabilityRow], object: Serial) -> Option<CapabilityRow>
    ensures { result ≡ least (filter (is_plain_of object.0) caps.now) }
{
    let mut least = None;
    let mut at = caps.len();
    while at > 0 {
        at -= 1;
        least = with_row(object, caps[at], least);
    }
    least
}

/// The object of a revoke.
#[tactic(auto, using(crate::proofs::PartLemmas::first_seen))]
fn object_revoked(call: &CurrentCall) -> Serial
    ensures { result.0 ≡ object_revoked (current_of call.now) }
{
    match call.seen.as_slice().get(0) {
        None => Serial(0),
        Some(look) => granted(look.word),
    }
}

fn is_unfinished(decision: &Decision) -> bool
    ensures { result ≡ is_unfinished decision.now }
{
    match decision {
        Decision::Refuse { errno: _ } => false,
        Decision::Unfinished => true,
        Decision::Make {
            changes: _,
            reply: _,
        } => false,
    }
}

/// Whether the revoke goes on in the present state.
fn goes_on(
    progress: &Progress,
    alloc: Global,
    cpu: CpuNo,
    call: &CurrentCall,
) -> Result<bool, NoMemory>
    requires { is_revoke call.now.given.call ≡ true }
    ensures { IfOk result (λ goes. goes
        ≡ goes_on (judged progress.now.plain cpu.0 (current_of call.now))) }
{
    let given = &call.given;
    let words = words_of(&call.seen);
    let grants = grants(alloc, &given.call, words.as_slice())?;
    let state = progress.plain.state();
    let bytes = given.frame.bytes.as_slice();
    let decided = decision(
        alloc,
        state,
        false,
        cpu,
        &given.call,
        bytes,
        grants.as_slice(),
    )?;
    Ok(is_unfinished(&decided))
}

/// The capability that the next part revokes.
fn part_row(
    progress: &Progress,
    alloc: Global,
    cpu: CpuNo,
    call: &CurrentCall,
) -> Result<Option<CapabilityRow>, NoMemory>
    requires { is_revoke call.now.given.call ≡ true }
    ensures { IfOk result (λ row. row
        ≡ part_row progress.now.plain cpu.0 (current_of call.now)) }
{
    if goes_on(progress, alloc, cpu, call)? {
        let state = progress.plain.state();
        Ok(next_part(state.caps.as_slice(), object_revoked(call)))
    } else {
        Ok(None)
    }
}

/// The capability is revoked, as an entry of the history.
fn make_part(
    progress: &mut Progress,
    cpu: CpuNo,
    number: u32,
    row: CapabilityRow,
) -> Result<(), NoMemory>
    requires entries { progress.old.plain.entries < HISTORY_ENTRIES }
    requires may { may_part (find (fills row.cspace.0 row.slot) progress.old.plain.caps) ≡ true }
    ensures { OnOk result (progress.new ≡ with_part progress.old cpu.0 number row) }
{
    let space = row.cspace;
    let slot = row.slot;
    progress.plain.part(space, slot)?;
    progress.entries.push(Entry::Part {
        cpu,
        number,
        space,
        slot,
    })
}

/// One part, while the revoke goes on.
fn part(
    progress: &mut Progress,
    alloc: Global,
    cpu: CpuNo,
    call: &CurrentCall,
) -> Result<(), NoMemory>
    requires stands { StandsSoundly (with_call progress.old cpu.0 (Some call.now)) }
    requires within { cpu.0 < CPUS }
    requires revokes { is_revoke call.now.given.call ≡ true }
    ensures stands { (conf : Config) → Stands (with_call progress.old cpu.0 (Some call.now)) conf
        → IsSound conf → OnOk result
        (Stands (with_call progress.new cpu.0 (Some call.now)) (after_all conf (part cpu.0 conf))) }
    ensures marks { OnOk result (progress.new.marks ≡ progress.old.marks) }
{
    match part_row(progress, alloc, cpu, call)? {
        None => Ok(()),
        Some(row) => make_part(progress, cpu, call.given.number, row),
    }
}

/// The valid capabilities of the object without master mark, counted.
#[tactic(auto, using(crate::proofs::RevokeLemmas::counted_plain))]
fn plain_count(caps: &[CapabilityRow], object: Serial) -> usize
    ensures { result ≡ length (filter (is_plain_of object.0) caps.now) }
{
    caps.iter().filter(|row| is_plain_of(object, row)).count()
}

/// So many parts at most, each while the revoke goes on.
fn make_parts(
    progress: &mut Progress,
    alloc: Global,
    cpu: CpuNo,
    call: &CurrentCall,
    count: usize,
) -> Result<(), NoMemory>
    ghost conf: { Config }
    requires stands { Stands (with_call progress.old cpu.0 (Some call.now)) conf }
    requires sound { IsSound conf }
    requires within { cpu.0 < CPUS }
    requires revokes { is_revoke call.now.given.call ≡ true }
    requires done { AreDone conf (parts cpu.0 count conf) }
    ensures stands { OnOk result (Stands (with_call progress.new cpu.0 (Some call.now))
        (after_all conf (parts cpu.0 count conf))) }
    ensures marks { OnOk result (progress.new.marks ≡ progress.old.marks) }
{
    for made in 0..count {
        part(progress, alloc, cpu, call)?;
    }
    Ok(())
}

/// The parts of the revoke, at most one for each capability that it may revoke.
pub(crate) fn make_all_parts(
    progress: &mut Progress,
    alloc: Global,
    cpu: CpuNo,
    call: &CurrentCall,
) -> Result<(), NoMemory>
    ghost conf: { Config }
    requires stands { Stands (with_call progress.old cpu.0 (Some call.now)) conf }
    requires sound { IsSound conf }
    requires within { cpu.0 < CPUS }
    requires revokes { is_revoke call.now.given.call ≡ true }
    requires done { AreDone conf (all_parts cpu.0 (current_of call.now) conf) }
    ensures stands { OnOk result (Stands (with_call progress.new cpu.0 (Some call.now))
        (after_all conf (all_parts cpu.0 (current_of call.now) conf))) }
    ensures marks { OnOk result (progress.new.marks ≡ progress.old.marks) }
{
    let state = progress.plain.state();
    let count = plain_count(state.caps.as_slice(), object_revoked(call));
    make_parts(progress, alloc, cpu, call, count)
}
