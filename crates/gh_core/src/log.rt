//! The history as it is kept: each entry with the call that it is of.

ghost use Rattle.std.specs.Prelude.{◌≡◌, map, true, if◌then◌else◌, IfOk, OnOk};
ghost use Rattle.gh_core.specs.Running.{act_is_made, all_made, event_of, is_made};
ghost use Rattle.gh_model.specs.Act.{Judges, granted, grants_of};
ghost use Rattle.gh_model.specs.Boot.{boot_state};
ghost use Rattle.gh_model.specs.Decide.{judge as judge_of};
ghost use Rattle.gh_model.specs.History.{acted, after_event, grants_fit, may_act, replay, row_fits};

use crate::current::{copy_of_frame, copy_of_two};
use gh_base::{
    BoundedSequence, Call, CpuNo, Frame, HISTORY_ENTRIES, Need, NoMemory, Sequence, Serial,
};
use gh_frames::needs;
use gh_model::{Boot, Entry, Judged, Plain, State, StateReads, Word};
use std::alloc::Global;

/// An entry, and of an act or a part its call, the call's frame and the words that its looks found.
#[derive(Drop)]
pub struct Logged {
    pub entry: Entry,
    pub call: Call,
    pub frame: Frame,
    pub words: BoundedSequence<Word, 2>,
}

impl Logged {
    pub(crate) fn copied(&self, alloc: Global) -> Result<Logged, NoMemory>
        ensures { IfOk result (λ copy. copy ≡ self.now) }
    {
        let frame = copy_of_frame(alloc, &self.frame)?;
        Ok(Logged {
            entry: self.entry,
            call: self.call,
            frame,
            words: copy_of_two(&self.words),
        })
    }
}

/// A copy of the history.
pub(crate) fn copy_of_log(alloc: Global, log: &[Logged]) -> Result<Sequence<Logged>, NoMemory>
    ensures { IfOk result (λ copy. copy ≡ log.now) }
{
    let mut copy = Sequence::with_room(alloc, log.len())?;
    for logged in log {
        copy.push(logged.copied(alloc)?)?;
    }
    Ok(copy)
}

fn granted(word: &Word) -> Serial
    ensures { result ≡ granted word.now }
{
    match word.row {
        None => Serial(0),
        Some(row) => row.serial,
    }
}

/// The objects that a call is granted, one for each of its needs.
pub(crate) fn grants(alloc: Global, call: &Call, words: &[Word]) -> Result<Vec<Serial>, NoMemory>
    ensures { IfOk result (λ grants. grants.items ≡ grants_of call.now words.now) }
{
    let grants: Vec<Serial> = words
        .iter()
        .take(needs(call).len())
        .map(|word| granted(word))
        .collect(alloc)?;
    Ok(grants)
}

/// Whether a word names an object of the kind that is needed.
fn row_fits(word: &Word, need: Need) -> bool
    ensures { result ≡ row_fits word.now.row need }
{
    match (word.row, need.kind) {
        (None, _) => false,
        (Some(_), None) => true,
        (Some(row), Some(kind)) => kind == row.kind,
    }
}

/// Whether there is a grant for each need, of the needed kind.
#[tactic(auto, using(crate::proofs::LogLemmas::fit_short))]
fn grants_fit(needs: &[(u64, Need)], words: &[Word]) -> bool
    ensures { result ≡ grants_fit needs.now words.now }
{
    for at in 0..needs.len() {
        let (_, need) = needs[at];
        if at >= words.len() {
            return false;
        }
        if !row_fits(&words[at], need) {
            return false;
        }
    }
    true
}

/// Whether an act may be an entry: its CPU is there, and its call has its grants.
pub(crate) fn may_act(state: &State, cpu: CpuNo, call: &Call, words: &[Word]) -> bool
    ensures { result ≡ may_act state.now cpu.0 call.now words.now }
{
    state.cpu(cpu).is_some() && grants_fit(needs(call).as_slice(), words)
}

/// What the act of a call comes to; where it is done, the state is the one behind it. A history of
/// `HISTORY_ENTRIES` entries, the most that there can be, is answered as want of memory.
pub(crate) fn judge(
    alloc: Global,
    plain: &mut Plain,
    cpu: CpuNo,
    frame: &Frame,
    call: &Call,
    words: &[Word],
) -> Result<Judged, NoMemory>
    ensures { IfOk result (λ judged. Judges plain.old plain.new judged
        (judge_of plain.old cpu.0 call.now frame.now.bytes words.now)) }
{
    if plain.entries() >= HISTORY_ENTRIES {
        return Err(NoMemory);
    }
    let grants = grants(alloc, call, words)?;
    plain.judge(alloc, cpu, frame, call, words, grants.as_slice())
}

fn make_act(alloc: Global, plain: &mut Plain, cpu: CpuNo, logged: &Logged) -> Result<bool, NoMemory>
    ensures may { IfOk result (λ made. made ≡ act_is_made plain.old cpu.0 (event_of logged.now)) }
    ensures made { IfOk result (λ made. plain.new ≡ (if made then acted plain.old cpu.0
        logged.now.call logged.now.frame.bytes logged.now.words else plain.old)) }
{
    let words = logged.words.as_slice();
    if !may_act(plain.state(), cpu, &logged.call, words) {
        return Ok(false);
    }
    match judge(alloc, plain, cpu, &logged.frame, &logged.call, words)? {
        Judged::Done(_) => Ok(true),
        Judged::Refused(_) => Ok(false),
    }
}

/// Makes an entry. False where the state doesn't allow it; then nothing changes.
pub(crate) fn make(alloc: Global, plain: &mut Plain, logged: &Logged) -> Result<bool, NoMemory>
    ensures may { IfOk result (λ made. made ≡ is_made plain.old (event_of logged.now)) }
    ensures made { IfOk result (λ made. plain.new
        ≡ (if made then after_event plain.old (event_of logged.now) else plain.old)) }
{
    if plain.entries() >= HISTORY_ENTRIES {
        return Err(NoMemory);
    }
    match logged.entry {
        Entry::Acted { cpu, .. } => make_act(alloc, plain, cpu, logged),
        Entry::Part { space, slot, .. } => plain.part(space, slot),
        Entry::Retired { serial, seen } => Ok(plain.retire_seen(serial, seen)),
        Entry::Reclaimed { serial, .. } => plain.reclaim(alloc, serial),
    }
}

/// The state that a history makes of the boot's, each of whose entries is allowed.
pub(crate) fn replayed(alloc: Global, boot: &Boot, log: &[Logged]) -> Result<Plain, NoMemory>
    requires { all_made (boot_state boot.now) (map event_of log.now) ≡ true }
    ensures { IfOk result (λ plain. plain ≡ replay (boot_state boot.now) (map event_of log.now)) }
{
    let mut plain = Plain::boot(alloc, boot)?;
    for logged in log {
        make(alloc, &mut plain, logged)?;
    }
    Ok(plain)
}
