//! The act of a call, judged in the present state.

ghost use Rattle.std.specs.Prelude.{◌≡◌, ◌<◌, ◌≤◌, length, map, IfOk};
ghost use Rattle.gh_base.specs.declared.limits.TheConstants.{HISTORY_ENTRIES};
ghost use Rattle.gh_events.specs.Config.{judged};
ghost use Rattle.gh_core.specs.Running.{current_of, seen_of};
ghost use Rattle.gh_items.specs.Acts.{in_state};
ghost use Rattle.gh_model.specs.Act.{Judges, grants_of};
ghost use Rattle.gh_model.specs.Marks.{word_of};

use crate::progress::Progress;
use crate::stage_items::granted;
use gh_base::{BoundedSequence, Call, CpuNo, NoMemory, Serial};
use gh_core::{CurrentCall, SeenLook};
use gh_frames::needs;
use gh_model::{Judged, Word};
use std::alloc::Global;

/// The words that looks found.
fn words_in(seen: &[SeenLook]) -> BoundedSequence<Word, 2>
    requires { length seen.now ≤ 2 }
    ensures { result ≡ map word_of (map seen_of seen.now) }
{
    let mut words = BoundedSequence::new();
    for look in seen {
        words.push(look.word);
    }
    words
}

/// The words that the looks of a call found.
pub(crate) fn words_of(seen: &BoundedSequence<SeenLook, 2>) -> BoundedSequence<Word, 2>
    ensures { result ≡ map word_of (map seen_of seen.now) }
{
    let count = seen.len();
    let looks = seen.as_slice();
    prove!(count <= 2);
    words_in(looks)
}

/// The objects that a call is granted, one for each of its needs.
pub(crate) fn grants(alloc: Global, call: &Call, words: &[Word]) -> Result<Vec<Serial>, NoMemory>
    ensures { IfOk result (λ grants. grants.items ≡ grants_of call.now words.now) }
{
    let grants: Vec<Serial> = words
        .iter()
        .take(needs(call).len())
        .map(|word| granted(*word))
        .collect(alloc)?;
    Ok(grants)
}

/// What the act of the call comes to; where it is done, the state is the one behind it.
pub(crate) fn judge(
    progress: &mut Progress,
    alloc: Global,
    cpu: CpuNo,
    call: &CurrentCall,
) -> Result<Judged, NoMemory>
    requires { progress.old.plain.entries < HISTORY_ENTRIES }
    ensures judged { IfOk result (λ verdict. Judges progress.old.plain progress.new.plain verdict
        (judged progress.old.plain cpu.0 (current_of call.now))) }
    ensures same { progress.new ≡ in_state progress.old progress.new.plain }
{
    let given = &call.given;
    let words = words_of(&call.seen);
    let grants = grants(alloc, &given.call, words.as_slice())?;
    progress.plain.judge(
        alloc,
        cpu,
        &given.frame,
        &given.call,
        words.as_slice(),
        grants.as_slice(),
    )
}
