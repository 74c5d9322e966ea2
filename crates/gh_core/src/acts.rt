//! What the act of a call in progress comes to.

ghost use Rattle.std.specs.Prelude.{◌≡◌, ◌≤◌, length, map, IfOk};
ghost use Rattle.gh_events.specs.Config.{judged};
ghost use Rattle.gh_events.specs.HolderEvents.{is_done};
ghost use Rattle.gh_core.specs.Running.{current_of, seen_of};
ghost use Rattle.gh_model.specs.Act.{Judges};
ghost use Rattle.gh_model.specs.Marks.{word_of};

use crate::current::{CurrentCall, SeenLook};
use crate::log::judge;
use gh_base::{BoundedSequence, CpuNo, NoMemory};
use gh_model::{Judged, Plain, Word};
use std::alloc::Global;

fn words_in(seen: &[SeenLook]) -> BoundedSequence<Word, 2>
    requires { length seen.now ≤ 2 }
    ensures { result ≡ map word_of (map seen_of seen.now) }
{
    let mut words = BoundedSequence::new();
    for look in seen {
        words.push(look.word);
    }
    words
}

/// The words that the looks of a call found.
pub(crate) fn words_of(seen: &BoundedSequence<SeenLook, 2>) -> BoundedSequence<Word, 2>
    ensures { result ≡ map word_of (map seen_of seen.now) }
{
    let count = seen.len();
    let looks = seen.as_slice();
    prove!(count <= 2);
    words_in(looks)
}

/// What the act of the call comes to; where it is done, the state is the one behind it.
pub(crate) fn judge_call(
    alloc: Global,
    plain: &mut Plain,
    cpu: CpuNo,
    call: &CurrentCall,
) -> Result<Judged, NoMemory>
    ensures { IfOk result (λ verdict. Judges plain.old plain.new verdict
        (judged plain.old cpu.0 (current_of call.now))) }
{
    let words = words_of(&call.seen);
    let frame = &call.given.frame;
    judge(alloc, plain, cpu, frame, &call.given.call, words.as_slice())
}

/// Whether the act of the call is done in the state.
pub(crate) fn does(
    alloc: Global,
    plain: Plain,
    cpu: CpuNo,
    call: &CurrentCall,
) -> Result<bool, NoMemory>
    ensures { IfOk result (λ does. does ≡ is_done (judged plain cpu.0 (current_of call.now))) }
{
    let mut plain = plain;
    match judge_call(alloc, &mut plain, cpu, call)? {
        Judged::Done(_) => Ok(true),
        Judged::Refused(_) => Ok(false),
    }
}
