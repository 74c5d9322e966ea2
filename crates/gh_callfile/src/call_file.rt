//! Call files, line by line.

ghost use Rattle.std.specs.Prelude.{◌≡◌, ◌+◌, ◌<◌, ◌≤◌, ◌^◌, ◌∷◌};
ghost use Rattle.std.specs.Prelude.{[], ℕ, List, None, Some, length, IfOk, IfErr, IfSome};
ghost use Rattle.std.specs.List.{slice_split};
ghost use Rattle.gh_model.specs.declared.program.Line.{Line};
ghost use Rattle.gh_model.specs.Told.{told_number};
ghost use Rattle.gh_callfile.specs.Grammar.{line_of};
ghost use Rattle.gh_callfile.specs.CallFile.{Reading, Good, IsErrorOf, calls_of_lines};
ghost use Rattle.gh_callfile.specs.CallFile.{is_line_feed, line_then, read_from};
ghost use Rattle.gh_callfile.specs.CallFile.{reading, told_reading, with_lines};

use crate::call_line::call_line;
use gh_base::Sequence;
use gh_model::{FileErr, Line, split_first};
use std::alloc::Global;

/// What the next line may be.
#[derive(Clone, Copy)]
struct Next {
    /// The line's number, from 1.
    number: usize,
    /// The calls for which there is still room.
    room: u32,
}

/// The first line, without its line feed, and what stands behind it; none where no line feed comes.
fn first_line(text: &[u8]) -> Option<(&[u8], &[u8])>
    ensures none { result ≡ None → slice_split is_line_feed text.now ≡ text.now ∷ [] }
    ensures some { IfSome result (λ parts.
        slice_split is_line_feed text.now ≡ parts.0.now ∷ slice_split is_line_feed parts.1.now) }
    ensures shorter { IfSome result (λ parts. length parts.1.now < length text.now) }
{
    let (line, behind) = split_first(text, b'\n');
    match behind {
        None => None,
        Some(behind) => Some((line, behind)),
    }
}

/// The number of a line or an item as it is told.
pub(crate) fn told(number: usize) -> u32
    ensures { result ≡ told_number number }
{
    number.min(u32::MAX as usize) as u32
}

/// The line of this text, if it is good.
fn good_line(alloc: Global, text: &[u8], next: Next) -> Result<Line, FileErr>
    ensures ok { IfOk result (λ line. line_of text.now ≡ Some line) }
    ensures room { IfOk result (λ line. line.times ≤ next.room) }
    ensures bad { (lines : List Line) (later : Reading) → IfErr result (IsErrorOf (told_reading
        (with_lines lines (line_then next.number next.room (line_of text.now) later)))) }
{
    match call_line(alloc, text)? {
        None => Err(FileErr::Bad(told(next.number))),
        Some(line) => {
            if line.times <= next.room {
                Ok(line)
            } else {
                Err(FileErr::Bad(told(next.number)))
            }
        }
    }
}

/// Puts the line of this text behind those that were read.
#[tactic(auto, using(crate::proofs::CallFileLemmas::read_step, crate::proofs::CallFileLemmas::with_lines_twice))]
fn read_line(
    alloc: Global,
    lines: &mut Sequence<Line>,
    text: &[u8],
    next: Next,
) -> Result<Next, FileErr>
    requires few { next.number < 2 ^ 63 }
    ensures number { IfOk result (λ after. after.number ≡ next.number + 1) }
    ensures ok { (rest : List ℕ) → IfOk result (λ after.
        with_lines lines.old
        (read_from next.number next.room (text.now ∷ slice_split is_line_feed rest))
        ≡ with_lines lines.new
        (read_from after.number after.room (slice_split is_line_feed rest))) }
    ensures bad { (rest : List ℕ) → IfErr result (IsErrorOf (told_reading
        (with_lines lines.old
        (read_from next.number next.room (text.now ∷ slice_split is_line_feed rest))))) }
{
    let line = good_line(alloc, text, next)?;
    let room = next.room - line.times;
    lines.push(line)?;
    Ok(Next {
        number: next.number + 1,
        room,
    })
}

/// Reads a call file that may have calls for this room, repeats counted. `Bad` carries its first
/// line that is outside the grammar or takes the calls over the room.
#[tactic(auto, using(crate::proofs::CallFileLemmas::read_last))]
pub fn read_calls(alloc: Global, text: &[u8], room: u32) -> Result<Vec<Line>, FileErr>
    ensures ok { IfOk result (λ lines. reading text.now room ≡ Good lines.items) }
    ensures room { IfOk result (λ lines. calls_of_lines lines.items ≤ room) }
    ensures bad { IfErr result (IsErrorOf (reading text.now room)) }
{
    let mut lines = Sequence::new(alloc);
    let mut next = Next { number: 1, room };
    let mut rest = text;
    while let Some((line, behind)) = first_line(rest) {
        next = read_line(alloc, &mut lines, line, next)?;
        rest = behind;
    }
    if rest.is_empty() {
        Ok(lines.into_vec())
    } else {
        Err(FileErr::Bad(told(next.number)))
    }
}
