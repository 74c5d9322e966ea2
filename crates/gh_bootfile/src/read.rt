//! A whole boot file, read line by line.

ghost use Rattle.std.specs.Prelude.{◌≡◌, ◌+◌, ◌<◌, ◌^◌};
ghost use Rattle.std.specs.Prelude.{ℕ, [], length, Ok, Err, IfOk, OnOk};
ghost use Rattle.std.specs.Str.{bytes_eq};
ghost use Rattle.gh_bootfile.specs.BadLine.{TellsFirstBad};
ghost use Rattle.gh_bootfile.specs.BootFile.{Answers, at_end, boot_of, lines_on, told, with_line};
ghost use Rattle.gh_bootfile.specs.Draft.{IsDraft};
ghost use Rattle.gh_bootfile.specs.Grammar.{boot_text, format_line};
ghost use Rattle.gh_bootfile.specs.Reading.{line_of};
ghost use Rattle.gh_model.specs.Pieces.{pieces_at};
ghost use Rattle.gh_model.specs.Told.{told_number};

use crate::draft::Draft;
use crate::line::read_line;
use gh_model::{Boot, FileErr, split_first};
use std::alloc::Global;

const FORMAT: &[u8] = b"gunyah 1";

/// The answer where the line behind the first and so many others is bad.
fn bad_line(lines: usize) -> FileErr
    requires { lines < 2 ^ 63 }
    ensures { result ≡ FileErr.Bad (told_number (lines + 2)) }
{
    let number = (lines + 2).min(u32::MAX as usize);
    FileErr::Bad(number as u32)
}

/// Puts the line of a text behind those so far.
#[tactic(auto, unfolding(crate::specs::BootFile::with_line))]
fn add_line(alloc: Global, draft: &mut Draft, lines: usize, text: &[u8]) -> Result<(), FileErr>
    requires few { lines < 2 ^ 63 }
    requires draft { IsDraft draft.old }
    requires count { lines ≡ length draft.old.lines }
    ensures lines { Answers (λ _. draft.new.lines) result
        (with_line draft.old.lines (line_of text.now)) }
    ensures draft { OnOk result (IsDraft draft.new) }
{
    match read_line(text) {
        Some(line) if draft.may_add(&line) => {
            draft.add(alloc, line)?;
            Ok(())
        }
        _ => Err(bad_line(lines)),
    }
}

/// The boot file of the lines, with what is left behind the last line feed.
#[tactic(auto, unfolding(crate::specs::BootFile::at_end))]
fn end(draft: Draft, lines: usize, left: &[u8]) -> Result<Boot, FileErr>
    requires few { lines < 2 ^ 63 }
    requires draft { IsDraft draft }
    requires count { lines ≡ length draft.lines }
    ensures { Answers (λ boot. boot) result (at_end draft.lines left.now) }
{
    if left.is_empty() && draft.is_complete() {
        Ok(draft.into_boot())
    } else {
        Err(bad_line(lines))
    }
}

/// The lines behind the first.
fn read_lines(alloc: Global, text: &[u8]) -> Result<Boot, FileErr>
    ensures { Answers (λ boot. boot) result (lines_on [] (pieces_at 10 text.now)) }
{
    let mut draft = Draft::new(alloc);
    let mut lines = 0;
    let mut rest = text;
    'lines: loop {
        let (line, after) = split_first(rest, b'\n');
        let Some(after) = after else {
            return end(draft, lines, line);
        };
        add_line(alloc, &mut draft, lines, line)?;
        lines += 1;
        rest = after;
    }
}

/// Whether the line names the format.
fn is_format(line: &[u8]) -> bool
    ensures { result ≡ bytes_eq line.now format_line }
{
    line == FORMAT
}

fn read(alloc: Global, text: &[u8]) -> Result<Boot, FileErr>
    ensures { Answers (λ boot. boot) result (boot_of text.now) }
{
    let (first, rest) = split_first(text, b'\n');
    let Some(rest) = rest else {
        return Err(FileErr::Bad(1));
    };
    if !is_format(first) {
        return Err(FileErr::Bad(1));
    }
    read_lines(alloc, rest)
}

/// The boot file that a text is. It walks the text once, and stops at the first bad line.
pub fn read_boot(alloc: Global, text: &[u8]) -> Result<Boot, FileErr>
    ensures lines { IfOk result (λ boot. boot_of text.now ≡ Ok boot) }
    ensures text { IfOk result (λ boot. text.now ≡ boot_text boot) }
    ensures bad { (line : ℕ) → result ≡ Err (FileErr.Bad line)
        → told (boot_of text.now) ≡ Err line }
    ensures first_bad { (line : ℕ) → result ≡ Err (FileErr.Bad line) → TellsFirstBad text.now line }
{
    read(alloc, text)
}
