//! A whole boot file, written line by line.

ghost use Rattle.std.specs.Prelude.{◌≡◌, ◌++◌, ◌+◌, ℕ, List};
ghost use Rattle.std.specs.Prelude.{Ok, OnOk, IfOk, string_bytes, codes, true};
ghost use Rattle.std.specs.List.{flat_map, list_all};
ghost use Rattle.gh_bootfile.specs.BootFile.{boot_of};
ghost use Rattle.gh_bootfile.specs.Grammar.{boot_text, ended_line, fields_hold};
ghost use Rattle.gh_model.specs.Text.{spaced};
ghost use Rattle.gh_bootfile.specs.Grammar.{line_text, parts_text};

use crate::parts::{Parts, line_parts};
use gh_base::NoMemory;
use gh_model::{Boot, BootLine};
use std::alloc::Global;

fn put_number(out: &mut String, number: u32) -> Result<(), NoMemory>
    ensures { OnOk result (string_bytes out.new ≡ string_bytes out.old ++ spaced number) }
{
    write!(out, " {number}")?;
    Ok(())
}

fn put_numbers(out: &mut String, numbers: &[u32]) -> Result<(), NoMemory>
    ensures { OnOk result (string_bytes out.new
        ≡ string_bytes out.old ++ flat_map spaced numbers.now) }
{
    for number in numbers {
        put_number(out, *number)?;
    }
    Ok(())
}

/// A keyword, and behind it numbers.
fn put_parts(out: &mut String, parts: &Parts) -> Result<(), NoMemory>
    ensures { OnOk result (string_bytes out.new ≡ string_bytes out.old ++ parts_text parts.now) }
{
    out.push_str(parts.keyword.text())?;
    put_numbers(out, parts.numbers.as_slice())
}

fn put_line(out: &mut String, line: &BootLine) -> Result<(), NoMemory>
    ensures text { OnOk result (string_bytes out.new ≡ string_bytes out.old ++ line_text line.now) }
    ensures fields { fields_hold line.now ≡ true }
{
    put_parts(out, &line_parts(line))
}

fn put_ended_line(out: &mut String, line: &BootLine) -> Result<(), NoMemory>
    ensures text { OnOk result (string_bytes out.new
        ≡ string_bytes out.old ++ ended_line line.now) }
    ensures fields { fields_hold line.now ≡ true }
{
    put_line(out, line)?;
    out.push_str("\n")?;
    Ok(())
}

fn put_lines(out: &mut String, lines: &[BootLine]) -> Result<(), NoMemory>
    ensures text { OnOk result (string_bytes out.new
        ≡ string_bytes out.old ++ flat_map ended_line lines.now) }
    ensures fields { OnOk result (list_all fields_hold lines.now ≡ true) }
{
    for line in lines {
        put_ended_line(out, line)?;
    }
    Ok(())
}

/// The text of a boot file.
#[tactic(auto, using(crate::proofs::FileLaw::boot_again))]
pub fn write_boot(alloc: Global, boot: &Boot) -> Result<Vec<u8>, NoMemory>
    ensures text { IfOk result (λ text. text.items ≡ boot_text boot.now) }
    ensures again { IfOk result (λ text. boot_of text.items ≡ Ok boot.now) }
{
    let mut out = String::new(alloc);
    out.push_str("gunyah 1\n")?;
    put_lines(&mut out, boot.lines())?;
    Ok(out.into_bytes())
}
