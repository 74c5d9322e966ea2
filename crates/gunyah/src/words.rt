//! The words of a command line.

ghost use Rattle.std.specs.Prelude.{◌≡◌, ◌↔◌, ◌≤◌, ◌∷◌, length};
ghost use Rattle.std.specs.Prelude.{string_bytes, true, false, IfOk, OnErr, IsErr};
ghost use Rattle.std.specs.Bool.{OnTrue};
ghost use Rattle.gunyah.specs.Words.{is_step, step_files, word_bytes, Spells};

use crate::command::{Command, StepArgs, Usage};
use gh_base::NoMemory;
use std::alloc::Global;

/// Words of a command, for it to keep.
fn copies(alloc: Global, words: &[String]) -> Result<Vec<String>, NoMemory>
    ensures { IfOk result (λ copies. word_bytes copies.items ≡ word_bytes words.now) }
{
    let mut copies = Vec::new(alloc);
    for word in words {
        copies.push(word.clone()?)?;
    }
    Ok(copies)
}

fn step_args(
    alloc: Global,
    boot: &String,
    schedule: &String,
    calls: &[String],
) -> Result<StepArgs, NoMemory>
    ensures { IfOk result (λ args. step_files args
        ≡ string_bytes boot.now ∷ string_bytes schedule.now ∷ word_bytes calls.now) }
{
    Ok(StepArgs {
        boot: boot.clone()?,
        schedule: schedule.clone()?,
        calls: copies(alloc, calls)?,
    })
}

/// Whether the words are those of `step`.
fn is_step(words: &[String]) -> bool
    ensures test { result ≡ is_step (word_bytes words.now) }
    ensures count { OnTrue result (3 ≤ length words.now) }
{
    match words.split_first() {
        Some((verb, files)) => verb.as_str() == "step" && files.len() >= 2 && files.len() <= 10,
        None => false,
    }
}

/// The command that the words behind the program's name spell. By now it is `step`, with up to
/// eight call files.
pub fn read_words(alloc: Global, words: &[String]) -> Result<Result<Command, Usage>, NoMemory>
    ensures command { IfOk result (λ read.
        IfOk read (Spells (word_bytes words.now))) }
    ensures usage { IfOk result (λ read.
        IsErr read ↔ (is_step (word_bytes words.now) ≡ false)) }
    ensures no_memory { OnErr result (is_step (word_bytes words.now) ≡ true) }
{
    if !is_step(words) {
        return Ok(Err(Usage));
    }
    let args = step_args(alloc, &words[1], &words[2], &words[3..])?;
    Ok(Ok(Command::Step(args)))
}
