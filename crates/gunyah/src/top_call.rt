//! The top call, which `main` makes.

ghost use Rattle.std.specs.Prelude.{◌≡◌, ◌↔◌, IfSome, map, string_bytes, true, false};
ghost use Rattle.gunyah.specs.Outcome.{Asked, AskedOf, HasCause, FilesFaults};
ghost use Rattle.gunyah.specs.Outcome.{SinkFaults, Wrote, Completes, texts_under};
ghost use Rattle.gunyah.specs.Step.{StepRuns};
ghost use Rattle.gunyah.specs.Words.{is_step, named_files, word_bytes};

use crate::command::Command;
use crate::law::law_of_step;
use crate::status::Status;
use crate::step::step_command;
use crate::words::read_words;
use gh_io::{Files, Gate, Sink};
use std::alloc::Global;
use std::marker::Sync;
use std::sync::Wait;
use std::thread::Threads;

/// Does what the words behind the program's name say. By now no command starts a thread, waits or
/// passes the gate.
pub fn gunyah<R: Threads + Wait + Sync, F: Files, K: Sink, G: Gate + Sync>(
    _rt: &R,
    alloc: Global,
    words: &[String],
    files: &mut F,
    out: &mut K,
    _gate: &G,
) -> Status
    // What was written.
    ensures wrote { Wrote result (K.taken out.old) (K.taken out.new)
        (texts_under (F.contents files.old) (named_files (word_bytes words.now))) }

    // Of whatever files: their run is legal.
    ensures legal { IfSome
        (texts_under (F.contents files.old) (named_files (word_bytes words.now))) StepRuns }

    // Why it ended.
    ensures usage { (result ≡ Status.Usage) ↔ (is_step (word_bytes words.now) ≡ false) }
    ensures cause { HasCause result
        (texts_under (F.contents files.old) (named_files (word_bytes words.now))) }
    ensures files_faults { FilesFaults result (F.faults files.old) (F.faults files.new) }
    ensures sink_faults { SinkFaults result (K.faults out.old) (K.faults out.new) }
    ensures complete { is_step (word_bytes words.now) ≡ true
        → Completes result (F.is_sure files.old) (K.is_sure out.old)
        (texts_under (F.contents files.old) (named_files (word_bytes words.now))) }

    // What was asked of the files.
    ensures asked { Asked (AskedOf result) (F.asked files.old) (F.asked files.new)
        (named_files (word_bytes words.now))
        (texts_under (F.contents files.old) (named_files (word_bytes words.now))) }
{
    law_of_step(files);
    match read_words(alloc, words) {
        Err(_) => Status::NoMemory,
        Ok(Ok(Command::Step(args))) => step_command(alloc, &args, files, out),
        Ok(_) => Status::Usage,
    }
}
