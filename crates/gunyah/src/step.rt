//! The command `step`.

ghost use Rattle.std.specs.Prelude.{◌≡◌, ◌<◌, ◌≤◌, ◌↔◌};
ghost use Rattle.std.specs.Prelude.{◌∷◌, ◌+◌, [], length, false};
ghost use Rattle.std.specs.Prelude.{string_bytes, vec_len, IfOk, IfSome, IsErrOf, ⊤};
ghost use Rattle.gunyah.specs.Input.{HasItsCpus, Reads, LoadsAs, sizes_on, input_of};
ghost use Rattle.gunyah.specs.Outcome.{Asked, AskedOf, HasCause, FilesFaults};
ghost use Rattle.gunyah.specs.Outcome.{SinkFaults, ReadFaults, ReadOf};
ghost use Rattle.gunyah.specs.Outcome.{ReadsTexts, Wrote, Completes, texts_under};
ghost use Rattle.gunyah.specs.Step.{step_output, output_of, text_of_input, StepRuns};
ghost use Rattle.gh_callfile.specs.Grammar.{texts_of};
ghost use Rattle.gunyah.specs.Words.{step_files};

use crate::command::StepArgs;
use crate::input::{StepInput, read_input};
use crate::law::law_of_step;
use crate::load::load_files;
use crate::output::write_output;
use crate::read_err::ReadErr;
use crate::status::Status;
use gh_base::{NoMemory, Sequence, VMS};
use gh_driver::{history_text, run_step};
use gh_io::{Files, Sink};
use std::alloc::Global;

/// The text of the run of what was read.
fn run_text(alloc: Global, input: &StepInput) -> Result<String, NoMemory>
    requires { HasItsCpus input.now }
    ensures { IfOk result (λ text. string_bytes text ≡ text_of_input input.now) }
{
    let done = run_step(
        alloc,
        &input.boot,
        input.schedule.as_slice(),
        input.calls.as_slice(),
    )?;
    history_text(alloc, &done)
}

/// The names of the files, in order.
fn names_of<'a>(alloc: Global, args: &'a StepArgs) -> Result<Vec<&'a str>, NoMemory>
    ensures names { IfOk result (λ names. texts_of names.items ≡ step_files args.now) }
    ensures count { IfOk result (λ names. vec_len names ≡ vec_len args.now.calls + 2) }
{
    let mut names = vec![in alloc; args.boot.as_str(), args.schedule.as_str()]?;
    for name in args.calls.iter() {
        names.push(name.as_str())?;
    }
    Ok(names)
}

/// Loads the files of a step.
fn load<F: Files>(
    alloc: Global,
    args: &StepArgs,
    files: &mut F,
) -> Result<Sequence<Sequence<u8>>, ReadErr>
    requires { vec_len args.now.calls ≤ 8 }
    ensures texts { IfSome (texts_under (F.contents files.old) (step_files args.now))
        (λ texts. LoadsAs (sizes_on [] texts) result) }
    ensures count { IfOk result (λ texts. length texts ≡ vec_len args.now.calls + 2) }
    ensures asked { Asked (ReadOf result) (F.asked files.old) (F.asked files.new)
        (step_files args.now) (texts_under (F.contents files.old) (step_files args.now)) }

    // A fault has its cause.
    ensures faults { ReadFaults result (F.faults files.old) (F.faults files.new) }
    ensures unsure { IsErrOf result ReadErr.Failed → F.is_sure files.old ≡ false }
{
    let names = names_of(alloc, args)?;
    load_files(alloc, files, names.as_slice())
}

/// The output of a step of these texts.
fn output_of(alloc: Global, texts: &[Sequence<u8>]) -> Result<String, ReadErr>
    requires least { 2 ≤ length texts.now }
    requires most { length texts.now ≤ 10 }
    ensures reads { Reads (λ text. string_bytes text) ⊥ (output_of (input_of texts.now)) result }
    ensures texts { ReadsTexts result }
{
    let input = read_input(alloc, texts)?;
    Ok(run_text(alloc, &input)?)
}

/// Loads the files of a step and makes its output.
fn output<F: Files>(alloc: Global, args: &StepArgs, files: &mut F) -> Result<String, ReadErr>
    requires { vec_len args.now.calls ≤ 8 }
    ensures reads { IfSome (texts_under (F.contents files.old) (step_files args.now))
        (λ texts. Reads (λ text. string_bytes text) ⊤ (step_output texts) result) }
    ensures asked { Asked (ReadOf result) (F.asked files.old) (F.asked files.new)
        (step_files args.now) (texts_under (F.contents files.old) (step_files args.now)) }

    // A fault has its cause.
    ensures faults { ReadFaults result (F.faults files.old) (F.faults files.new) }
    ensures unsure { IsErrOf result ReadErr.Failed → F.is_sure files.old ≡ false }
{
    let texts = load(alloc, args, files)?;
    output_of(alloc, texts.as_slice())
}

/// Runs by the schedule and writes the history text. It takes up to eight call files; a greater
/// number of them is none of the forms.
pub fn step_command<F: Files, K: Sink>(
    alloc: Global,
    args: &StepArgs,
    files: &mut F,
    out: &mut K,
) -> Status
    // What was written.
    ensures wrote { Wrote result (K.taken out.old) (K.taken out.new)
        (texts_under (F.contents files.old) (step_files args.now)) }

    // Of whatever files: their run is legal.
    ensures legal { IfSome (texts_under (F.contents files.old) (step_files args.now)) StepRuns }

    // Why it ended.
    ensures usage { (result ≡ Status.Usage) ↔ (8 < vec_len args.now.calls) }
    ensures cause { HasCause result (texts_under (F.contents files.old) (step_files args.now)) }
    ensures files_faults { FilesFaults result (F.faults files.old) (F.faults files.new) }
    ensures sink_faults { SinkFaults result (K.faults out.old) (K.faults out.new) }
    ensures complete { vec_len args.now.calls ≤ 8
        → Completes result (F.is_sure files.old) (K.is_sure out.old)
        (texts_under (F.contents files.old) (step_files args.now)) }

    // What was asked of the files.
    ensures asked { Asked (AskedOf result) (F.asked files.old) (F.asked files.new)
        (step_files args.now) (texts_under (F.contents files.old) (step_files args.now)) }
{
    law_of_step(files);
    if args.calls.len() > VMS as usize {
        return Status::Usage;
    }
    match output(alloc, args, files) {
        Err(error) => Status::from(error),
        Ok(output) => match write_output(alloc, out, output.as_bytes()) {
            Err(error) => Status::from(error),
            Ok(()) => Status::Done,
        },
    }
}
