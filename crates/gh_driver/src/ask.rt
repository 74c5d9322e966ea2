//! What a program is asked for.

ghost use Rattle.std.specs.Prelude.{◌≡◌, is_some, true, IfOk, OnOk};
ghost use Rattle.gh_driver.specs.Follows.{IsReady};
ghost use Rattle.gh_model.specs.Programs.{asked, next_step, next_state, step_frame, told};

use gh_base::{CALL_NUMBERS, Frame, NoMemory, Reply};
use gh_callfile::exit_frame;
use gh_model::{Program, Step};
use std::alloc::Global;

/// The frame of a step.
fn frame_of(alloc: Global, step: Step) -> Frame
    ensures { result ≡ step_frame step }
{
    match step {
        Step::Make(frame) => frame,
        Step::Idle | Step::End => exit_frame(alloc),
    }
}

/// Asks a program that may answer that it is idle; it is asked again then, as if a ring had come.
fn step_of<P: Program>(
    alloc: Global,
    program: &mut P,
    last: Option<&Reply>,
) -> Result<Step, NoMemory>
    requires { is_some last ≡ P.wants_reply program.old }
    ensures step { IfOk result
        (λ step. step ≡ next_step P.answer P.after program.old (told last.entry)) }
    ensures program { OnOk result
        (program.new ≡ next_state P.answer P.after program.old (told last.entry)) }
    ensures wants { OnOk result (P.wants_reply program.new ≡ true) }
{
    match program.next(alloc, last)? {
        Step::Idle => program.next(alloc, None),
        step => Ok(step),
    }
}

/// The frame of the program's call with this number, by the reply to the one before.
pub(crate) fn ask<P: Program>(
    alloc: Global,
    number: u32,
    program: &mut P,
    last: Option<&Reply>,
) -> Result<Frame, NoMemory>
    requires { is_some last ≡ P.wants_reply program.old }
    ensures frame { IfOk result (λ frame. frame
        ≡ (asked P.answer P.after number program.old (told last.entry)).frame) }
    ensures program { OnOk result (program.new
        ≡ (asked P.answer P.after number program.old (told last.entry)).program) }
    ensures ready { OnOk result (IsReady P.wants_reply
        (asked P.answer P.after number program.old (told last.entry))) }
{
    if number == CALL_NUMBERS {
        return Ok(exit_frame(alloc));
    }
    let step = step_of(alloc, program, last)?;
    Ok(frame_of(alloc, step))
}
