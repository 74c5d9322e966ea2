//! The program of a VM: the lines of its call file, and then the exit call.

ghost use Rattle.std.specs.Prelude.{◌≡◌, ◌+◌, ◌<◌, ◌≤◌, drop, length};
ghost use Rattle.std.specs.Prelude.{slice_get, is_some, false, IfOk, IfSome, OnOk, OnErr, Option};
ghost use Rattle.gh_model.specs.Program.{after_line_reply, after_reply, asks_again};
ghost use Rattle.gh_model.specs.Program.{exit_frame, is_exit, next_frame};
ghost use Rattle.gh_model.specs.Programs.{told};
ghost use Rattle.gh_callfile.specs.VmProgress.{fresh, has_made_one, position_at, position_now};
ghost use Rattle.gh_callfile.specs.VmProgress.{progress_at, vm_after, vm_answer};

use crate::exit_call::{exit_frame, is_exit};
use gh_base::{CALL_NUMBERS, Errno, Frame, NoMemory, Reply, Sequence};
use gh_model::{Line, Program, Step};
use std::alloc::Global;
use std::marker::Model;

/// Where a program stands between two calls.
#[derive(Clone, Copy, Debug)]
struct Place {
    /// The line that comes next; past the last one it is the exit call.
    at: usize,
    /// How often that line was made already.
    tries: u32,
    /// Whether it has made an exit call.
    ended: bool,
}

/// Makes the lines of a call file in order, each again while its reply asks for it and its count
/// allows it, and then the exit call. An exit call ends it.
#[derive(Debug, Drop)]
pub struct VmProgram {
    lines: Vec<Line>,
    place: Place,
    /// The number of its last call, 0 before the first.
    made: u32,
}

impl Model for VmProgram {
    ghost use Rattle.gh_callfile.specs.VmProgress.{IsUnderWay, Progress, progress_at};

    ghost Value = { Progress };

    ghost view = { λ program. progress_at program.made program.lines.items program.place };

    ghost invariant = { λ program. IsUnderWay program.lines.items program.place program.made };
}

/// The line of a call; none where it is the exit call.
fn line_of_call(lines: &[Line], at: usize, number: u32) -> Option<&Line>
    ensures none { result ≡ None → next_frame number (drop at lines.now) ≡ exit_frame }
    ensures some { IfSome result (λ line. next_frame number (drop at lines.now) ≡ line.now.frame) }
    ensures place { IfSome result (λ line. slice_get lines.now at ≡ Some line.now) }
{
    if number == CALL_NUMBERS {
        None
    } else {
        lines.get(at)
    }
}

fn copy_of(alloc: Global, frame: &Frame) -> Result<Frame, NoMemory>
    ensures { IfOk result (λ copy. copy ≡ frame.now) }
{
    Ok(Frame {
        x: frame.x,
        bytes: Sequence::from_slice(alloc, frame.bytes.as_slice())?,
    })
}

/// The frame of the call with this number.
fn frame(alloc: Global, lines: &[Line], at: usize, number: u32) -> Result<Frame, NoMemory>
    ensures { IfOk result (λ frame. frame ≡ next_frame number (drop at lines.now)) }
{
    match line_of_call(lines, at, number) {
        None => Ok(exit_frame(alloc)),
        Some(line) => copy_of(alloc, &line.frame),
    }
}

/// Whether the frame of the call with this number is an exit call.
fn exits(lines: &[Line], at: usize, number: u32) -> bool
    ensures { result ≡ is_exit (next_frame number (drop at lines.now)) }
{
    match line_of_call(lines, at, number) {
        None => true,
        Some(line) => is_exit(&line.frame),
    }
}

/// Whether the reply says that a queue was empty or full.
fn asks_again(reply: &Reply) -> bool
    ensures { result ≡ asks_again reply.now }
{
    reply.x[0] == Errno::QueueEmpty.number() || reply.x[0] == Errno::QueueFull.number()
}

/// The place after the reply to a line.
fn after_line(lines: &[Line], place: Place, reply: &Reply) -> Place
    requires { place.at ≤ length lines.now }
    ensures position { position_at lines.now result
        ≡ after_line_reply (drop place.at lines.now) place.tries reply.now }
    ensures within { result.at ≤ length lines.now }
{
    match lines.get(place.at) {
        None => Place {
            at: place.at,
            tries: 0,
            ended: true,
        },
        Some(line) => {
            if asks_again(reply) && place.tries as u64 + 1 < line.times as u64 {
                Place {
                    at: place.at,
                    tries: place.tries + 1,
                    ended: false,
                }
            } else {
                Place {
                    at: place.at + 1,
                    tries: 0,
                    ended: false,
                }
            }
        }
    }
}

/// Where the program stands once the reply to its last call has come.
fn place_now(lines: &[Line], place: Place, made: u32, last: Option<&Reply>) -> Place
    requires { place.at ≤ length lines.now }
    ensures position { position_at lines.now result
        ≡ position_now (progress_at made lines.now place) (told last.entry) }
    ensures within { result.at ≤ length lines.now }
    ensures unasked { is_some last.entry ≡ false → result ≡ place }
{
    match last {
        None => place,
        Some(reply) => {
            if exits(lines, place.at, made) {
                Place {
                    ended: true,
                    ..place
                }
            } else {
                after_line(lines, place, reply)
            }
        }
    }
}

impl VmProgram {
    pub fn new(lines: Vec<Line>) -> VmProgram
        ensures { result ≡ fresh lines.items }
    {
        VmProgram {
            lines,
            place: Place {
                at: 0,
                tries: 0,
                ended: false,
            },
            made: 0,
        }
    }
}

impl Program for VmProgram {
    ghost answer = { vm_answer };

    ghost after = { vm_after };

    ghost wants_reply = { has_made_one };

    fn next(&mut self, alloc: Global, last: Option<&Reply>) -> Result<Step, NoMemory> {
        let place = place_now(self.lines.as_slice(), self.place, self.made, last);
        if place.ended {
            self.place = place;
            return Ok(Step::End);
        }
        let frame = frame(alloc, self.lines.as_slice(), place.at, self.made + 1)?;
        self.place = place;
        self.made += 1;
        Ok(Step::Make(frame))
    }
}
