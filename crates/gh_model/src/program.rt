//! What a CPU runs.

ghost use Rattle.std.specs.Prelude.{◌≡◌, Bool, true, false, Option};
ghost use Rattle.std.specs.Prelude.{is_some, not, IfOk, OnOk, OnErr};
ghost use Rattle.gh_base.specs.declared.frame.Reply.{Reply};
ghost use Rattle.gh_model.specs.declared.program.Step.{Step};
ghost use Rattle.gh_model.specs.Programs.{told, is_call, is_idle};

use gh_base::{Frame, NoMemory, Reply};
use std::alloc::Global;

/// What a program does next.
#[derive(Debug, Drop)]
pub enum Step {
    /// It makes this call.
    Make(Frame),
    /// It waits for a ring.
    Idle,
    /// It has ended.
    End,
}

/// A line of a call file.
#[derive(Debug, Drop)]
pub struct Line {
    pub frame: Frame,
    /// How often it is made at the most, 1 or more: again while its reply says that a queue is
    /// empty or full.
    pub times: u32,
}

/// A program and the frame of its next call.
#[derive(Drop)]
pub struct Standing<P> {
    pub program: P,
    pub frame: Frame,
}

/// Makes calls one after the other, each by the replies to those before.
pub trait Program {
    /// What it does next, by the reply to its call. It has none at first and once it was idle.
    ghost answer: { Self → Option Reply → Step };

    /// The program after that answer.
    ghost after: { Self → Option Reply → Self };

    /// It has made a call, and goes on by the reply to it.
    ghost wants_reply: { Self → Bool };

    /// What the program does next. `last` is the reply to its last call, and none at the first
    /// call and after an answer `Idle`. So `Idle` is answered only to a reply, and a call comes
    /// after it.
    fn next(&mut self, alloc: Global, last: Option<&Reply>) -> Result<Step, NoMemory>
        requires { is_some last ≡ wants_reply self.old }
        ensures answer { IfOk result (λ step. step ≡ answer self.old (told last.entry)) }
        ensures after { OnOk result (self.new ≡ after self.old (told last.entry)) }
        ensures err { OnErr result (self.new ≡ self.old) }

        // Who is next.
        ensures wants { IfOk result (λ step. wants_reply self.new ≡ not (is_idle step)) }
        ensures unasked { is_some last.entry ≡ false → IfOk result (λ step. is_call step ≡ true) };
}
