//! Runs programs on the hypervisor and writes what happened.
#![tactic(auto)]

mod command;
mod command_line;
mod input;
mod law;
mod load;
mod output;
mod read_err;
mod status;
mod step;
mod top_call;
mod words;

pub use command::{CheckArgs, Command, GenArgs, GenPart, RunArgs, StepArgs, Usage};
use command_line::command_line;
use gh_io::{HostFiles, HostSink, NoGate};
pub use status::Status;
use std::process::ExitCode;
pub use step::step_command;
pub use top_call::gunyah;
pub use words::read_words;

fn main(rt: HostRuntime) -> ExitCode {
    let alloc = rt.alloc();
    let mut files = HostFiles::new(&rt, alloc);
    let mut out = HostSink::new(&rt);
    let status = match command_line(&rt) {
        Err(status) => status,
        Ok(words) => gunyah(&rt, alloc, words.as_slice(), &mut files, &mut out, &NoGate),
    };
    if status != Status::Done {
        let _ = rt.eprintln(status);
    }
    ExitCode::from(status.number())
}

#[cfg(test)]
mod tests;
