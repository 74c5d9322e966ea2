//! Assembles messages, takes them apart or reads requests many times, and prints a checksum of the
//! answers: a program to be timed from outside.
#![tactic(auto)]

mod messages;
mod requests;

use gh_base::NoMemory;
use std::alloc::Global;
use std::env::{self, Env};
use std::process::ExitCode;

/// Why there is no checksum.
#[derive(Debug, Drop)]
enum Failure {
    Usage,
    NoMemory,
}

/// The sum with one answer more. It depends on the order of the answers.
pub fn folded(sum: u64, answer: u64) -> u64 {
    sum.rotate_left(1) ^ answer
}

/// Does an operation so many times; none where no operation has this name.
fn answer(alloc: Global, operation: &str, count: u64) -> Result<Option<u64>, NoMemory> {
    let sum = match operation {
        "empty" => 0,
        "rpc_assemble" => messages::assemble(alloc, count)?,
        "rpc_fragments" => messages::take_apart(alloc, count)?,
        "rmproto_read_request" => requests::read(alloc, count)?,
        "rmproto_write_reply" => requests::reply(count),
        _ => return Ok(None),
    };
    Ok(Some(sum))
}

/// The words behind the program's name.
fn words<R: Env + AllocGlobal>(rt: &R) -> Result<Vec<String>, Failure> {
    let words = env::args(rt).map_err(|_| Failure::Usage)?;
    words
        .skip(1)
        .collect(rt.alloc())
        .map_err(|_| Failure::NoMemory)
}

/// The checksum of the operation and the count that the words name.
fn named(alloc: Global, words: &[String]) -> Result<u64, Failure> {
    let [operation, count] = words else {
        return Err(Failure::Usage);
    };
    let count = count.as_str().parse().map_err(|_| Failure::Usage)?;
    match answer(alloc, operation.as_str(), count) {
        Ok(Some(sum)) => Ok(sum),
        Ok(None) => Err(Failure::Usage),
        Err(_) => Err(Failure::NoMemory),
    }
}

/// What standard error is told.
fn text(failure: Failure) -> &'static str {
    match failure {
        Failure::Usage => "usage: bench_rpc OPERATION COUNT",
        Failure::NoMemory => "no memory",
    }
}

fn main(rt: HostRuntime) -> ExitCode {
    let sum = match words(&rt) {
        Ok(words) => named(rt.alloc(), words.as_slice()),
        Err(failure) => Err(failure),
    };
    let told = match sum {
        Ok(sum) => rt.println(sum).is_ok(),
        Err(failure) => {
            let _ = rt.eprintln(text(failure));
            false
        }
    };
    if told {
        ExitCode::SUCCESS
    } else {
        ExitCode::FAILURE
    }
}
