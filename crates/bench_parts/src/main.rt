//! Does one operation of a part many times, and prints a checksum of its answers: a program to be
//! timed from outside.
#![tactic(auto)]

mod checksum;
mod cspace;
mod doorbell;
mod memory;
mod msgqueue;
mod objects;
mod operations;
mod pagetable;
mod partition;
mod rcu;

use operations::answer;
use std::alloc::Global;
use std::env::{self, Env};
use std::process::ExitCode;

/// Why there is no checksum.
#[derive(Debug, Drop)]
enum Failure {
    Usage,
    NoMemory,
}

/// The words behind the program's name.
fn words<R: Env + AllocGlobal>(rt: &R) -> Result<Vec<String>, Failure> {
    let words = env::args(rt).map_err(|_| Failure::Usage)?;
    words
        .skip(1)
        .collect(rt.alloc())
        .map_err(|_| Failure::NoMemory)
}

/// The checksum of the operation and the count that the words name.
fn named(alloc: Global, words: &[String]) -> Result<u64, Failure> {
    let [operation, count] = words else {
        return Err(Failure::Usage);
    };
    let count = count.as_str().parse().map_err(|_| Failure::Usage)?;
    match answer(alloc, operation.as_str(), count) {
        Ok(Some(sum)) => Ok(sum),
        Ok(None) => Err(Failure::Usage),
        Err(_) => Err(Failure::NoMemory),
    }
}

fn main(rt: HostRuntime) -> ExitCode {
    let sum = match words(&rt) {
        Ok(words) => named(rt.alloc(), words.as_slice()),
        Err(failure) => Err(failure),
    };
    let told = match sum {
        Ok(sum) => rt.println(sum).is_ok(),
        Err(failure) => {
            let _ = rt.eprintln(text(failure));
            false
        }
    };
    if told {
        ExitCode::SUCCESS
    } else {
        ExitCode::FAILURE
    }
}

/// What standard error is told.
fn text(failure: Failure) -> &'static str {
    match failure {
        Failure::Usage => "usage: bench_parts OPERATION COUNT",
        Failure::NoMemory => "no memory",
    }
}
