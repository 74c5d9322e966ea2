//! Reads one file with a public reader and prints what was found, so that the reader can be timed.
#![tactic(auto)]

use gh_base::{BOOT_FILE_BYTES, CALL_FILE_CALLS, NoMemory};
use gh_bootfile::{FileErr, read_boot};
use gh_callfile::read_calls;
use gh_io::{Files, HostFiles};
use std::alloc::Global;
use std::env::{self, Env};
use std::process::ExitCode;

/// The words behind the program's name; none where they can't be had.
fn words<R: Env + AllocGlobal>(rt: &R) -> Option<Vec<String>> {
    let words = env::args(rt).ok()?;
    words.skip(1).collect(rt.alloc()).ok()
}

/// What a boot file is: its count of lines, or its first bad one.
fn read_boot_file(alloc: Global, text: &[u8]) -> Result<String, NoMemory> {
    let mut found = String::new(alloc);
    match read_boot(alloc, text) {
        Ok(boot) => write!(found, "boot {} lines", boot.lines().len() + 1)?,
        Err(FileErr::Bad(line)) => write!(found, "boot line {line} bad")?,
        Err(FileErr::NoMemory) => return Err(NoMemory),
    }
    Ok(found)
}

/// What a call file is, with room for the calls of a whole run: its count of lines, or its first
/// bad one.
fn read_call_file(alloc: Global, text: &[u8]) -> Result<String, NoMemory> {
    let mut found = String::new(alloc);
    match read_calls(alloc, text, CALL_FILE_CALLS) {
        Ok(lines) => write!(found, "calls {} lines", lines.len())?,
        Err(FileErr::Bad(line)) => write!(found, "calls line {line} bad")?,
        Err(FileErr::NoMemory) => return Err(NoMemory),
    }
    Ok(found)
}

/// What a file of a kind is.
fn read_file(alloc: Global, kind: &str, text: &[u8]) -> Result<String, NoMemory> {
    match kind {
        "boot" => read_boot_file(alloc, text),
        "calls" => read_call_file(alloc, text),
        _ => Ok(String::from_str(alloc, "no such kind")?),
    }
}

fn main(rt: HostRuntime) -> ExitCode {
    let alloc = rt.alloc();
    let Some(words) = words(&rt) else {
        return ExitCode::FAILURE;
    };
    let [kind, name] = words.as_slice() else {
        return ExitCode::FAILURE;
    };
    let mut files = HostFiles::new(&rt, alloc);
    let Ok(text) = files.load(alloc, name.as_str(), BOOT_FILE_BYTES) else {
        return ExitCode::FAILURE;
    };
    let Ok(found) = read_file(alloc, kind.as_str(), &text) else {
        return ExitCode::FAILURE;
    };
    match rt.println(&found) {
        Ok(()) => ExitCode::SUCCESS,
        Err(_) => ExitCode::FAILURE,
    }
}
