//! Runs under `step`: boot files with call files, the history text that is written, and the
//! replies.

use gh_base::{CALL_FILE_CALLS, Sequence};
use gh_bootfile::read_boot;
use gh_callfile::{read_calls, read_schedule};
use gh_driver::{history_text, run_step};
use std::alloc::Global;
use std::process::Abort;
use std::test::Fail;

/// The history text of these call files, of which the first is that of VM 1, by a schedule.
pub(crate) fn scheduled(
    alloc: Global,
    boot: &str,
    schedule: &str,
    files: &[&str],
) -> Result<String, Fail> {
    let boot = read_boot(alloc, boot.as_bytes())?;
    let cpus = read_schedule(alloc, schedule.as_bytes(), &boot)?;
    let mut calls = Vec::new(alloc);
    for file in files {
        let lines = read_calls(alloc, file.as_bytes(), CALL_FILE_CALLS)?;
        calls.push(Sequence::from_vec(lines))?;
    }
    let done = run_step(alloc, &boot, cpus.as_slice(), calls.as_slice())?;
    let text = history_text(alloc, &done)?;
    Ok(text)
}

/// The same by whole calls alone.
pub(crate) fn history(alloc: Global, boot: &str, files: &[&str]) -> Result<String, Fail> {
    scheduled(alloc, boot, "", files)
}

/// The call file of the calls of rows.
fn call_file(alloc: Global, rows: &[(&str, &str)]) -> Result<String, Fail> {
    let mut text = String::new(alloc);
    for row in rows {
        let (call, _) = *row;
        text.push_str(call)?;
        text.push_str("\n")?;
    }
    Ok(text)
}

/// What stands behind ` = ` in the line with this head; nothing where there is no such line.
fn reply_in<'a>(text: &'a str, head: &str) -> &'a str {
    for line in text.lines() {
        if line.starts_with(head) {
            return line.split_once(" = ").map_or("", |parts| parts.1);
        }
    }
    ""
}

/// The history text of VM 1 with the calls of these rows, each of which has its row's reply.
pub(crate) fn replies(
    rt: &impl Abort,
    alloc: Global,
    boot: &str,
    rows: &[(&str, &str)],
) -> Result<String, Fail> {
    let file = call_file(alloc, rows)?;
    let text = history(alloc, boot, &[file.as_str()])?;
    for (at, row) in rows.iter().enumerate() {
        let (call, reply) = *row;
        let head = format!(in alloc; "call 1 {} ", at as u64 + 1)?;
        assert_eq!(rt; reply_in(text.as_str(), head.as_str()), reply, "{call}");
    }
    Ok(text)
}

fn has_line(text: &str, wanted: &str) -> bool {
    text.lines().any(|line| line == wanted)
}

/// Each of these lines stands in the text.
pub(crate) fn tells(rt: &impl Abort, text: &str, lines: &[&str]) {
    for line in lines {
        assert!(rt; has_line(text, line), "{line}");
    }
}
