//! Boot files that are read and written back, and for each condition lines that break it, with the
//! first bad line counted by hand.

use crate::outcome::holds;
use gh_base::NoMemory;
use gh_bootfile::{FileErr, read_boot, write_boot};
use gh_model::Boot;
use std::alloc::Global;
use std::ops::Range;

/// The partition is object 1, its capability space 2, its address space 3, the root extent 4.
fn one_vm() -> &'static str {
    "gunyah 1\npages 8\npartition 40\ncspace 1\naddrspace 1\nrootextent 1\n"
}

/// Capability spaces 2 and 3, address spaces 4 and 5, the root extent 6, a doorbell 7.
fn two_vms() -> &'static str {
    "gunyah 1\npages 8\npartition 40\ncspace 1\ncspace 1\naddrspace 1\naddrspace 1\n\
     rootextent 1\ndoorbell 1\n"
}

/// Two partitions, with the second VM's doorbell in the smaller one.
fn two_partitions() -> &'static str {
    "gunyah 1\npages 8\npartition 40\npartition 2\ncspace 1\ncspace 1\naddrspace 1\naddrspace 1\n\
     rootextent 1\ndoorbell 2\n"
}

/// Two VMs that are linked to the resource manager.
fn managed() -> &'static str {
    "gunyah 1\npages 1024\npartition 100\ncspace 1\ncspace 1\ncspace 1\naddrspace 1\n\
     addrspace 1\naddrspace 1\nrootextent 1\nextent 1 8 0 1024 7 0 512\n\
     extent 1 8 0 1024 7 512 512\nmsgqueue 1 64 240\nmsgqueue 1 64 240\nmsgqueue 1 64 240\n\
     msgqueue 1 64 240\n"
}

fn joined(alloc: Global, front: &str, back: &str) -> Result<String, NoMemory> {
    let mut text = String::from_str(alloc, front)?;
    text.push_str(back)?;
    Ok(text)
}

/// Whether the boot file is written as this text.
fn is_written(alloc: Global, boot: &Boot, text: &str) -> Result<bool, NoMemory> {
    let written = write_boot(alloc, boot)?;
    Ok(written.as_slice() == text.as_bytes())
}

/// 0, or else a number that no line has.
fn zero_if(good: bool) -> u32 {
    if good { 0 } else { u32::MAX }
}

/// The number of the first bad line; 0 where the text is a boot file, and is written back. For want
/// of memory it is a number that no line has.
fn bad_line(alloc: Global, text: &str) -> u32 {
    match read_boot(alloc, text.as_bytes()) {
        Ok(boot) => zero_if(holds(is_written(alloc, &boot, text))),
        Err(FileErr::Bad(line)) => line,
        Err(FileErr::NoMemory) => u32::MAX,
    }
}

/// Boot files: what the objects above go on with.
fn boot_files() -> [(&'static str, &'static str); 7] {
    [
        (
            one_vm(),
            "doorbell 1\ncap 2 7 5 3 1\ncap 2 8 5 2 0\nvm 2 3\n",
        ),
        (
            two_vms(),
            "cap 2 1 7 3 1\ncap 2 6 3 15 0\ncap 3 2 3 15 0\ncap 3 7 7 3 0\nvm 2 4\nvm 3 5\n",
        ),
        (
            two_vms(),
            "cap 2 1 1 1 0\ncap 2 2 2 15 0\ncap 2 6 3 15 0\ncap 3 7 7 3 1\nvm 2 4\nvm 3 5\n",
        ),
        (
            two_partitions(),
            "cap 3 1 2 1 0\ncap 3 2 3 15 0\ncap 3 6 4 15 0\ncap 4 7 8 3 1\nvm 3 5\nvm 4 6\n",
        ),
        (one_vm(), "extent 1 4 3 1 7 0 1\ncap 2 4 5 7 1\nvm 2 3\n"),
        (
            one_vm(),
            "extent 1 4 0 8 7 0 4\nextent 1 4 0 8 7 4 4\nmap 3 5 0 0 8 7\ncap 2 1 5 7 1\n\
             cap 2 2 6 7 1\nvm 2 3\n",
        ),
        (
            managed(),
            "map 5 9 0 0 1024 7\nmap 6 10 0 0 1024 7\ncap 2 1 11 1 0\ncap 2 2 12 2 0\n\
             cap 3 1 13 1 0\ncap 3 2 14 2 0\nvm 2 5\nvm 3 6\nrm 4 7 1\nlink 1 9 11 12\n\
             link 2 10 13 14\n",
        ),
    ]
}

fn is_boot_file(alloc: Global, front: &str, back: &str) -> Result<bool, NoMemory> {
    let text = joined(alloc, front, back)?;
    Ok(bad_line(alloc, &text) == 0)
}

fn are_boot_files(alloc: Global) -> bool {
    let mut all = true;
    for (front, back) in boot_files() {
        all = all && holds(is_boot_file(alloc, front, back));
    }
    all
}

#[test]
fn boot_files_are_written_back(rt: HostRuntime) {
    assert!(rt; are_boot_files(rt.alloc()));
}

/// Whole texts, and the number of the first bad line.
const WHOLE_TEXTS: [(&str, u32); 12] = [
    ("", 1),
    ("gunyah 1", 1),
    ("gunyah 2\npages 8\n", 1),
    ("gunyah 1\n", 2),
    ("gunyah 1\npages 0\n", 2),
    ("gunyah 1\npages 1025\n", 2),
    ("gunyah 1\npartition 40\n", 2),
    ("gunyah 1\npages 8\n", 3),
    ("gunyah 1\npages 8\npartition 1\nrootextent 1\n", 4),
    ("gunyah 1\npages 8\npartition 40\nrootextent 1\n", 5),
    (
        "gunyah 1\npages 8\npartition 40\ncspace 1\naddrspace 1\nvm 2 3\n",
        7,
    ),
    ("gunyah 1\npages 8\npartition 40\nrootextent 1", 4),
];

fn have_their_bad_line(alloc: Global) -> bool {
    let mut all = true;
    for (text, line) in WHOLE_TEXTS {
        all = all && bad_line(alloc, text) == line;
    }
    all
}

#[test]
fn a_text_that_is_no_boot_file_has_a_bad_line(rt: HostRuntime) {
    assert!(rt; have_their_bad_line(rt.alloc()));
}

/// Twelve lines of one VM: a doorbell 5, an extent 6 of four pages that holds two, message queues 7
/// and 8, and a capability in slot 1. 24 units are left.
fn twelve_lines() -> &'static str {
    "gunyah 1\npages 8\npartition 40\ncspace 1\naddrspace 1\nrootextent 1\ndoorbell 1\n\
     extent 1 4 0 4 7 0 2\nmsgqueue 1 4 240\nmsgqueue 1 4 16\ncap 2 1 5 3 1\nvm 2 3\n"
}

/// The twelve, further lines, and behind them a run.
fn with_run(alloc: Global, further: &str, run: &str) -> Result<String, NoMemory> {
    let mut text = joined(alloc, twelve_lines(), further)?;
    text.push_str(run)?;
    text.push_str("\n")?;
    Ok(text)
}

/// Whether the first bad line is the last of a run behind the twelve and further lines.
fn last_is_bad(alloc: Global, further: &str, run: &str) -> Result<bool, NoMemory> {
    let text = with_run(alloc, further, run)?;
    let pieces = text.split('\n').count();
    // The last piece is what stands behind the last line's end.
    Ok(bad_line(alloc, &text) as usize + 1 == pieces)
}

/// Whether that is so of each run of a table, in which a bar parts two runs.
fn last_are_bad(alloc: Global, further: &str, table: &str) -> bool {
    let mut all = true;
    for run in table.split('|') {
        all = all && holds(last_is_bad(alloc, further, run));
    }
    all
}

/// Lines without the form of a boot line.
fn misspelled() -> &'static str {
    "|doorbell|doorbell |doorbell 01|doorbell  1|doorbell 1 | doorbell 1|doorbell 1 1|\
     doorbell +1|doorbell 1\r|Doorbell 1|bell 1|doorbell 4294967297|\
     doorbell 10000000000000000000001|partition 65537|extent 1 4 4 2 7 0|extent 1 4 4 2 7 0 2 0|\
     cap 2 258 5 3 0|cap 2 2 5 3 2"
}

/// Object lines of which each breaks one condition.
fn misfit_objects() -> &'static str {
    "pages 8|partition 0|partition 129|cspace 2|partition 3\ncspace 9|partition 3\naddrspace 9|\
     doorbell 0|doorbell 1\npartition 1\ndoorbell 10|rootextent 1|msgqueue 5 4 16|msgqueue 1 0 16|\
     msgqueue 1 65 16|msgqueue 1 4 0|msgqueue 1 4 1025|msgqueue 1 64 1024\nmsgqueue 1 64 1024"
}

/// The same of extents and mappings.
fn misfit_pages() -> &'static str {
    "extent 4 4 4 2 7 0 0|partition 1\nextent 9 4 4 2 7 0 0|extent 1 5 0 1 7 0 0|\
     extent 1 4 7 2 7 0 0|extent 1 4 4 0 7 0 0|extent 1 4 4 2 0 0 2|extent 1 4 4 2 3 0 2|\
     extent 1 4 4 2 8 0 2|extent 1 4 4 2 7 1 2|extent 1 4 0 3 7 1 2|\
     extent 1 4 4 2 4 0 2\nextent 1 9 0 1 6 0 0|map 2 4 0 0 1 7|map 3 5 0 0 1 7|map 3 4 0 0 0 7|\
     map 3 4 0 0 9 7|map 3 4 4095 0 2 7|map 3 4 0 0 1 0|map 3 4 0 0 1 3|\
     extent 1 4 4 2 4 0 2\nmap 3 9 0 0 1 6|map 3 4 0 0 2 7\nmap 3 4 1 0 1 7"
}

/// The same of capabilities and CPUs.
fn misfit_cpus() -> &'static str {
    "cap 3 2 5 3 0|cap 2 0 5 3 0|cap 2 128 5 3 0|cap 2 1 5 3 0|cap 2 2 9 0 0|cap 2 2 5 4 0|\
     cap 2 2 5 3 1|doorbell 1\ncap 2 2 9 259 0\ncap 2 3 9 260 0|vm 3 2|cspace 1\nvm 9 3|\
     addrspace 1\nvm 2 9|rm 2 3 1|addrspace 1\nrm 2 9 1|cspace 1\nrm 9 3 1|\
     cspace 1\naddrspace 1\nrm 9 10 2|cspace 1\naddrspace 1\ncap 9 1 5 1 0\nrm 9 10 1|\
     cspace 1\naddrspace 1\nrm 9 10 1\ncspace 1\naddrspace 1\nrm 11 12 1|link 1 6 7 8"
}

/// The same of links, behind a resource manager of capability space 9.
fn misfit_links() -> &'static str {
    "link 0 6 7 8|link 2 6 7 8|link 1 5 7 8|link 1 6 5 8|link 1 6 7 5|link 1 6 7 7|\
     msgqueue 1 4 241\nlink 1 6 11 8|cap 9 2 5 1 0\nlink 1 6 7 8|cap 9 3 5 1 0\nlink 1 6 7 8|\
     link 1 6 7 8\nlink 1 6 7 8|\
     cspace 1\naddrspace 1\nvm 11 12\nlink 1 6 7 8\nmsgqueue 1 4 16\nlink 2 6 7 13|\
     cspace 1\naddrspace 1\nvm 11 12\nlink 1 6 7 8\nmsgqueue 1 4 16\nlink 2 6 13 8"
}

/// The resource manager and its spaces.
fn manager() -> &'static str {
    "cspace 1\naddrspace 1\nrm 9 10 1\n"
}

fn conditions_are_kept(alloc: Global) -> bool {
    last_are_bad(alloc, "", misspelled())
        && last_are_bad(alloc, "", misfit_objects())
        && last_are_bad(alloc, "", misfit_pages())
        && last_are_bad(alloc, "", misfit_cpus())
        && last_are_bad(alloc, manager(), misfit_links())
}

#[test]
fn a_line_that_breaks_a_condition_is_bad(rt: HostRuntime) {
    assert!(rt; conditions_are_kept(rt.alloc()));
}

fn put_line(text: &mut String, word: &str, number: u32, back: &str) -> Result<(), NoMemory> {
    text.push_str(word)?;
    write!(text, "{number}")?;
    text.push_str(back)?;
    text.push_str("\n")?;
    Ok(())
}

fn put_lines(
    text: &mut String,
    word: &str,
    numbers: Range<u32>,
    back: &str,
) -> Result<(), NoMemory> {
    for number in numbers {
        put_line(text, word, number, back)?;
    }
    Ok(())
}

/// Lines behind the twelve, each with its number, and the first bad line.
const NUMBERED_LINES: [(&str, (u32, u32), &str, u32); 6] = [
    // eight partitions, the first among them
    ("partition ", (1, 8), "", 0),
    ("partition ", (1, 9), "", 20),
    // 64 mappings of an address space
    ("map 3 4 ", (0, 64), " 0 1 7", 0),
    ("map 3 4 ", (0, 65), " 0 1 7", 77),
    // all slots of a capability space
    ("cap 2 ", (2, 128), " 5 3 0", 0),
    ("cap 2 ", (2, 129), " 5 3 0", 139),
];

/// The first bad line where there is a line with each of these numbers behind the twelve.
fn bad_line_of(
    alloc: Global,
    word: &str,
    numbers: (u32, u32),
    back: &str,
) -> Result<u32, NoMemory> {
    let mut text = String::from_str(alloc, twelve_lines())?;
    put_lines(&mut text, word, numbers.0..numbers.1, back)?;
    Ok(bad_line(alloc, &text))
}

fn limits_are_kept(alloc: Global) -> bool {
    let mut all = true;
    for (word, numbers, back, line) in NUMBERED_LINES {
        all = all && bad_line_of(alloc, word, numbers, back) == Ok(line);
    }
    all
}

#[test]
fn a_line_past_a_limit_is_bad(rt: HostRuntime) {
    assert!(rt; limits_are_kept(rt.alloc()));
}

fn put_times(text: &mut String, line: &str, count: u32) -> Result<(), NoMemory> {
    for _ in 0..count {
        text.push_str(line)?;
    }
    Ok(())
}

/// A second partition of 128 units as object 9, and in it spaces of one kind or of both.
fn with_spaces(alloc: Global, count: u32, spaces: &str) -> Result<String, NoMemory> {
    let mut text = joined(alloc, twelve_lines(), "partition 128\n")?;
    put_times(&mut text, spaces, count)?;
    Ok(text)
}

/// The first bad line where there are so many capability spaces more.
fn bad_line_of_spaces(alloc: Global, count: u32) -> Result<u32, NoMemory> {
    let text = with_spaces(alloc, count, "cspace 9\n")?;
    Ok(bad_line(alloc, &text))
}

/// The first bad line where eight pairs of spaces stand on lines 14 to 29, from object 10 on, and
/// behind them a VM of each.
fn bad_line_of_vms(alloc: Global) -> Result<u32, NoMemory> {
    let vms = "vm 10 11\nvm 12 13\nvm 14 15\nvm 16 17\nvm 18 19\nvm 20 21\nvm 22 23\nvm 24 25\n";
    let mut text = with_spaces(alloc, 8, "cspace 9\naddrspace 9\n")?;
    text.push_str(vms)?;
    Ok(bad_line(alloc, &text))
}

fn counts_are_limited(alloc: Global) -> bool {
    // With the first there are sixteen capability spaces, on lines 4 and 14 to 28.
    bad_line_of_spaces(alloc, 15) == Ok(0)
        && bad_line_of_spaces(alloc, 16) == Ok(29)
        // The ninth VM is on line 37.
        && bad_line_of_vms(alloc) == Ok(37)
}

#[test]
fn spaces_and_vms_have_limits(rt: HostRuntime) {
    assert!(rt; counts_are_limited(rt.alloc()));
}
