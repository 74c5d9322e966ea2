//! Worked lines, bad files, schedules, and a program with a repeat.

ghost use Rattle.std.specs.Prelude.{◌≡◌, true, false, OnOk};
ghost use Rattle.gh_callfile.specs.VmProgress.{has_made_one};

use crate::outcome::holds;
use gh_base::{CpuNo, NoMemory, Reply};
use gh_bootfile::read_boot;
use gh_callfile::{FileErr, VmProgram, read_calls, read_schedule};
use gh_model::{Boot, Line, Program, Step};
use std::alloc::Global;

/// A line, its registers x0 to x3, its bytes and how often it may be made.
type LineRow = (&'static str, [u64; 4], &'static [u8], u32);

fn line_rows() -> [LineRow; 4] {
    let all = b"\x15\xfb\x59\xe2".as_slice();
    let first = b"\x15".as_slice();
    let none = b"".as_slice();
    [
        ("c6008012 7 5\n", [0xc600_8012, 7, 5, 0], none, 1),
        (
            "c600801c 2 0 f0 * 40\n",
            [0xc600_801c, 2, 0, 0xf0],
            none,
            40,
        ),
        (
            "c600801b 4 4 0 1 : 15fb59e2\n",
            [0xc600_801b, 4, 4, 0],
            all,
            1,
        ),
        (
            "ffffffffffffffff : 15 * 65536\n",
            [u64::MAX, 0, 0, 0],
            first,
            65_536,
        ),
    ]
}

/// Whether there is one line, and it says this.
fn is_one(lines: &[Line], x: &[u64; 4], bytes: &[u8], times: u32) -> bool {
    match lines.first() {
        None => false,
        Some(line) => {
            lines.len() == 1
                && line.frame.x[..4] == x[..]
                && line.frame.bytes.as_slice() == bytes
                && line.times == times
        }
    }
}

fn is_read(alloc: Global, text: &str, x: &[u64; 4], bytes: &[u8], times: u32) -> bool {
    match read_calls(alloc, text.as_bytes(), 65_536) {
        Ok(lines) => is_one(lines.as_slice(), x, bytes, times),
        Err(_) => false,
    }
}

fn are_read(alloc: Global) -> bool {
    let mut all = true;
    for (text, x, bytes, times) in line_rows() {
        all = all && is_read(alloc, text, &x, bytes, times);
    }
    all
}

#[test]
fn lines_say_registers_bytes_and_repeats(rt: HostRuntime) {
    assert!(rt; are_read(rt.alloc()));
}

/// Whether there are two lines, and the first has 8 in x8.
fn are_two(lines: &[Line]) -> bool {
    lines.len() == 2 && lines[0].frame.x[8] == 8
}

fn ninth_is_read(alloc: Global) -> bool {
    match read_calls(alloc, "0 1 2 3 4 5 6 7 8\n9\n".as_bytes(), 2) {
        Ok(lines) => are_two(lines.as_slice()),
        Err(_) => false,
    }
}

#[test]
fn the_ninth_register_is_x8(rt: HostRuntime) {
    assert!(rt; ninth_is_read(rt.alloc()));
}

/// The first bad line of a call file; 0 where it is good. For want of memory it is a number that no
/// line has.
fn bad_line(alloc: Global, text: &str, room: u32) -> u32 {
    match read_calls(alloc, text.as_bytes(), room) {
        Ok(_) => 0,
        Err(FileErr::Bad(line)) => line,
        Err(FileErr::NoMemory) => u32::MAX,
    }
}

/// Call files, the room for their calls, and the first bad line.
const CALL_FILES: [(&str, u32, u32); 19] = [
    ("", 0, 0),
    ("0 * 2\n0\n", 3, 0),
    ("0\nC6008000\n", 9, 2),
    ("0\n0\n01\n", 9, 3),
    ("0 0 0 0 0 0 0 0 0 0\n", 9, 1),
    ("10000000000000000\n", 9, 1),
    ("0 : 123\n", 9, 1),
    ("0 :\n", 9, 1),
    ("0 : AB\n", 9, 1),
    ("0 * 0\n", 9, 1),
    ("0 * 65537\n", 99_999, 1),
    ("0 * 01\n", 9, 1),
    ("0 * 1 : ab\n", 9, 1),
    ("0  0\n", 9, 1),
    ("0 \n", 9, 1),
    ("\n", 9, 1),
    ("0\n0", 9, 2),
    ("0 * 2\n0\n0\n", 3, 3),
    ("0 * 4\n", 3, 1),
];

fn are_named(alloc: Global) -> bool {
    let mut all = true;
    for (text, room, line) in CALL_FILES {
        all = all && bad_line(alloc, text, room) == line;
    }
    all
}

#[test]
fn the_first_bad_line_is_named(rt: HostRuntime) {
    assert!(rt; are_named(rt.alloc()));
}

/// A boot file of a VM and the resource manager.
const BOOT: &str = "gunyah 1\npages 1\npartition 40\ncspace 1\ncspace 1\naddrspace 1\n\
                    addrspace 1\nrootextent 1\nvm 2 4\nrm 3 5 1\n";

fn cpus_are_read(alloc: Global, boot: &Boot) -> bool {
    match read_schedule(alloc, "\n10\n\n1".as_bytes(), boot) {
        Ok(cpus) => cpus.as_slice() == [CpuNo(1), CpuNo(0), CpuNo(1)].as_slice(),
        Err(_) => false,
    }
}

/// The first bad item of a schedule, as a call file's first bad line.
fn bad_item(alloc: Global, boot: &Boot, text: &str) -> u32 {
    match read_schedule(alloc, text.as_bytes(), boot) {
        Ok(_) => 0,
        Err(FileErr::Bad(item)) => item,
        Err(FileErr::NoMemory) => u32::MAX,
    }
}

/// Schedules with the first item that isn't a CPU.
const SCHEDULES: [(&str, u32); 5] = [
    ("1\n2", 2),
    ("9", 1),
    ("11 1", 3),
    ("x", 1),
    ("01\n\n01\n8", 5),
];

fn items_are_named(alloc: Global, boot: &Boot) -> bool {
    let mut all = true;
    for (text, item) in SCHEDULES {
        all = all && bad_item(alloc, boot, text) == item;
    }
    all
}

fn schedules_are_read(alloc: Global) -> bool {
    match read_boot(alloc, BOOT.as_bytes()) {
        Ok(boot) => cpus_are_read(alloc, &boot) && items_are_named(alloc, &boot),
        Err(_) => false,
    }
}

#[test]
fn a_schedule_names_cpus_of_the_boot_file(rt: HostRuntime) {
    assert!(rt; schedules_are_read(rt.alloc()));
}

/// What a call has in x0; 0 where the program has ended, and 1 where it is idle.
fn told(step: &Step) -> u64 {
    match step {
        Step::Make(frame) => frame.x[0],
        Step::End => 0,
        Step::Idle => 1,
    }
}

/// What the program's first call has in x0.
fn first(program: &mut VmProgram, alloc: Global) -> Result<u64, NoMemory>
    requires { has_made_one program.old ≡ false }
    ensures { OnOk result (has_made_one program.new ≡ true) }
{
    let step = program.next(alloc, None)?;
    Ok(told(&step))
}

/// What the program's next call has in x0, once its last one was answered so.
fn next(program: &mut VmProgram, alloc: Global, answer: u64) -> Result<u64, NoMemory>
    requires { has_made_one program.old ≡ true }
    ensures { has_made_one program.new ≡ true }
{
    let step = program.next(alloc, Some(&Reply::registers(answer, 0, 0, 0)))?;
    Ok(told(&step))
}

/// Whether the lines `a * 3` and `b` are made as their answers ask, and then the exit call.
fn are_made(alloc: Global, lines: Vec<Line>) -> Result<bool, NoMemory> {
    let mut program = VmProgram::new(lines);
    let first = first(&mut program, alloc)?;
    let again = [
        next(&mut program, alloc, 60),
        next(&mut program, alloc, 61),
        next(&mut program, alloc, 60),
        next(&mut program, alloc, 60),
        next(&mut program, alloc, 0),
        next(&mut program, alloc, 0),
    ];
    let told = [Ok(0xa), Ok(0xa), Ok(0xb), Ok(0xc600_8240), Ok(0), Ok(0)];
    Ok(first == 0xa && again == told)
}

fn file_is_made(alloc: Global) -> bool {
    match read_calls(alloc, "a * 3\nb\n".as_bytes(), 4) {
        Ok(lines) => holds(are_made(alloc, lines)),
        Err(_) => false,
    }
}

#[test]
fn a_line_is_made_again_while_a_queue_is_empty_or_full(rt: HostRuntime) {
    assert!(rt; file_is_made(rt.alloc()));
}
