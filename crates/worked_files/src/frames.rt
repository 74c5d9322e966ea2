//! Worked frames that are refused, and frames with hostile registers that are read all the same.

use gh_base::{Call, Errno, Frame, NoMemory, Sequence};
use gh_frames::read_call;
use std::alloc::Global;

/// Registers x0 to x8.
type Registers = [u64; 9];

const PAGE: u64 = 0x1000;

const LAST_PAGE: u64 = 0xffff_ffff_ffff_f000;

/// What a frame of these registers, with this many bytes, is read as.
fn answer(alloc: Global, x: Registers, bytes: usize) -> Result<Result<Call, Errno>, NoMemory> {
    let bytes = vec![in alloc; 0; bytes]?;
    let frame = Frame {
        x,
        bytes: Sequence::from_vec(bytes),
    };
    Ok(read_call(&frame))
}

fn refused_rows() -> [(Registers, usize, Errno); 6] {
    [
        ([0xc600_8012, 1, 0, 0, 0, 0, 0, 0, 0], 0, Errno::ArgInval),
        ([0xc600_8012, 7, 1, 9, 0, 0, 0, 0, 0], 0, Errno::ArgInval),
        (
            [0xc600_802b, 0, 7, 0x800, 0x77, 0, 0, 0, 0],
            0,
            Errno::ArgAlign,
        ),
        ([0xc600_801b, 7, 2, 0, 0, 0, 0, 0, 0], 1, Errno::ArgSize),
        ([0xc600_8061, 3, 1, 2, 0, PAGE, 0, 0, 0], 0, Errno::ArgInval),
        ([u64::MAX, 0, 0, 0, 0, 0, 0, 0, 0], 0, Errno::Unimplemented),
    ]
}

fn are_refused(alloc: Global) -> bool {
    let mut all = true;
    for (x, bytes, errno) in refused_rows() {
        all = all && answer(alloc, x, bytes) == Ok(Err(errno));
    }
    all
}

#[test]
fn frames_are_refused_by_the_table(rt: HostRuntime) {
    assert!(rt; are_refused(rt.alloc()));
}

fn hostile_rows() -> [Registers; 7] {
    [
        [0xc600_8012, u64::MAX, 1, 0, 0, 0, 0, 0, 0],
        [0xc600_8012, 4, 1, 0, 5, 0, 0, 0, 0],
        [0xc600_802b, 0, 4, LAST_PAGE, 0x77, 0, 0, 0, 0],
        [0xc600_802b, 0, 4, 0, 0x77, 1, LAST_PAGE, PAGE, 0],
        [0xc600_802b, 0, 4, 0, 0x77, 1, 0, LAST_PAGE, 0],
        [0xc600_8231, 0, u64::MAX, 0, 0, 0, 0, 0, 0],
        [0xc600_8061, 2, 4, 4, 0, PAGE, 0, 0, 0],
    ]
}

/// Whether a frame of these registers is read as some call.
fn is_read(alloc: Global, x: Registers) -> bool {
    match answer(alloc, x, 0) {
        Ok(call) => call.is_ok(),
        Err(NoMemory) => false,
    }
}

fn are_read(alloc: Global) -> bool {
    let mut all = true;
    for x in hostile_rows() {
        all = all && is_read(alloc, x);
    }
    all
}

#[test]
fn hostile_registers_are_left_to_the_looks_and_the_act(rt: HostRuntime) {
    assert!(rt; are_read(rt.alloc()));
}

fn worked_rows() -> [(Registers, Call); 3] {
    let ring = Call::BellSend { cap: 7, flags: 5 };
    let lookup = Call::AsLookup {
        space: 0,
        address: PAGE,
    };
    [
        ([0xc600_8012, 7, 5, 0, 0, 0, 0, 0, 0], ring),
        ([0xc600_8231, 0, PAGE, 0, 0, 0, 0, 0, 0], lookup),
        ([0xc600_8240, 0, 0, 0, 0, 0, 0, 0, 0], Call::Exit),
    ]
}

fn are_read_so(alloc: Global) -> bool {
    let mut all = true;
    for (x, call) in worked_rows() {
        all = all && answer(alloc, x, 0) == Ok(Ok(call));
    }
    all
}

#[test]
fn frames_are_read_by_the_table(rt: HostRuntime) {
    assert!(rt; are_read_so(rt.alloc()));
}
