//! A session on the slow machine: a boot file, and calls as their lines.

use gh_base::{CpuNo, Frame, HISTORY_ENTRIES, Need, Reply, Sequence, Serial};
use gh_bootfile::read_boot;
use gh_callfile::read_calls;
use gh_frames::{needs, read_call};
use gh_model::{Judged, Plain};
use std::alloc::Global;
use std::fmt::Write;
use std::process::Abort;
use std::test::Fail;

pub(crate) fn boot(alloc: Global, text: &str) -> Result<Plain, Fail> {
    let boot = read_boot(alloc, text.as_bytes())?;
    let plain = Plain::boot(alloc, &boot)?;
    Ok(plain)
}

/// The objects that the looks of a call grant, or the refusal of one of them.
fn looked(
    alloc: Global,
    plain: &Plain,
    cpu: CpuNo,
    needs: &[(u64, Need)],
) -> Result<Result<Sequence<Serial>, Reply>, Fail> {
    let mut grants = Sequence::new(alloc);
    for item in needs {
        let (slot, need) = *item;
        match plain.look(cpu, slot, &need).0 {
            Ok(serial) => grants.push(serial)?,
            Err(errno) => return Ok(Err(Reply::refusal(errno))),
        }
    }
    Ok(Ok(grants))
}

/// A call of a CPU, from its looks to its act, with nothing between.
pub(crate) fn made(
    alloc: Global,
    plain: &mut Plain,
    cpu: CpuNo,
    frame: &Frame,
) -> Result<Reply, Fail> {
    let call = match read_call(frame) {
        Ok(call) => call,
        Err(errno) => return Ok(Reply::refusal(errno)),
    };
    let grants = match looked(alloc, plain, cpu, needs(&call).as_slice())? {
        Ok(grants) => grants,
        Err(reply) => return Ok(reply),
    };
    if plain.entries() >= HISTORY_ENTRIES {
        return Err(Fail::new("the history is full"));
    }
    match plain.act(alloc, cpu, frame, &call, grants.as_slice())? {
        Judged::Done(reply) | Judged::Refused(reply) => Ok(reply),
    }
}

/// A reply as a history has it: four registers and the bytes that came.
fn spelled(alloc: Global, reply: &Reply) -> Result<String, Fail> {
    let mut text = format!(in alloc;
        "{:x} {:x} {:x} {:x}",
        reply.x[0], reply.x[1], reply.x[2], reply.x[3]
    )?;
    let bytes = reply.bytes.as_slice();
    if !bytes.is_empty() {
        text.push_str(" : ")?;
    }
    for byte in bytes {
        write!(text, "{byte:02x}")?;
    }
    Ok(text)
}

/// The reply to the call of a line of a call file.
pub(crate) fn answer(
    alloc: Global,
    plain: &mut Plain,
    cpu: u8,
    line: &str,
) -> Result<String, Fail> {
    let text = format!(in alloc; "{line}\n")?;
    let lines = read_calls(alloc, text.as_bytes(), 1)?;
    match lines.first() {
        None => Err(Fail::new("no line")),
        Some(line) => {
            let reply = made(alloc, plain, CpuNo(cpu), &line.frame)?;
            spelled(alloc, &reply)
        }
    }
}

/// The reply of each row to its CPU's call, in their order.
pub(crate) fn answers(
    rt: &impl Abort,
    alloc: Global,
    plain: &mut Plain,
    rows: &[(u8, &str, &str)],
) -> Result<(), Fail> {
    for row in rows {
        let (cpu, call, reply) = *row;
        let got = answer(alloc, plain, cpu, call)?;
        assert_eq!(rt; got.as_str(), reply, "{call}");
    }
    Ok(())
}

/// A part of a revoke: whether the slot had a valid capability without master mark.
fn part(plain: &mut Plain, cspace: u32, slot: u8) -> Result<bool, Fail> {
    if plain.entries() >= HISTORY_ENTRIES {
        return Err(Fail::new("the history is full"));
    }
    let made = plain.part(Serial(cspace), slot)?;
    Ok(made)
}

/// Parts of a revoke: of each slot, whether it is one.
pub(crate) fn parts(plain: &mut Plain, rows: &[(u32, u8, bool)]) -> Result<(), Fail> {
    for row in rows {
        let (cspace, slot, is_part) = *row;
        if part(plain, cspace, slot)? != is_part {
            return Err(Fail::new("a slot is a part, or isn't, against its row"));
        }
    }
    Ok(())
}

/// A retirement: whether the object was doomed and not retired.
pub(crate) fn retire(plain: &mut Plain, serial: u32) -> Result<bool, Fail> {
    if plain.entries() >= HISTORY_ENTRIES {
        return Err(Fail::new("the history is full"));
    }
    Ok(plain.retire(Serial(serial)))
}

/// A reclaim: whether the object was retired and still doomed.
pub(crate) fn reclaim(alloc: Global, plain: &mut Plain, serial: u32) -> Result<bool, Fail> {
    if plain.entries() >= HISTORY_ENTRIES {
        return Err(Fail::new("the history is full"));
    }
    let made = plain.reclaim(alloc, Serial(serial))?;
    Ok(made)
}
