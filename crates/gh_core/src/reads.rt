//! What the words of a configuration hold, read from what was written and the boot's state.

ghost use Rattle.std.specs.Prelude.{◌≡◌, ◌+◌, ◌<◌, [], true, IfOk};
ghost use Rattle.std.specs.List.{list_all};
ghost use Rattle.gh_base.specs.declared.limits.TheConstants.{OBJECT_INDICES};
ghost use Rattle.gh_events.specs.Config.{present};
ghost use Rattle.gh_events.specs.Entries.{shown};
ghost use Rattle.gh_core.specs.Running.{IsKept, boot_of, has_index, index_in, stands_for};
ghost use Rattle.gh_events.specs.Start.{boot_cap};
ghost use Rattle.gh_model.specs.Marks.{cspace_of};

use crate::config::Running;
use crate::indices::{index_of, object_at, references_at, serial_at};
use crate::log::replayed;
use crate::table::{Written, last_mark, last_number, last_word};
use gh_base::{CapWord, CpuNo, NoMemory, ObjIndex, Serial};
use gh_model::{Plain, State, StateReads, Word};
use std::alloc::Global;

/// A count in 64 bits. One beyond them, of more rows than memory has, is answered as want of
/// memory.
pub(crate) fn narrow(count: u128) -> Result<u64, NoMemory>
    ensures { IfOk result (λ narrowed. narrowed ≡ count) }
{
    if count > u64::MAX as u128 {
        return Err(NoMemory);
    }
    Ok(count as u64)
}

/// One more. A count at the end of 64 bits is answered as want of memory.
pub(crate) fn one_more(count: u64) -> Result<u64, NoMemory>
    ensures { IfOk result (λ more. more ≡ count + 1) }
{
    if count == u64::MAX {
        return Err(NoMemory);
    }
    Ok(count + 1)
}

/// The present state.
pub(crate) fn present(alloc: Global, running: &Running) -> Result<Plain, NoMemory>
    requires { IsKept running.now }
    ensures { IfOk result (λ plain. plain ≡ present (stands_for running.now)) }
{
    replayed(alloc, &running.boot, running.log.as_slice())
}

/// The index of an object, narrow.
fn object_index(first: &[Written], given: &[Written], serial: Serial) -> ObjIndex
    requires first { list_all has_index first.now ≡ true }
    requires given { list_all has_index given.now ≡ true }
    ensures value { result.0 ≡ index_in first.now given.now serial.0 }
    ensures within { result.0 < OBJECT_INDICES }
{
    let index = index_of(first, given, serial);
    let narrow = index as u16;
    ObjIndex(narrow)
}

/// A word with the index of the object that it names.
pub(crate) fn shown(first: &[Written], given: &[Written], word: Word) -> CapWord
    requires first { list_all has_index first.now ≡ true }
    requires given { list_all has_index given.now ≡ true }
    ensures { result.0 ≡ shown (index_in first.now given.now) word }
{
    match word.row {
        None => CapWord::empty(word.set_at),
        Some(row) => CapWord::filled(
            row.valid,
            row.kind,
            row.master,
            object_index(first, given, row.serial),
            row.rights,
            word.set_at,
        ),
    }
}

/// The count of a reference word.
pub(crate) fn count(running: &Running, boot: &State, at: u64) -> Result<u64, NoMemory>
    requires { boot.now ≡ boot_of running.now }
    ensures { IfOk result (λ count. count ≡ (stands_for running.now).count at) }
{
    match last_number(running.counts.as_slice(), at) {
        Some(count) => Ok(count),
        None => narrow(references_at(boot, running.first.as_slice(), &[], at)),
    }
}

/// Whether a reference word is dead.
pub(crate) fn is_dead(running: &Running, boot: &State, at: u64) -> bool
    requires { boot.now ≡ boot_of running.now }
    ensures { result ≡ (stands_for running.now).dead at }
{
    match last_mark(running.dead.as_slice(), at) {
        Some(dead) => dead,
        None => !object_at(boot, running.first.as_slice(), &[], at).is_some(),
    }
}

/// The word of a slot at the boot.
fn boot_word(running: &Running, boot: &State, space: u64, slot: u64) -> CapWord
    requires kept { IsKept running.now }
    requires boot { boot.now ≡ boot_of running.now }
    ensures { result ≡ boot_cap boot.now (index_in running.now.first []) space slot }
{
    let first = running.first.as_slice();
    let word = boot.word(serial_at(boot, first, &[], space), slot);
    shown(first, &[], word)
}

/// The word of a slot, by the index of its capability space.
pub(crate) fn cap(running: &Running, boot: &State, space: u64, slot: u64) -> CapWord
    requires kept { IsKept running.now }
    requires boot { boot.now ≡ boot_of running.now }
    ensures { result ≡ (stands_for running.now).cap space slot }
{
    match last_word(running.caps.as_slice(), space, slot) {
        Some(word) => word,
        None => boot_word(running, boot, space, slot),
    }
}

/// The counter of a CPU.
pub(crate) fn counter(running: &Running, cpu: CpuNo) -> u64
    ensures { result ≡ (stands_for running.now).counter cpu.0 }
{
    last_number(running.counters.as_slice(), cpu.0 as u64).unwrap_or(0)
}

/// The capability space that a CPU looks up in.
pub(crate) fn cspace_of(boot: &State, cpu: CpuNo) -> Serial
    ensures { result.0 ≡ cspace_of boot.now cpu.0 }
{
    match boot.cpu(cpu) {
        None => Serial(0),
        Some(row) => row.cspace,
    }
}
