//! Walks through worked histories: each row is a call that is given, an event, or what stands then.

use crate::atomic_step::{AtomicStep, Entered, event, parts};
use crate::marks::{Line, are_lines};
use crate::names::{ONE, TWO};
use gh_base::{CPUS, CapWord, CpuNo, Frame, NoMemory, ObjIndex, Sequence, Serial};
use gh_bootfile::read_boot;
use gh_core::{Config, Event, Logged, step};
use std::alloc::Global;

/// What stands in a configuration.
#[derive(Clone, Copy)]
pub(crate) enum Fact {
    /// The reference word at an index is alive, with this count.
    Counts(ObjIndex, u64),
    /// It is dead, with this count.
    Dead(ObjIndex, u64),
    /// A slot of the capability space at an index has this word.
    Shows(ObjIndex, u8, CapWord),
    /// A CPU's counter of read sections.
    Counter(CpuNo, u64),
    /// The index of an object.
    LiesAt(Serial, u64),
    /// The used, free and given units of a partition.
    Units(Serial, (u16, u16, u16)),
}

/// What comes next.
#[derive(Clone, Copy)]
pub(crate) enum Row {
    /// The CPU may be given its call of this number, and is: registers x0 to x3.
    Gives(CpuNo, u32, [u64; 4]),
    /// The event is possible, and is made.
    Makes(AtomicStep),
    /// The event isn't possible.
    Refuses(AtomicStep),
    /// The CPU scans the counter of each CPU.
    ScansAll(CpuNo),
    /// This stands.
    Has(Fact),
}

/// A worked history: its rows in three lists, and then its entries and the lines of its calls.
#[derive(Clone, Copy)]
pub(crate) struct Worked<'a> {
    pub boot: &'a str,
    pub begin: &'a [Row],
    pub rest: &'a [Row],
    /// Both VMs' exits.
    pub exits: &'a [Row],
    pub entries: &'a [Entered],
    /// The calls of VM 1.
    pub first: &'a [Line],
    /// Those of VM 2.
    pub second: &'a [Line],
}

fn frame(alloc: Global, x: [u64; 4]) -> Frame {
    Frame {
        x: [x[0], x[1], x[2], x[3], 0, 0, 0, 0, 0],
        bytes: Sequence::new(alloc),
    }
}

fn give(
    alloc: Global,
    config: &mut Config,
    cpu: CpuNo,
    number: u32,
    x: [u64; 4],
) -> Result<bool, NoMemory> {
    if !config.may_give(alloc, cpu, number)? {
        return Ok(false);
    }
    config.give(alloc, cpu, number, &frame(alloc, x))?;
    Ok(true)
}

fn make(alloc: Global, config: &mut Config, event: Event) -> Result<bool, NoMemory> {
    match step(alloc, config, event)? {
        None => Ok(false),
        Some(next) => {
            *config = next;
            Ok(true)
        }
    }
}

fn refuses(alloc: Global, config: &Config, event: Event) -> Result<bool, NoMemory> {
    Ok(step(alloc, config, event)?.is_none())
}

fn scan_all(alloc: Global, config: &mut Config, cpu: CpuNo) -> Result<bool, NoMemory> {
    for of in 0..CPUS as u8 {
        if !make(alloc, config, event(AtomicStep::Scan(cpu, CpuNo(of))))? {
            return Ok(false);
        }
    }
    Ok(true)
}

fn counts(
    alloc: Global,
    config: &Config,
    object: ObjIndex,
    count: u64,
    dead: bool,
) -> Result<bool, NoMemory> {
    Ok(config.count(alloc, object)? == count && config.is_dead(alloc, object)? == dead)
}

fn stands(alloc: Global, config: &Config, fact: Fact) -> Result<bool, NoMemory> {
    match fact {
        Fact::Counts(object, count) => counts(alloc, config, object, count, false),
        Fact::Dead(object, count) => counts(alloc, config, object, count, true),
        Fact::Shows(space, slot, word) => Ok(config.cap(alloc, space, slot)? == word),
        Fact::Counter(cpu, counter) => Ok(config.counter(cpu) == counter),
        Fact::LiesAt(serial, index) => Ok(config.index(serial) == index),
        Fact::Units(serial, units) => Ok(config.present(alloc)?.units(serial) == Some(units)),
    }
}

fn follow(alloc: Global, config: &mut Config, row: Row) -> Result<bool, NoMemory> {
    match row {
        Row::Gives(cpu, number, x) => give(alloc, config, cpu, number, x),
        Row::Makes(step) => make(alloc, config, event(step)),
        Row::Refuses(step) => refuses(alloc, config, event(step)),
        Row::ScansAll(cpu) => scan_all(alloc, config, cpu),
        Row::Has(fact) => stands(alloc, config, fact),
    }
}

/// Whether each row answers as it says; then the configuration is the one behind them.
fn walk(alloc: Global, config: &mut Config, rows: &[Row]) -> Result<bool, NoMemory> {
    for row in rows {
        if !follow(alloc, config, *row)? {
            return Ok(false);
        }
    }
    Ok(true)
}

fn are_entries(history: &[Logged], entries: &[Entered]) -> bool {
    if history.len() != entries.len() {
        return false;
    }
    for (at, logged) in history.iter().enumerate() {
        if parts(logged.entry) != entries[at] {
            return false;
        }
    }
    true
}

fn ends(config: &Config, worked: &Worked) -> bool {
    are_entries(config.history(), worked.entries)
        && are_lines(ONE, config.made(ONE), worked.first)
        && are_lines(TWO, config.made(TWO), worked.second)
}

fn walk_all(alloc: Global, config: &mut Config, worked: &Worked) -> Result<bool, NoMemory> {
    Ok(
        walk(alloc, config, worked.begin)?
            && walk(alloc, config, worked.rest)?
            && walk(alloc, config, worked.exits)?,
    )
}

/// Whether the history comes as it is worked.
pub(crate) fn holds(alloc: Global, worked: &Worked) -> Result<bool, NoMemory> {
    match read_boot(alloc, worked.boot.as_bytes()) {
        Err(_) => Ok(false),
        Ok(boot) => {
            let mut config = Config::boot(alloc, &boot)?;
            Ok(walk_all(alloc, &mut config, worked)? && ends(&config, worked))
        }
    }
}
