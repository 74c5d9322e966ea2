//! The state that a boot file makes, line by line.

ghost use Rattle.std.specs.Prelude.{◌≡◌, ◌+◌, ◌<◌, ◌≤◌, ◌^◌, fold, sum_by, IsTrue, IfOk, OnOk};
ghost use Rattle.gh_base.specs.declared.limits.TheConstants.{MESSAGE_BYTES, QUEUE_DEPTH};
ghost use Rattle.gh_model.specs.Changes.{changed_all};
ghost use Rattle.gh_model.specs.Fitting.{IsFitting};
ghost use Rattle.gh_model.specs.Room.{new_rings, new_serials, new_settings};
ghost use Rattle.gh_model.specs.Boot.{boot_fits, line_fits, boot_state, after_line, empty_state, queue_cost, cpu_vms, cpu_cspace, lines_fit};

use crate::boot_changes::set_pages;
use crate::boot_line::BootLine;
use crate::change::Change;
use crate::line_changes::line_changes;
use crate::lookup::cpu_row;
use crate::make::make_each;
use crate::rows::CpuRow;
use crate::state::State;
use gh_base::{CpuNo, NoMemory, Sequence, Serial};
use std::alloc::Global;
use std::marker::Model;

/// The lines of a boot file but for the first, each in its place.
#[derive(Drop)]
pub struct Boot {
    lines: Vec<BootLine>,
}

impl Model for Boot {
    ghost use Rattle.std.specs.Prelude.{List, IsTrue};
    ghost use Rattle.gh_model.specs.declared.boot_line.BootLine.{BootLine};

    ghost Value = { List BootLine };

    ghost use Rattle.gh_model.specs.Boot.{boot_fits};

    ghost view = { λ boot. boot.lines.items };

    ghost invariant = { λ boot. IsTrue (boot_fits boot.lines.items) };
}

impl Boot {
    pub fn new(lines: Vec<BootLine>) -> Boot
        requires { IsTrue (boot_fits lines.items) }
        ensures { result ≡ lines.items }
    {
        Boot { lines }
    }

    pub fn lines(&self) -> &[BootLine]
        ensures lines { result.now ≡ self.now }
        ensures fits { IsTrue (boot_fits self.now) }
    {
        self.lines.as_slice()
    }
}

/// The state before the first line. It takes no memory.
pub fn empty_state(alloc: Global) -> State
    ensures { result ≡ empty_state }
{
    State {
        objects: Sequence::new(alloc),
        partitions: Sequence::new(alloc),
        extents: Sequence::new(alloc),
        holders: Sequence::new(alloc),
        caps: Sequence::new(alloc),
        set_at: Sequence::new(alloc),
        mappings: Sequence::new(alloc),
        bells: Sequence::new(alloc),
        queues: Sequence::new(alloc),
        parcels: Sequence::new(alloc),
        cpus: Sequence::new(alloc),
        links: Sequence::new(alloc),
        entries: 0,
        next_serial: 1,
        next_handle: 1,
        rings: 0,
        taken: Sequence::new(alloc),
    }
}

/// Units of a queue: one, and its messages' room in pages, rounded up.
pub fn cost_of_queue(depth: u16, size: u16) -> u16
    requires depth { depth ≤ QUEUE_DEPTH }
    requires size { size ≤ MESSAGE_BYTES }
    ensures { result ≡ queue_cost depth size }
{
    let bytes = depth as u32 * size as u32;
    1 + ((bytes + 4095) / 4096) as u16
}

/// VMs so far.
pub fn vm_count(cpus: &[CpuRow]) -> usize
    ensures { result ≡ cpu_vms cpus.now }
{
    cpus.iter().filter(|row| row.cpu.0 > 0).count()
}

/// The capability space of the resource manager; serial 0 where there is none.
pub fn manager_cspace(cpus: &[CpuRow]) -> Serial
    ensures { result.0 ≡ cpu_cspace cpus.now 0 }
{
    match cpu_row(cpus, CpuNo(0)) {
        None => Serial(0),
        Some(row) => row.cspace,
    }
}

/// Changes that set no slot by an entry and ring no bell.
#[tactic(auto, using(crate::proofs::LineRoom::unnumbered_room))]
fn make_unnumbered(
    alloc: Global,
    state: &mut State,
    changes: Sequence<Change>,
) -> Result<(), NoMemory>
    requires settings { sum_by new_settings changes ≡ 0 }
    requires serials { state.old.next_serial + sum_by new_serials changes < 2 ^ 32 }
    requires rings { sum_by new_rings changes ≡ 0 }
    ensures { OnOk result (state.new ≡ changed_all state.old changes) }
{
    make_each(alloc, state, changes)
}

/// Makes what a line that fits makes, behind the line of pages.
pub fn add_line(alloc: Global, state: &mut State, line: BootLine) -> Result<(), NoMemory>
    requires fits { IsTrue (line_fits state.old line) }
    requires fitting { IsFitting state.old }
    ensures { OnOk result (state.new ≡ after_line state.old line) }
{
    let changes = line_changes(alloc, &*state, line)?;
    make_unnumbered(alloc, state, changes)
}

/// The lines behind the first.
fn add_lines(alloc: Global, state: &mut State, lines: &[BootLine]) -> Result<(), NoMemory>
    requires fit { IsTrue (lines_fit state.old lines.now) }
    requires fitting { IsFitting state.old }
    ensures { OnOk result (state.new ≡ fold after_line state.old lines.now) }
{
    for line in lines {
        add_line(alloc, state, *line)?;
    }
    Ok(())
}

/// So many pages, which no extent holds yet.
pub fn add_pages(alloc: Global, state: &mut State, count: u16) -> Result<(), NoMemory>
    ensures { OnOk result (state.new ≡ after_line state.old (BootLine.Pages count)) }
{
    set_pages(alloc, state, count)
}

/// The state that a boot file makes.
pub(crate) fn booted(alloc: Global, boot: &Boot) -> Result<State, NoMemory>
    ensures { IfOk result (λ state. state ≡ boot_state boot.now) }
{
    let mut state = empty_state(alloc);
    match boot.lines().split_first() {
        Some((BootLine::Pages { count }, lines)) => {
            add_pages(alloc, &mut state, *count)?;
            add_lines(alloc, &mut state, lines)?;
        }
        _ => unreachable!(),
    }
    Ok(state)
}
