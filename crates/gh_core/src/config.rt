//! Configurations of the running machine.

ghost use Rattle.std.specs.Prelude.{◌≡◌, ◌<◌, option_map, IfOk, OnErr, OnOk};
ghost use Rattle.gh_base.specs.declared.limits.TheConstants.{CPUS};
ghost use Rattle.gh_events.specs.Start.{MayGive, given};
ghost use Rattle.gh_core.specs.Booted.{booted};
ghost use Rattle.gh_core.specs.Running.{IsKept, cpu_of, holder_of, stands_for, with_count};
ghost use Rattle.gh_core.specs.Running.{with_counter, with_cpu, with_holder, with_mark};

use crate::boot::{boot_indices, new_seats};
use crate::cpu::Seat;
use crate::given::given_seat;
use crate::holder::Turn;
use crate::log::{Logged, copy_of_log};
use crate::table::{Marked, SlotWritten, Written};
use gh_base::{CpuNo, Frame, NoMemory, Sequence};
use gh_model::{Boot, Plain};
use std::alloc::Global;
use std::marker::Model;

/// All that a configuration is made of. The words of the boot are not kept, but read from its
/// state.
#[derive(Drop)]
pub struct Running {
    pub boot: Boot,
    pub log: Sequence<Logged>,
    /// The indices of the boot's objects, by serial.
    pub first: Sequence<Written>,
    /// Those of the objects that entries made.
    pub given: Sequence<Written>,
    /// The capability words that entries set.
    pub caps: Sequence<SlotWritten>,
    /// The counts of reference words, by index.
    pub counts: Sequence<Written>,
    pub dead: Sequence<Marked>,
    /// The counters of read sections, by CPU.
    pub counters: Sequence<Written>,
    pub turn: Option<Turn>,
    /// The CPUs, by number.
    pub seats: Sequence<Seat>,
}

fn copy_of_boot(alloc: Global, boot: &Boot) -> Result<Boot, NoMemory>
    ensures { IfOk result (λ copy. copy ≡ boot.now) }
{
    let lines = Vec::from_slice(alloc, boot.lines())?;
    Ok(Boot::new(lines))
}

fn copy_of_turn(alloc: Global, turn: &Option<Turn>) -> Result<Option<Turn>, NoMemory>
    ensures { IfOk result (λ copy. copy ≡ turn.now) }
{
    match turn {
        None => Ok(None),
        Some(turn) => Ok(Some(turn.copied(alloc)?)),
    }
}

fn copies_of_seats(alloc: Global, seats: &[Seat]) -> Result<Sequence<Seat>, NoMemory>
    ensures { IfOk result (λ copy. copy ≡ seats.now) }
{
    let mut copy = Sequence::with_room(alloc, seats.len())?;
    for seat in seats {
        copy.push(seat.copied(alloc)?)?;
    }
    Ok(copy)
}

impl Running {
    pub(crate) fn copied(&self, alloc: Global) -> Result<Running, NoMemory>
        ensures { IfOk result (λ copy. copy ≡ self.now) }
    {
        let boot = copy_of_boot(alloc, &self.boot)?;
        let log = copy_of_log(alloc, self.log.as_slice())?;
        let turn = copy_of_turn(alloc, &self.turn)?;
        let seats = copies_of_seats(alloc, self.seats.as_slice())?;
        Ok(Running {
            boot,
            log,
            first: Sequence::from_slice(alloc, self.first.as_slice())?,
            given: Sequence::from_slice(alloc, self.given.as_slice())?,
            caps: Sequence::from_slice(alloc, self.caps.as_slice())?,
            counts: Sequence::from_slice(alloc, self.counts.as_slice())?,
            dead: Sequence::from_slice(alloc, self.dead.as_slice())?,
            counters: Sequence::from_slice(alloc, self.counters.as_slice())?,
            turn,
            seats,
        })
    }
}

impl Running {
    /// What a CPU keeps.
    pub(crate) fn seat(&self, cpu: CpuNo) -> &Seat
        requires kept { IsKept self.now }
        requires within { cpu.0 < CPUS }
        ensures { (stands_for self.now).cpu cpu.0 ≡ cpu_of result.now }
    {
        &self.seats.as_slice()[cpu.0 as usize]
    }

    pub(crate) fn put_seat(&mut self, cpu: CpuNo, seat: Seat)
        requires kept { IsKept self.old }
        requires within { cpu.0 < CPUS }
        ensures put { stands_for self.new ≡ with_cpu (stands_for self.old) cpu.0 (cpu_of seat) }
        ensures kept { IsKept self.new }
    {
        self.seats.set(cpu.0 as usize, seat);
    }

    pub(crate) fn put_counter(&mut self, cpu: CpuNo, value: u64) -> Result<(), NoMemory>
        ensures put { OnOk result
            (stands_for self.new ≡ with_counter (stands_for self.old) cpu.0 value) }
        ensures kept { IsKept self.old → OnOk result (IsKept self.new) }
    {
        let at = cpu.0 as u64;
        self.counters.push(Written { at, value })
    }

    pub(crate) fn put_count(&mut self, at: u64, value: u64) -> Result<(), NoMemory>
        ensures put { OnOk result
            (stands_for self.new ≡ with_count (stands_for self.old) at value) }
        ensures kept { IsKept self.old → OnOk result (IsKept self.new) }
    {
        self.counts.push(Written { at, value })
    }

    pub(crate) fn put_mark(&mut self, at: u64, dead: bool) -> Result<(), NoMemory>
        ensures put { OnOk result
            (stands_for self.new ≡ with_mark (stands_for self.old) at dead) }
        ensures kept { IsKept self.old → OnOk result (IsKept self.new) }
    {
        self.dead.push(Marked { at, dead })
    }

    pub(crate) fn put_turn(&mut self, turn: Option<Turn>)
        ensures put { stands_for self.new
            ≡ with_holder (stands_for self.old) (option_map holder_of turn) }
        ensures kept { IsKept self.old → IsKept self.new }
    {
        self.turn = turn;
    }
}

/// A configuration of the machine.
#[derive(Drop)]
pub struct Config {
    running: Running,
}

impl Model for Config {
    ghost use Rattle.gh_core.specs.Running.{IsKept};
    ghost use Rattle.gh_core.specs.declared.config.Running.{Running};

    ghost Value = { Running };

    ghost view = { λ config. config.running };

    ghost invariant = { λ config. IsKept config.running };
}

impl Config {
    /// The configuration before any event. Each partition's objects have the indices of a block.
    pub fn boot(alloc: Global, boot: &Boot) -> Result<Config, NoMemory>
        ensures { IfOk result (λ config. stands_for config ≡ booted boot.now) }
    {
        let _lines = boot.lines();
        let plain = Plain::boot(alloc, boot)?;
        let first = boot_indices(alloc, plain.state())?;
        let seats = new_seats(alloc)?;
        let boot = copy_of_boot(alloc, boot)?;
        let running = Running {
            boot,
            log: Sequence::new(alloc),
            first,
            given: Sequence::new(alloc),
            caps: Sequence::new(alloc),
            counts: Sequence::new(alloc),
            dead: Sequence::new(alloc),
            counters: Sequence::new(alloc),
            turn: None,
            seats,
        };
        Ok(Config { running })
    }

    /// The tables.
    pub(crate) fn running(&self) -> &Running
        ensures same { result.now ≡ self.now }
        ensures kept { IsKept result.now }
    {
        &self.running
    }

    /// The configuration of these tables.
    pub(crate) fn of(running: Running) -> Config
        requires { IsKept running }
        ensures { result ≡ running }
    {
        Config { running }
    }

    /// The CPU's next call is this one; where its frame is refused, the call is finished at once.
    pub fn give(
        &mut self,
        alloc: Global,
        cpu: CpuNo,
        number: u32,
        frame: &Frame,
    ) -> Result<(), NoMemory>
        requires { MayGive (stands_for self.old) cpu.0 number }
        ensures given { OnOk result
            (stands_for self.new ≡ given (stands_for self.old) cpu.0 number frame.now) }
        ensures no_memory { OnErr result (self.new ≡ self.old) }
    {
        let _lines = self.running.boot.lines();
        let seat = given_seat(alloc, self.running.seat(cpu), cpu, number, frame)?;
        self.running.put_seat(cpu, seat);
        Ok(())
    }
}
