//! What users of a configuration read of it.

ghost use Rattle.std.specs.Prelude.{◌≡◌, ◌<◌, false, map, true, IfOk};
ghost use Rattle.gh_base.specs.declared.limits.TheConstants.{CPUS};
ghost use Rattle.gh_core.specs.Running.{event_of, made_of, stands_for};
ghost use Rattle.gh_events.specs.Config.{present as present_of};
ghost use Rattle.gh_events.specs.Start.{MayGive};

use crate::config::Config;
use crate::current::MadeCall;
use crate::giving::gives;
use crate::indices::index_of;
use crate::log::Logged;
use crate::reads::{cap, count, counter, is_dead, present};
use gh_base::{CapWord, CpuNo, NoMemory, ObjIndex, Serial};
use gh_model::Plain;
use std::alloc::Global;

impl Config {
    /// The present state. It is made anew from the history.
    pub fn present(&self, alloc: Global) -> Result<Plain, NoMemory>
        ensures { IfOk result (λ plain. plain ≡ present_of (stands_for self.now)) }
    {
        present(alloc, self.running())
    }

    /// The history, oldest entry first.
    pub fn history(&self) -> &[Logged]
        ensures { map event_of result.now ≡ (stands_for self.now).history }
    {
        self.running().log.as_slice()
    }

    /// The finished calls of a CPU, oldest first.
    pub fn made(&self, cpu: CpuNo) -> &[MadeCall]
        requires { cpu.0 < CPUS }
        ensures { map made_of result.now ≡ ((stands_for self.now).cpu cpu.0).made }
    {
        self.running().seat(cpu).made.as_slice()
    }

    /// The index of an object; 0 of one that was never made.
    pub fn index(&self, serial: Serial) -> u64
        ensures { result ≡ (stands_for self.now).index serial.0 }
    {
        let tables = self.running();
        index_of(tables.first.as_slice(), tables.given.as_slice(), serial)
    }

    /// The word of a slot, by the index of its capability space.
    pub fn cap(&self, alloc: Global, space: ObjIndex, slot: u8) -> Result<CapWord, NoMemory>
        ensures { IfOk result (λ word. word ≡ (stands_for self.now).cap space.0 slot) }
    {
        let tables = self.running();
        let boot = Plain::boot(alloc, &tables.boot)?;
        Ok(cap(tables, boot.state(), space.0 as u64, slot as u64))
    }

    /// The count of a reference word.
    pub fn count(&self, alloc: Global, object: ObjIndex) -> Result<u64, NoMemory>
        ensures { IfOk result (λ count. count ≡ (stands_for self.now).count object.0) }
    {
        let tables = self.running();
        let boot = Plain::boot(alloc, &tables.boot)?;
        count(tables, boot.state(), object.0 as u64)
    }

    /// Whether a reference word is dead.
    pub fn is_dead(&self, alloc: Global, object: ObjIndex) -> Result<bool, NoMemory>
        ensures { IfOk result (λ dead. dead ≡ (stands_for self.now).dead object.0) }
    {
        let tables = self.running();
        let boot = Plain::boot(alloc, &tables.boot)?;
        Ok(is_dead(tables, boot.state(), object.0 as u64))
    }

    /// A CPU's counter of read sections.
    pub fn counter(&self, cpu: CpuNo) -> u64
        ensures { result ≡ (stands_for self.now).counter cpu.0 }
    {
        counter(self.running(), cpu)
    }

    /// Whether the CPU may be given a call with this number.
    pub fn may_give(&self, alloc: Global, cpu: CpuNo, number: u32) -> Result<bool, NoMemory>
        ensures may { IfOk result (λ may. may ≡ true
            → MayGive (stands_for self.now) cpu.0 number) }
        ensures no { IfOk result (λ may. may ≡ false
            → MayGive (stands_for self.now) cpu.0 number → ⊥) }
    {
        let tables = self.running();
        let _lines = tables.boot.lines();
        gives(alloc, tables, cpu, number)
    }
}
