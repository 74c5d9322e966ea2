//! A grace period over the counters of all CPUs.

ghost use Rattle.std.specs.Prelude.{◌≡◌, ◌↔◌, ◌<◌, IsTrue, IfSome};
ghost use Rattle.std.specs.Prelude.{Some, None, position, is_some, slice_get};
ghost use Rattle.std.specs.Option.{option_map};
ghost use Rattle.gh_rcu.specs.Grace.{awaited as awaited_lem, still_awaited as still_awaited_lem};

use gh_base::{CPUS, Counters, CpuNo, is_reading};
use std::marker::Model;

/// What is left to wait for: of each CPU that was in a read section at the start the counter that
/// it had there, until a greater one is noted.
#[derive(Clone, Copy, Debug, PartialEq, Eq)]
pub struct Grace {
    waiting: [Option<u64>; CPUS],
}

impl Model for Grace {
    ghost use Rattle.std.specs.Prelude.{◌≡◌, List, ℕ, Option, length};
    ghost use Rattle.gh_base.specs.declared.limits.TheConstants.{CPUS};

    ghost Value = { List (Option ℕ) };

    ghost view = { λ g. g.waiting };

    ghost invariant = { λ g. length g.waiting ≡ CPUS };

    ghost inverse = { λ waiting. record { waiting = waiting } };
}

/// What is waited for of a CPU with this counter at the start.
fn awaited(counter: u64) -> Option<u64>
    ensures { result ≡ awaited_lem counter }
{
    is_reading(counter).then_some(counter)
}

/// What is still waited for of a CPU once its counter is seen.
fn still_awaited(waited: Option<u64>, counter: u64) -> Option<u64>
    ensures { result ≡ still_awaited_lem waited counter }
{
    waited.filter(|kept| counter <= *kept)
}

/// The number of the first CPU that is waited for.
fn first_waited(waiting: &[Option<u64>]) -> Option<usize>
    ensures { result ≡ position is_some waiting.now }
{
    waiting.iter().position(|waited| waited.is_some())
}

impl Grace {
    ghost use Rattle.gh_rcu.specs.Grace.{started, noted, all_noted, has_passed};

    /// The grace period that starts with these counters: it waits for the odd ones.
    pub fn start(seen: Counters) -> Grace
        ensures { result ≡ started seen }
    {
        let mut waiting = [None; CPUS];
        for (cpu, counter) in seen.iter().enumerate() {
            waiting[cpu] = awaited(*counter);
        }
        Grace { waiting }
    }

    /// Takes note of a CPU's counter, and waits no more for the CPU if it is greater than the one
    /// kept. A number above 8 is no CPU's and changes nothing.
    pub fn note(&mut self, cpu: CpuNo, counter: u64)
        ensures { self.new ≡ noted self.old cpu.0 counter }
    {
        let place = cpu.0 as usize;
        if place < self.waiting.len() {
            self.waiting[place] = still_awaited(self.waiting[place], counter);
        }
    }

    /// Takes note of the counters of all CPUs.
    pub fn note_all(&mut self, now: &Counters)
        ensures { self.new ≡ all_noted self.old now.now }
    {
        for (cpu, counter) in now.iter().enumerate() {
            self.waiting[cpu] = still_awaited(self.waiting[cpu], *counter);
        }
    }

    /// Whether no CPU is waited for.
    pub fn passed(&self) -> bool
        ensures { result ≡ has_passed self.now }
    {
        self.waiting.iter().all(|waited| waited.is_none())
    }

    /// The first CPU that is waited for, with its counter; none where the grace period has passed.
    #[tactic(auto, using(crate::proofs::GraceLemmas::passed_without_reader, crate::proofs::GraceLemmas::found_at))]
    pub fn reader(&self) -> Option<(CpuNo, u64)>
        ensures first { option_map (λ r. r.0.0) result ≡ position is_some self.now }
        ensures number { IfSome result (λ r. r.0.0 < CPUS) }
        ensures counter { IfSome result (λ r. slice_get self.now r.0.0 ≡ Some (Some r.1)) }
        ensures none { (result ≡ None) ↔ IsTrue (has_passed self.now) }
    {
        let cpu = first_waited(&self.waiting)?;
        let counter = self.waiting[cpu]?;
        Some((CpuNo(cpu as u8), counter))
    }
}
