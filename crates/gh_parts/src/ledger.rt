//! The ledger: a boot file and a log, and the parts that they make.

ghost use Rattle.std.specs.Prelude.{◌≡◌, ◌<◌, ◌≤◌, ◌&&◌, IfOk, IsTrue, OnErr, OnOk};
ghost use Rattle.std.specs.Prelude.{if◌then◌else◌};
ghost use Rattle.gh_base.specs.declared.limits.TheConstants.{HISTORY_ENTRIES};
ghost use Rattle.gh_events.specs.Rising.{rises, serials_of};
ghost use Rattle.gh_invariant.specs.Valid.{IsValid, IsValidWithin};
ghost use Rattle.gh_model.specs.History.{is_retired, is_unretired};
ghost use Rattle.gh_model.specs.References.{is_doomed};
ghost use Rattle.gh_model.specs.Rows.{object_row};
ghost use Rattle.gh_model.specs.Small.{IsKept};
ghost use Rattle.gh_model.specs.declared.entry.Entry.TheVariants.{Reclaimed, Retired};
ghost use Rattle.gh_parts.specs.Entries.{other_logged};
ghost use Rattle.gh_parts.specs.Past.{begun, event_of, rows_of, with_event};
ghost use Rattle.gh_parts.specs.Reading.{IsReadable};
ghost use Rattle.gh_parts.specs.Stands.{Stands};

use crate::log::Log;
use crate::parts::Parts;
use crate::present::Present;
use gh_base::{ACT_ENTRIES, Counters, NoMemory, Serial};
use gh_model::Boot;
use std::alloc::Global;
use std::marker::Model;

/// The parts with the boot file and the log, which replays to what the parts stand for.
#[derive(Drop)]
pub struct Ledger {
    pub(crate) present: Present,
}

impl Model for Ledger {
    ghost use Rattle.gh_parts.specs.Past.{IsPresent, Past, past_of};

    ghost Value = { Past };

    ghost view = { λ s. past_of s.present.boot s.present.log };

    ghost invariant = { λ s. IsPresent (past_of s.present.boot s.present.log) s.present.parts };
}

/// A copy of a boot file.
fn copy_of_boot(alloc: Global, boot: &Boot) -> Result<Boot, NoMemory>
    ensures { IfOk result (λ copy. copy ≡ boot.now) }
{
    let lines = Vec::from_slice(alloc, boot.lines())?;
    Ok(Boot::new(lines))
}

impl Ledger {
    /// The ledger of a boot file, before any entry.
    pub fn boot(alloc: Global, boot: &Boot) -> Result<Ledger, NoMemory>
        ensures { IfOk result (λ ledger. ledger ≡ begun boot.now) }
    {
        let _lines = boot.lines();
        let parts = Parts::from_boot(alloc, boot)?;
        let boot = copy_of_boot(alloc, boot)?;
        let log = Log::new(alloc);
        Ok(Ledger {
            present: Present { boot, log, parts },
        })
    }

    /// Makes the log's room for the longest act.
    pub fn reserve(&mut self) -> Result<(), NoMemory>
        ensures past { self.new ≡ record self.old { room = self.new.room } }
        ensures room { OnOk result (ACT_ENTRIES ≤ self.new.room) }
        ensures err { OnErr result (self.new ≡ self.old) }
    {
        self.present.log.reserve(ACT_ENTRIES)
    }

    /// An object's retirement with the CPUs' counters, as an entry of the history. False where
    /// something refers to it, or it is retired; then nothing changes. It takes no memory.
    pub fn retire(&mut self, alloc: Global, serial: Serial, seen: Counters) -> bool
        requires entries { (rows_of self.old).entries < HISTORY_ENTRIES }
        requires room { 0 < self.old.room }
        ensures may { result ≡ (is_doomed (rows_of self.old) serial.0
            && is_unretired (object_row (rows_of self.old) serial.0)) }
        ensures made { self.new ≡ (if result
            then with_event (event_of (other_logged (Retired serial seen))) self.old
            else self.old) }
    {
        self.present.retire(alloc, serial, seen)
    }

    /// A retired object goes with all its rows, as an entry of the history with the CPUs' counters.
    /// False where something refers to it, or it isn't retired; then nothing changes. It takes no
    /// memory.
    pub fn reclaim(&mut self, alloc: Global, serial: Serial, seen: Counters) -> bool
        requires entries { (rows_of self.old).entries < HISTORY_ENTRIES }
        requires room { 0 < self.old.room }
        ensures may { result ≡ (is_doomed (rows_of self.old) serial.0
            && is_retired (object_row (rows_of self.old) serial.0)) }
        ensures made { self.new ≡ (if result
            then with_event (event_of (other_logged (Reclaimed serial seen))) self.old
            else self.old) }
    {
        self.present.reclaim(alloc, serial, seen)
    }

    /// The parts.
    pub(crate) fn parts(&self) -> &Parts
        ensures stands { Stands result.now (rows_of self.now) }
        ensures readable { IsReadable result.now }
        ensures valid { IsValid (rows_of self.now) }
        ensures within { IsValidWithin (rows_of self.now) }
        ensures kept { IsKept (rows_of self.now) }
        ensures rising { IsTrue (rises (serials_of (rows_of self.now).objects)) }
    {
        &self.present.parts
    }
}
