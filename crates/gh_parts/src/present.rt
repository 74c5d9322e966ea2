//! What the state has: the boot file, the log and the parts.

ghost use Rattle.std.specs.Prelude.{◌≡◌, ◌<◌, ◌&&◌, true, OnErr, OnOk, find, length};
ghost use Rattle.std.specs.Prelude.{if◌then◌else◌};
ghost use Rattle.std.specs.List.{list_any};
ghost use Rattle.gh_model.specs.Act.{counted};
ghost use Rattle.gh_model.specs.Changes.{changed_all};
ghost use Rattle.gh_model.specs.History.{is_retired, is_unretired, may_part, parted, reclaimed};
ghost use Rattle.gh_model.specs.History.{retired};
ghost use Rattle.gh_model.specs.References.{is_doomed};
ghost use Rattle.gh_model.specs.Rows.{fills, object_row};
ghost use Rattle.gh_model.specs.declared.entry.Entry.TheVariants.{Reclaimed, Retired};
ghost use Rattle.gh_model.specs.declared.state.State.{State as AllRows};
ghost use Rattle.gh_parts.specs.Entries.{other_logged, with_logged};
ghost use Rattle.gh_parts.specs.EntryMaking.{AwaitsEntry};
ghost use Rattle.gh_parts.specs.MakingAll.{CanMakeAll, wants_memory, wants_once};
ghost use Rattle.gh_parts.specs.Stands.{Stands};

use crate::journal::TAKEN_SLOTS;
use crate::log::{Log, Logged};
use crate::parts::Parts;
use gh_base::{BoundedSequence, Call, Counters, NoMemory, Sequence, Serial};
use gh_model::{Boot, Change, Entry};
use std::alloc::Global;

/// The boot file, the log, and the parts that they make.
#[derive(Drop)]
pub struct Present {
    pub boot: Boot,
    pub log: Log,
    pub parts: Parts,
}

/// An entry that is no act and no part of a revoke. It takes no memory.
fn other_logged(alloc: Global, entry: Entry) -> Logged
    ensures { result ≡ other_logged entry }
{
    Logged {
        entry,
        call: Call::Identify,
        bytes: Sequence::new(alloc),
        words: BoundedSequence::new(),
    }
}

impl Present {
    /// The act of a call, with the changes that it comes to. Without memory the parts stand for the
    /// rows as before, and the log stays.
    pub(crate) fn act(
        &mut self,
        alloc: Global,
        logged: Logged,
        changes: &[Change],
    ) -> Result<(), NoMemory>
        ghost s: { AllRows }
        requires can { CanMakeAll self.old.parts s changes.now }
        requires once { wants_once changes.now ≡ true }
        requires room { 0 < self.old.log.room }
        ensures boot { self.new.boot ≡ self.old.boot }
        ensures log { OnOk result (self.new.log ≡ with_logged logged self.old.log) }
        ensures parts { OnOk result (Stands self.new.parts (counted (changed_all s changes.now))) }
        ensures memory { OnErr result (list_any wants_memory changes.now ≡ true) }

        // Where memory is wanting:
        ensures same { OnErr result (self.new.log ≡ self.old.log) }
        ensures back { OnErr result (Stands self.new.parts s) }
    {
        self.parts.act(alloc, changes)?;
        self.log.push(logged);
        Ok(())
    }

    /// A part of a revoke. It takes no memory.
    pub(crate) fn part(&mut self, logged: Logged, cspace: Serial, slot: u8)
        ghost s: { AllRows }
        requires awaits { AwaitsEntry self.old.parts s }
        requires may { may_part (find (fills cspace.0 slot) s.caps) ≡ true }
        requires taken { length s.taken < TAKEN_SLOTS }
        requires room { 0 < self.old.log.room }
        ensures boot { self.new.boot ≡ self.old.boot }
        ensures log { self.new.log ≡ with_logged logged self.old.log }
        ensures parts { Stands self.new.parts (parted s cspace slot) }
    {
        self.parts.take_part(cspace, slot);
        self.log.push(logged);
    }

    /// The retirement of an object to which nothing refers. False where something does, or it is
    /// retired; then nothing changes.
    pub(crate) fn retire(&mut self, alloc: Global, serial: Serial, seen: Counters) -> bool
        ghost s: { AllRows }
        requires awaits { AwaitsEntry self.old.parts s }
        requires room { 0 < self.old.log.room }
        ensures may { result ≡ (is_doomed s serial.0 && is_unretired (object_row s serial.0)) }
        ensures boot { self.new.boot ≡ self.old.boot }
        ensures log { self.new.log ≡ (if result
            then with_logged (other_logged (Retired serial seen)) self.old.log else self.old.log) }
        ensures parts { Stands self.new.parts (if result then retired s serial seen else s) }
    {
        let may = self.parts.retire_doomed(serial, seen);
        if may {
            self.log
                .push(other_logged(alloc, Entry::Retired { serial, seen }));
        }
        may
    }

    /// The reclaim of a retired object to which nothing refers. False where something does, or it
    /// isn't retired; then nothing changes.
    pub(crate) fn reclaim(&mut self, alloc: Global, serial: Serial, seen: Counters) -> bool
        ghost s: { AllRows }
        requires awaits { AwaitsEntry self.old.parts s }
        requires room { 0 < self.old.log.room }
        ensures may { result ≡ (is_doomed s serial.0 && is_retired (object_row s serial.0)) }
        ensures boot { self.new.boot ≡ self.old.boot }
        ensures log { self.new.log ≡ (if result
            then with_logged (other_logged (Reclaimed serial seen)) self.old.log
            else self.old.log) }
        ensures parts { Stands self.new.parts (if result then reclaimed s serial else s) }
    {
        let may = self.parts.reclaim_retired(serial);
        if may {
            self.log
                .push(other_logged(alloc, Entry::Reclaimed { serial, seen }));
        }
        may
    }
}
