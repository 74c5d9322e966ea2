//! Entries of the history that are no acts, made on the parts.

ghost use Rattle.std.specs.Prelude.{◌≡◌, ◌<◌, ◌&&◌, [], true, OnErr, OnOk, find, if◌then◌else◌};
ghost use Rattle.std.specs.Prelude.{length};
ghost use Rattle.std.specs.List.{list_any};
ghost use Rattle.gh_model.specs.Act.{counted};
ghost use Rattle.gh_model.specs.Changes.{changed_all};
ghost use Rattle.gh_model.specs.History.{is_retired as is_retired_of};
ghost use Rattle.gh_model.specs.History.{is_unretired as is_unretired_of};
ghost use Rattle.gh_model.specs.History.{may_part, numbered, parted, reclaimed, retired, took};
ghost use Rattle.gh_model.specs.References.{is_doomed};
ghost use Rattle.gh_model.specs.Rows.{fills, object_row};
ghost use Rattle.gh_model.specs.declared.state.State.{State};
ghost use Rattle.gh_parts.specs.EntryMaking.{AwaitsEntry};
ghost use Rattle.gh_parts.specs.MakingAll.{CanMakeAll, wants_memory, wants_once};
ghost use Rattle.gh_parts.specs.Stands.{Stands};

use crate::journal::TAKEN_SLOTS;
use crate::parts::Parts;
use crate::reserved::Reserved;
use gh_base::{Counters, NoMemory, Serial};
use gh_model::{Change, ObjectRow, TakenSlot};
use std::alloc::Global;

/// No slot is taken any more.
fn clear(taken: &mut Reserved<TakenSlot, TAKEN_SLOTS>)
    ensures { taken.new ≡ [] }
{
    while let Some(_) = taken.pop() {}
}

/// Whether it is the row of a retired object.
fn is_retired(row: Option<ObjectRow>) -> bool
    ensures { result ≡ is_retired_of row }
{
    match row {
        None => false,
        Some(row) => row.retired.is_some(),
    }
}

/// Whether it is the row of an object that isn't retired.
fn is_unretired(row: Option<ObjectRow>) -> bool
    ensures { result ≡ is_unretired_of row }
{
    match row {
        None => false,
        Some(row) => row.retired.is_none(),
    }
}

impl Parts {
    /// Counts an entry, behind which no slot is taken.
    fn count(&mut self)
        requires { self.old.journal.entries < u32.MAX }
        ensures { (s : State) → Stands self.old s → Stands self.new (counted s) }
    {
        self.journal.entries += 1;
        clear(&mut self.journal.taken);
    }

    /// Counts an entry that takes a slot beside those before it.
    fn count_taken(&mut self, cspace: Serial, slot: u8)
        requires entries { self.old.journal.entries < u32.MAX }
        requires room { length self.old.journal.taken < TAKEN_SLOTS }
        ensures { (s : State) → Stands self.old s
            → Stands self.new (numbered (took s cspace slot)) }
    {
        self.journal.entries += 1;
        self.journal.taken.push(TakenSlot { cspace, slot });
    }

    /// The changes of an act, as an entry. Without memory the parts stand for the rows as before.
    pub fn act(&mut self, alloc: Global, changes: &[Change]) -> Result<(), NoMemory>
        ghost s: { State }
        requires can { CanMakeAll self.old s changes.now }
        requires once { wants_once changes.now ≡ true }
        ensures ok { OnOk result (Stands self.new (counted (changed_all s changes.now))) }
        ensures err { OnErr result (Stands self.new s) }
        ensures memory { OnErr result (list_any wants_memory changes.now ≡ true) }
    {
        self.make_all(alloc, changes)?;
        self.count();
        Ok(())
    }

    /// A part of a revoke: the capability of a slot is revoked, as an entry. It takes no memory.
    pub fn take_part(&mut self, cspace: Serial, slot: u8)
        ghost s: { State }
        requires awaits { AwaitsEntry self.old s }
        requires may { may_part (find (fills cspace.0 slot) s.caps) ≡ true }
        requires room { length s.taken < TAKEN_SLOTS }
        ensures { Stands self.new (parted s cspace slot) }
    {
        self.revoke_capability(cspace, slot);
        self.count_taken(cspace, slot);
    }

    /// Retires an object to which nothing refers, as an entry. False where something does, or it is
    /// retired; then nothing changes.
    pub fn retire_doomed(&mut self, serial: Serial, seen: Counters) -> bool
        ghost s: { State }
        requires { AwaitsEntry self.old s }
        ensures may { result ≡ (is_doomed s serial.0 && is_unretired_of (object_row s serial.0)) }
        ensures made { Stands self.new (if result then retired s serial seen else s) }
    {
        let may = self.doomed(serial) && is_unretired(self.object(serial));
        if may {
            self.retire(serial, seen);
            self.count();
        }
        may
    }

    /// Reclaims a retired object to which nothing refers, as an entry. False where something does,
    /// or it isn't retired; then nothing changes.
    pub fn reclaim_retired(&mut self, serial: Serial) -> bool
        ghost s: { State }
        requires { AwaitsEntry self.old s }
        ensures may { result ≡ (is_doomed s serial.0 && is_retired_of (object_row s serial.0)) }
        ensures made { Stands self.new (if result then reclaimed s serial else s) }
    {
        let may = self.doomed(serial) && is_retired(self.object(serial));
        if may {
            self.reclaim(serial);
            self.count();
        }
        may
    }
}
