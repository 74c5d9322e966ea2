//! Entries of calls, made on the ledger.

ghost use Rattle.std.specs.Prelude.{◌≡◌, ◌<◌, true, OnErr, OnOk};
ghost use Rattle.std.specs.List.{list_any};
ghost use Rattle.gh_base.specs.declared.limits.TheConstants.{HISTORY_ENTRIES};
ghost use Rattle.gh_parts.specs.Acts.{IsActOf, IsPartOf};
ghost use Rattle.gh_parts.specs.MakingAll.{wants_memory};
ghost use Rattle.gh_parts.specs.Past.{event_of, rows_of, with_event};

use crate::ledger::Ledger;
use crate::log::Logged;
use gh_base::{NoMemory, Serial};
use gh_model::Change;
use std::alloc::Global;

impl Ledger {
    /// The act of a call, with the changes that it comes to, as an entry of the history. Changes
    /// that want no memory find it; without it nothing changes.
    pub fn act(&mut self, alloc: Global, logged: Logged, changes: &[Change]) -> Result<(), NoMemory>
        requires act { IsActOf (rows_of self.old) logged changes.now }
        requires entries { (rows_of self.old).entries < HISTORY_ENTRIES }
        requires room { 0 < self.old.room }
        ensures ok { OnOk result (self.new ≡ with_event (event_of logged) self.old) }
        ensures err { OnErr result (self.new ≡ self.old) }
        ensures memory { OnErr result (list_any wants_memory changes.now ≡ true) }
    {
        self.present.act(alloc, logged, changes)
    }

    /// A part of a revoke: the capability of a slot is revoked, as an entry of the history. It
    /// takes no memory.
    pub fn part(&mut self, logged: Logged, cspace: Serial, slot: u8)
        requires part { IsPartOf (rows_of self.old) logged cspace slot }
        requires entries { (rows_of self.old).entries < HISTORY_ENTRIES }
        requires room { 0 < self.old.room }
        ensures { self.new ≡ with_event (event_of logged) self.old }
    {
        self.present.part(logged, cspace, slot)
    }
}
