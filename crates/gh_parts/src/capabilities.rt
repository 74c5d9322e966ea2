//! Changes of slots.

ghost use Rattle.std.specs.Prelude.{◌≡◌, ◌<◌, ◌≤◌, IfSome};
ghost use Rattle.gh_base.specs.declared.kind.Kind.{Kind};
ghost use Rattle.gh_cspace.specs.Cspace.{IsFreeSlot};
ghost use Rattle.gh_model.specs.Changes.{drop_capability, fill_slot, put_capability};
ghost use Rattle.gh_model.specs.Changes.{revoke_capability};
ghost use Rattle.gh_model.specs.declared.change.Change.TheVariants.{DropCapability, FillSlot};
ghost use Rattle.gh_model.specs.declared.change.Change.TheVariants.{PutCapability};
ghost use Rattle.gh_model.specs.declared.change.Change.TheVariants.{RevokeCapability};
ghost use Rattle.gh_model.specs.declared.state.State.{State};
ghost use Rattle.gh_parts.specs.Index.{AreIndexed, index_of};
ghost use Rattle.gh_parts.specs.Making.{CanMake};
ghost use Rattle.gh_parts.specs.Owing.{HasCount, settled};
ghost use Rattle.gh_parts.specs.SlotChanges.{with_filled, with_slots};
ghost use Rattle.gh_parts.specs.Slots.{IsFilledSlot, emptied, revoked, words_of};
ghost use Rattle.gh_parts.specs.Stands.{Stands};

use crate::parts::Parts;
use crate::slots::{empty_slot, granted, put_word, revoke_slot, set_at};
use gh_base::{CapWord, OBJECT_INDICES, Serial};
use gh_model::CapabilityRow;

impl Parts {
    /// Fills a free slot with the capability of a row, set by an entry.
    fn fill(&mut self, row: CapabilityRow, entry: u32)
        requires indexed { AreIndexed self.old.table.headers }
        requires lives { index_of self.old.table.headers row.serial.0 < OBJECT_INDICES }
        requires free { IsFreeSlot (words_of self.old.journal.slots row.cspace.0) row.slot }
        ensures { self.new ≡ with_filled row entry self.old }
    {
        if let Some(object) = self.index(row.serial) {
            let word = CapWord::filled(row.valid, row.kind, row.master, object, row.rights, entry);
            put_word(
                &mut self.journal.slots,
                row.cspace,
                row.slot,
                word,
                row.serial,
            );
        }
    }

    /// A free slot is filled.
    pub fn put_capability(&mut self, row: CapabilityRow)
        ghost s: { State }
        requires { CanMake self.old s (PutCapability row) }
        ensures { Stands self.new (put_capability row s) }
    {
        self.owe(row.serial);
        self.owe(row.cspace);
        let entry = self.journal.entries + 1;
        self.fill(row, entry);
    }

    /// Empties a filled slot by an entry.
    fn empty(&mut self, cspace: Serial, slot: u8, entry: u32)
        requires { IsFilledSlot (words_of self.old.journal.slots cspace.0) slot }
        ensures { self.new ≡ with_slots cspace.0 (emptied slot entry) self.old }
    {
        empty_slot(&mut self.journal.slots, cspace, slot, entry);
    }

    /// Revokes the capability in a filled slot by an entry.
    fn revoke(&mut self, cspace: Serial, slot: u8, entry: u32)
        requires { IsFilledSlot (words_of self.old.journal.slots cspace.0) slot }
        ensures { self.new ≡ with_slots cspace.0 (revoked slot entry) self.old }
    {
        revoke_slot(&mut self.journal.slots, cspace, slot, entry);
    }

    /// A free slot is filled before the first entry, and so its setting stays.
    pub fn fill_slot(&mut self, row: CapabilityRow)
        ghost s: { State }
        requires { CanMake self.old s (FillSlot row) }
        ensures { Stands self.new (fill_slot row s) }
    {
        self.owe(row.serial);
        self.owe(row.cspace);
        let entry = set_at(self.journal.slots.as_slice(), row.cspace, row.slot);
        self.fill(row, entry);
    }

    /// Counts a reference no more to an object that is named.
    pub(crate) fn settle_some(&mut self, object: Option<Serial>)
        requires { IfSome object (λ one. HasCount self.old one.0 (λ n. 1 ≤ n)) }
        ensures { self.new ≡ settled object self.old }
    {
        if let Some(object) = object {
            self.settle(object);
        }
    }

    /// A filled slot is emptied.
    pub fn drop_capability(&mut self, cspace: Serial, slot: u8)
        ghost s: { State }
        requires { CanMake self.old s (DropCapability cspace slot) }
        ensures { Stands self.new (drop_capability cspace slot s) }
    {
        let object = granted(self.journal.slots.as_slice(), cspace, slot);
        let entry = self.journal.entries + 1;
        self.empty(cspace, slot, entry);
        self.settle(cspace);
        self.settle_some(object);
    }

    /// A slot's capability is revoked, and stays in its slot.
    pub fn revoke_capability(&mut self, cspace: Serial, slot: u8)
        ghost s: { State }
        requires { CanMake self.old s (RevokeCapability cspace slot) }
        ensures { Stands self.new (revoke_capability cspace slot s) }
    {
        let object = granted(self.journal.slots.as_slice(), cspace, slot);
        let entry = self.journal.entries + 1;
        self.revoke(cspace, slot, entry);
        self.settle_some(object);
    }
}
