//! Changes of the state, made on the parts in order.

ghost use Rattle.std.specs.Prelude.{◌≡◌, false, true, IfSome, IsSomeAnd, OnErr, OnOk, slice_get};
ghost use Rattle.std.specs.List.{list_any};
ghost use Rattle.gh_invariant.specs.Valid.{IsValidWithin};
ghost use Rattle.gh_model.specs.Changes.{changed, changed_all};
ghost use Rattle.gh_model.specs.declared.state.State.{State};
ghost use Rattle.gh_parts.specs.MakingAll.{CanMakeAll, IsMakeable, MadeBefore, stepped};
ghost use Rattle.gh_parts.specs.MakingAll.{restored, stage_before, wants_memory, wants_once};
ghost use Rattle.gh_parts.specs.Reading.{IsReadable};
ghost use Rattle.gh_parts.specs.Stands.{Stands};

use crate::parts::Parts;
use gh_base::{NoMemory, Stage};
use gh_model::Change;
use std::alloc::Global;

impl Parts {
    /// A change that takes no memory.
    fn make_free(&mut self, change: &Change)
        ghost s: { State }
        requires makeable { IsMakeable self.old s change.now }
        requires free { wants_memory change.now ≡ false }
        ensures { Stands self.new (changed s change.now) }
    {
        match change {
            Change::PutCapability { row } => self.put_capability(*row),
            Change::DropCapability { cspace, slot } => self.drop_capability(*cspace, *slot),
            Change::RevokeCapability { cspace, slot } => self.revoke_capability(*cspace, *slot),
            Change::FillSlot { row } => self.fill_slot(*row),
            Change::SetStage { object, stage } => self.set_stage(*object, *stage),
            Change::Retire { object, seen } => self.retire(*object, *seen),
            Change::Reclaim { object } => self.reclaim(*object),
            Change::GiveQuota { partition, quota } => self.give_quota(*partition, *quota),
            Change::SetPages { count } => self.set_pages(*count),
            Change::MovePages {
                first,
                count,
                holder,
            } => self.move_pages(*first, *count, *holder),
            Change::DropMapping { row } => self.drop_mapping(*row),
            Change::SetBell { row } => self.set_bell(*row),
            Change::PutMessage { queue, message } => self.put_message(*queue, message.as_slice()),
            Change::DropMessage { queue } => self.drop_message(*queue),
            Change::EmptyQueue { queue } => self.empty_queue(*queue),
            Change::Exit { cpu } => self.exit(*cpu),
            Change::Ring => self.ring(),
            _ => unreachable!(),
        }
    }

    /// A change. Without memory the parts stay as they were.
    pub fn make(&mut self, alloc: Global, change: &Change) -> Result<(), NoMemory>
        ghost s: { State }
        requires { IsMakeable self.old s change.now }
        ensures ok { OnOk result (Stands self.new (changed s change.now)) }
        ensures err { OnErr result (self.new ≡ self.old) }
        ensures memory { OnErr result (wants_memory change.now ≡ true) }
    {
        match change {
            Change::AddObject { row } => self.add_object(alloc, *row),
            Change::AddPartition { quota } => self.add_partition(*quota),
            Change::AddRoot { row } => self.add_root(alloc, *row),
            Change::AddExtent { row } => self.add_extent(*row),
            Change::PutMapping { row } => self.put_mapping(*row),
            Change::SetRoom { queue, depth, size } => self.set_room(alloc, *queue, *depth, *size),
            Change::ConfigureQueue {
                queue,
                depth,
                size,
                cost,
            } => self.configure_queue(alloc, *queue, *depth, *size, *cost),
            Change::AddCpu { row } => self.add_cpu(*row),
            Change::AddLink { row } => self.add_link(*row),
            other => {
                self.make_free(other);
                Ok(())
            }
        }
    }

    /// The change at a place of a list, if there is one. Without memory the parts stay the same.
    fn make_at(&mut self, alloc: Global, changes: &[Change], at: usize) -> Result<(), NoMemory>
        ghost s: { State }
        requires stands { Stands self.old s }
        requires makeable { IfSome (slice_get changes.now at) (IsMakeable self.old s) }
        ensures ok { OnOk result (Stands self.new (stepped changed s (slice_get changes.now at))) }
        ensures err { OnErr result (self.new ≡ self.old) }
        ensures memory { OnErr result
            (IsSomeAnd (slice_get changes.now at) (λ change. wants_memory change ≡ true)) }
    {
        match changes.get(at) {
            None => Ok(()),
            Some(change) => self.make(alloc, change),
        }
    }

    /// Changes in order. Without memory those before one that wants it are made.
    pub fn make_each(&mut self, alloc: Global, changes: &[Change]) -> Result<(), NoMemory>
        ghost s: { State }
        requires { CanMakeAll self.old s changes.now }
        ensures ok { OnOk result (Stands self.new (changed_all s changes.now)) }
        ensures err { OnErr result (MadeBefore self.new s changes.now) }
    {
        for at in 0..changes.len() {
            self.make_at(alloc, changes, at)?;
        }
        Ok(())
    }

    /// The stage that the object of a change of stage has now, if one comes first.
    fn stage_before(&self, changes: &[Change]) -> Option<Stage>
        requires { IsReadable self.now }
        ensures { (s : State) → Stands self.now s → IsValidWithin s
            → result ≡ stage_before s changes.now }
    {
        match changes.first() {
            Some(Change::SetStage { object, .. }) => {
                let row = self.object(*object)?;
                Some(row.stage)
            }
            _ => None,
        }
    }

    /// The object of a change of stage comes back to a stage, if one comes first.
    fn restore(&mut self, changes: &[Change], stage: Option<Stage>)
        ghost s: { State }
        requires { Stands self.old s }
        ensures { Stands self.new (restored s changes.now stage) }
    {
        if let (Some(Change::SetStage { object, .. }), Some(stage)) = (changes.first(), stage) {
            self.set_stage(*object, stage);
        }
    }

    /// Changes in order, of which only one wants memory: the first, or the one behind a change of
    /// stage. Without it the parts stand for the rows as before.
    pub fn make_all(&mut self, alloc: Global, changes: &[Change]) -> Result<(), NoMemory>
        ghost s: { State }
        requires can { CanMakeAll self.old s changes.now }
        requires once { wants_once changes.now ≡ true }
        ensures ok { OnOk result (Stands self.new (changed_all s changes.now)) }
        ensures err { OnErr result (Stands self.new s) }
        ensures memory { OnErr result (list_any wants_memory changes.now ≡ true) }
    {
        let before = self.stage_before(changes);
        let made = self.make_each(alloc, changes);
        if made.is_err() {
            self.restore(changes, before);
        }
        made
    }
}
