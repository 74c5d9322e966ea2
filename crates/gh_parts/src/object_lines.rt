//! The changes of boot lines that make an object.

ghost use Rattle.std.specs.Prelude.{◌≡◌, ◌≤◌, ◌∷◌, [], true, IfOk};
ghost use Rattle.gh_base.specs.declared.kind.Kind.TheVariants as kinds;
ghost use Rattle.gh_base.specs.declared.limits.TheConstants.{MESSAGE_BYTES, QUEUE_DEPTH};
ghost use Rattle.gh_model.specs.Boot.{boot_object as boot_object_of, changes_of_line, makes_object};
ghost use Rattle.gh_model.specs.Boot.{queue_cost, serial_of};
ghost use Rattle.gh_model.specs.declared.change.Change.TheVariants.{AddObject, SetRoom};
ghost use Rattle.gh_model.specs.declared.state.State.{State};
ghost use Rattle.gh_parts.specs.BootLines.{ComesNext};
ghost use Rattle.gh_parts.specs.Stands.{Stands};

use crate::parts::Parts;
use gh_base::{Kind, NoMemory, Sequence, Serial, Stage};
use gh_model::{BootLine, Change, ObjectRow, cost_of_queue};
use std::alloc::Global;

impl Parts {
    /// An active object of the next serial.
    pub(crate) fn boot_object(&self, kind: Kind, partition: Serial, cost: u16) -> ObjectRow
        ghost s: { State }
        requires { Stands self.now s }
        ensures { result ≡ boot_object_of s kind partition.0 cost }
    {
        ObjectRow {
            serial: Serial(self.journal.next_serial),
            kind,
            partition,
            stage: Stage::Active,
            cost,
            retired: None,
        }
    }

    /// An object without pages.
    fn new_object(
        &self,
        alloc: Global,
        kind: Kind,
        partition: Serial,
        cost: u16,
    ) -> Result<Sequence<Change>, NoMemory>
        ghost s: { State }
        requires { Stands self.now s }
        ensures { IfOk result (λ changes. changes
            ≡ AddObject (boot_object_of s kind partition.0 cost) ∷ []) }
    {
        let row = self.boot_object(kind, partition, cost);
        let changes = vec![in alloc; Change::AddObject { row }]?;
        Ok(Sequence::from_vec(changes))
    }

    /// A queue with its room.
    fn new_queue(
        &self,
        alloc: Global,
        partition: Serial,
        depth: u16,
        size: u16,
    ) -> Result<Sequence<Change>, NoMemory>
        ghost s: { State }
        requires stands { Stands self.now s }
        requires depth { depth ≤ QUEUE_DEPTH }
        requires size { size ≤ MESSAGE_BYTES }
        ensures { IfOk result (λ changes. changes
            ≡ AddObject (boot_object_of s kinds.Queue partition.0 (queue_cost depth size))
            ∷ SetRoom (serial_of s.next_serial) depth size ∷ []) }
    {
        let row = self.boot_object(Kind::Queue, partition, cost_of_queue(depth, size));
        let queue = row.serial;
        let room = Change::SetRoom { queue, depth, size };
        let changes = vec![in alloc; Change::AddObject { row }, room]?;
        Ok(Sequence::from_vec(changes))
    }

    /// The changes of a line that makes an object.
    pub(crate) fn object_line(
        &self,
        alloc: Global,
        line: BootLine,
    ) -> Result<Sequence<Change>, NoMemory>
        ghost s: { State }
        requires makes { makes_object line ≡ true }
        requires stands { Stands self.now s }
        requires next { ComesNext s line }
        ensures { IfOk result (λ changes. changes ≡ changes_of_line s line) }
    {
        match line {
            BootLine::Partition { quota } => {
                let changes = vec![in alloc; Change::AddPartition { quota }]?;
                Ok(Sequence::from_vec(changes))
            }
            BootLine::Cspace { partition } => self.new_object(alloc, Kind::Cspace, partition, 4),
            BootLine::Addrspace { partition } => self.new_object(alloc, Kind::Space, partition, 4),
            BootLine::Doorbell { partition } => self.new_object(alloc, Kind::Bell, partition, 1),
            BootLine::Msgqueue {
                partition,
                depth,
                size,
            } => self.new_queue(alloc, partition, depth, size),
            BootLine::RootExtent { .. } | BootLine::Extent { .. } => self.extent_line(alloc, line),
            _ => unreachable!(),
        }
    }
}
