//! What the parts tell of the rows that they stand for. No read takes memory.

ghost use Rattle.std.specs.Prelude.{◌≡◌, ◌<◌, find, length};
ghost use Rattle.std.specs.List.{list_any};
ghost use Rattle.gh_invariant.specs.Valid.{IsValidWithin};
ghost use Rattle.gh_model.specs.Boot.{kind_count};
ghost use Rattle.gh_model.specs.ManagerCalls.{is_link_for, is_linked};
ghost use Rattle.gh_model.specs.QueueCalls.{is_request_queue, is_requests};
ghost use Rattle.gh_model.specs.Reads.{partition_units};
ghost use Rattle.gh_model.specs.References.{is_doomed};
ghost use Rattle.gh_model.specs.Rows.{cpu_row as cpu_row_of, is_bell, is_partition};
ghost use Rattle.gh_model.specs.Rows.{object_row as object_row_of};
ghost use Rattle.gh_model.specs.Units.{free_units as free_units_of};
ghost use Rattle.gh_model.specs.declared.state.State.{State};
ghost use Rattle.gh_objects.specs.Counts.{is_doomed as is_doomed_count};
ghost use Rattle.gh_parts.specs.Bodies.{bell_in};
ghost use Rattle.gh_parts.specs.ObjectReads.{is_childless, object_row_at};
ghost use Rattle.gh_parts.specs.Reading.{IsReadable};
ghost use Rattle.gh_parts.specs.Stands.{Stands};

use crate::body::Body;
use crate::cpus::cpu_row;
use crate::journal::Memory;
use crate::parts::Parts;
use crate::units::{free_in, partition_row, units_in};
use gh_base::{CpuNo, Kind, OBJECT_INDICES, ObjIndex, Serial};
use gh_model::{BellRow, CpuRow, LinkRow, ObjectRow, PartitionRow};
use gh_objects::Count;

/// The row of a doorbell's body; none of any other.
fn bell_row(body: &Body, bell: Serial) -> Option<BellRow>
    ensures { result ≡ bell_in bell.0 body.now }
{
    match body {
        Body::Bell(words) => {
            let (flags, enable, ack) = words.words();
            Some(BellRow {
                serial: bell,
                flags,
                enable,
                ack,
            })
        }
        _ => None,
    }
}

/// Whether nothing refers to an object of this count; false where no object lives.
fn is_doomed(count: Option<Count>) -> bool
    ensures { result ≡ is_doomed_count count }
{
    match count {
        None => false,
        Some(count) => count.references == 0,
    }
}

/// Whether no extent has a serial that no object has as its parent. Serial 0 is the root's parent,
/// and the root is the first of the extents.
fn is_childless(memory: &Memory, serial: Serial) -> bool
    ensures { result ≡ is_childless memory.now serial.0 }
{
    match memory {
        Memory::Bare(_) => true,
        Memory::Held(extents) => serial.0 != 0 || !extents.has_child(serial),
    }
}

/// Whether a link has this request queue.
fn requests(all: &[LinkRow], queue: Serial) -> bool
    ensures { result ≡ list_any (is_requests queue.0) all.now }
{
    all.iter().any(|link| link.request == queue)
}

/// Whether a link is the VM's.
fn links(all: &[LinkRow], vm: u64) -> bool
    ensures { result ≡ list_any (is_link_for vm) all.now }
{
    all.iter().any(|link| link.vm.0 as u64 == vm)
}

impl Parts {
    /// The row of the object at an index.
    fn object_at(&self, index: ObjIndex) -> Option<ObjectRow>
        requires index { index.0 < OBJECT_INDICES }
        requires room { length self.now.journal.retirements ≡ OBJECT_INDICES }
        ensures { result ≡ object_row_at self.now index.0 }
    {
        match self.table.get(index) {
            None => None,
            Some(header) => Some(ObjectRow {
                serial: header.serial,
                kind: header.kind,
                partition: self.serial_at(header.partition),
                stage: header.stage,
                cost: self.shares.cost(index),
                retired: self.journal.retirements.as_slice()[index.0 as usize],
            }),
        }
    }

    /// The row of an object, by a binary search.
    pub fn object(&self, object: Serial) -> Option<ObjectRow>
        requires { IsReadable self.now }
        ensures { (s : State) → Stands self.now s → IsValidWithin s
            → result ≡ object_row_of s object.0 }
    {
        match self.index(object) {
            None => None,
            Some(index) => self.object_at(index),
        }
    }

    /// The row of a doorbell, by a binary search.
    pub fn bell(&self, bell: Serial) -> Option<BellRow>
        requires { IsReadable self.now }
        ensures { (s : State) → Stands self.now s → result ≡ find (is_bell bell.0) s.bells }
    {
        match self.index(bell) {
            None => None,
            Some(index) => bell_row(self.shares.body(index), bell),
        }
    }

    /// The row of a CPU.
    pub fn cpu(&self, cpu: CpuNo) -> Option<CpuRow>
        ensures { (s : State) → Stands self.now s → result ≡ cpu_row_of s cpu.0 }
    {
        cpu_row(self.journal.cpus.as_slice(), cpu)
    }

    /// The units that a partition has left.
    pub fn free_units(&self, partition: Serial) -> u16
        ensures { (s : State) → Stands self.now s → result ≡ free_units_of s partition.0 }
    {
        free_in(self.journal.accounts.as_slice(), partition)
    }

    /// The used, free and given units of a live partition.
    pub fn units(&self, partition: Serial) -> Option<(u16, u16, u16)>
        ensures { (s : State) → Stands self.now s → IsValidWithin s
            → result ≡ partition_units s partition.0 }
    {
        units_in(self.journal.accounts.as_slice(), partition)
    }

    /// The row of a partition.
    pub fn partition(&self, partition: Serial) -> Option<PartitionRow>
        ensures { (s : State) → Stands self.now s
            → result ≡ find (is_partition partition.0) s.partitions }
    {
        partition_row(self.journal.accounts.as_slice(), partition)
    }

    /// How many objects of a kind are there. It looks at no object.
    pub fn kind_count(&self, kind: Kind) -> usize
        ensures { (s : State) → Stands self.now s → IsValidWithin s → result ≡ kind_count s kind }
    {
        self.table.kind_count(kind)
    }

    /// Whether nothing refers to the object, by a binary search for its count.
    pub fn doomed(&self, object: Serial) -> bool
        requires { IsReadable self.now }
        ensures { (s : State) → Stands self.now s → IsValidWithin s
            → result ≡ is_doomed s object.0 }
    {
        match self.index(object) {
            None => is_childless(&self.journal.memory, object),
            Some(index) => is_doomed(self.journal.counts.get(index.0 as usize)),
        }
    }

    /// The serial of the next object.
    pub fn next_serial(&self) -> Serial
        ensures { (s : State) → Stands self.now s → result.0 ≡ s.next_serial }
    {
        Serial(self.journal.next_serial)
    }

    /// How many slots the revokes took since the last entry of another kind.
    pub fn taken(&self) -> usize
        ensures { (s : State) → Stands self.now s → result ≡ length s.taken }
    {
        self.journal.taken.len()
    }

    /// How often the resource manager's bell has rung.
    pub fn rings(&self) -> u32
        ensures { (s : State) → Stands self.now s → result ≡ s.rings }
    {
        self.journal.rings
    }

    /// Whether it is the request queue of a link.
    pub fn is_request_queue(&self, queue: Serial) -> bool
        ensures { (s : State) → Stands self.now s → result ≡ is_request_queue s queue }
    {
        requests(self.journal.links.as_slice(), queue)
    }

    /// Whether the VM is linked.
    pub fn is_linked(&self, vm: u64) -> bool
        ensures { (s : State) → Stands self.now s → result ≡ is_linked s vm }
    {
        links(self.journal.links.as_slice(), vm)
    }
}
