//! What the ledger tells of its rows. No read but that of a message takes memory.

ghost use Rattle.std.specs.Prelude.{◌≡◌};
ghost use Rattle.gh_base.specs.declared.kind.Kind.TheVariants as kinds;
ghost use Rattle.gh_invariant.specs.Effects.{gained, lost};
ghost use Rattle.gh_model.specs.Boot.{is_kind, is_of_kind};
ghost use Rattle.gh_model.specs.Reads.{last_serial, partition_units};
ghost use Rattle.gh_parts.specs.Past.{rows_of};
ghost use Rattle.gh_parts.specs.Told.{AreTold};

use crate::effects::{Effects, effects_of};
use crate::ledger::Ledger;
use gh_base::{Access, CpuNo, Kind, NoMemory, PageNo, Sequence, Serial};
use gh_model::{
    BellRow, Change, CpuRow, ExtentRow, MappingRow, ObjectRow, PartitionRow, QueueFill, StateReads,
    Word,
};
use std::alloc::Global;

impl StateReads for Ledger {
    ghost use Rattle.gh_parts.specs.Past.{Past, rows_of};

    ghost rows = { λ (past : Past). rows_of past };

    fn object(&self, object: Serial) -> Option<ObjectRow> {
        self.parts().object(object)
    }

    fn partition(&self, partition: Serial) -> Option<PartitionRow> {
        self.parts().partition(partition)
    }

    fn extent(&self, extent: Serial) -> Option<ExtentRow> {
        self.parts().extent(extent)
    }

    fn bell(&self, bell: Serial) -> Option<BellRow> {
        self.parts().bell(bell)
    }

    fn cpu(&self, cpu: CpuNo) -> Option<CpuRow> {
        self.parts().cpu(cpu)
    }

    fn word(&self, cspace: Serial, slot: u64) -> Word {
        self.parts().word(cspace, slot)
    }

    fn free_slot(&self, cspace: Serial) -> Option<u8> {
        self.parts().free_slot(cspace)
    }

    fn free_units(&self, partition: Serial) -> u16 {
        self.parts().free_units(partition)
    }

    fn kind_count(&self, kind: Kind) -> usize {
        self.parts().kind_count(kind)
    }

    fn next_serial(&self) -> Serial {
        self.parts().next_serial()
    }

    fn doomed(&self, object: Serial) -> bool {
        self.parts().doomed(object)
    }

    fn taken(&self) -> usize {
        self.parts().taken()
    }

    fn finished(&self, object: Serial) -> bool {
        self.parts().finished(object)
    }

    fn overlaps(&self, space: Serial, base: u64, count: u64) -> bool {
        self.parts().overlaps(space, base, count)
    }

    fn mappings(&self, space: Serial) -> usize {
        self.parts().mappings(space)
    }

    fn mapping(
        &self,
        space: Serial,
        extent: Serial,
        base: u64,
        offset: u64,
        count: u64,
    ) -> Option<MappingRow> {
        self.parts().mapping(space, extent, base, offset, count)
    }

    fn holds_run(&self, extent: Serial, first: u128, count: u128) -> bool {
        self.parts().holds_run(extent, first, count)
    }

    fn access(&self, space: Serial, page: u16) -> Option<(PageNo, Access)> {
        self.parts().access(space, page)
    }

    fn queue(&self, queue: Serial) -> Option<QueueFill> {
        self.parts().queue(queue)
    }

    fn first_message(
        &self,
        alloc: Global,
        queue: Serial,
    ) -> Result<Option<Sequence<u8>>, NoMemory> {
        self.parts().first_message(alloc, queue)
    }

    fn is_request_queue(&self, queue: Serial) -> bool {
        self.parts().is_request_queue(queue)
    }

    fn vm_requests(&self, vm: u8) -> bool {
        self.parts().vm_requests(vm)
    }

    fn is_linked(&self, vm: u64) -> bool {
        self.parts().is_linked(vm)
    }

    fn rings(&self) -> u32 {
        self.parts().rings()
    }
}

/// Whether a row is that of an object of a kind.
fn is_of_kind(row: Option<ObjectRow>, kind: Kind) -> bool
    ensures { result ≡ is_of_kind kind row }
{
    match row {
        None => false,
        Some(row) => row.kind == kind,
    }
}

impl Ledger {
    /// The greatest serial given so far.
    pub fn last_serial(&self) -> Serial
        ensures { result.0 ≡ last_serial (rows_of self.now) }
    {
        Serial(self.parts().next_serial().0.saturating_sub(1))
    }

    /// The used, free and given units of a live partition; none for any other serial.
    pub fn units(&self, serial: Serial) -> Option<(u16, u16, u16)>
        ensures { result ≡ partition_units (rows_of self.now) serial.0 }
    {
        self.parts().units(serial)
    }

    /// What the changes of an entry give and take, read before the first of them is made.
    pub fn effects(&self, changes: &[Change]) -> Effects
        requires { AreTold (rows_of self.now) changes.now }
        ensures gained { result.gained ≡ gained (rows_of self.now) changes.now }
        ensures lost { result.lost ≡ lost (rows_of self.now) changes.now }
    {
        let _ = self.parts();
        effects_of(self, changes)
    }

    /// Whether this is a live address space, by a binary search.
    pub fn is_space(&self, serial: Serial) -> bool
        ensures { result ≡ is_kind (rows_of self.now) serial.0 kinds.Space }
    {
        is_of_kind(self.object(serial), Kind::Space)
    }
}
