//! What a decision reads of the state, whatever holds it.

ghost use Rattle.std.specs.Prelude.{◌≡◌, ◌+◌, ◌<◌, find, length, IfOk, count_by};
ghost use Rattle.std.specs.List.{list_any};
ghost use Rattle.gh_model.specs.Access.{access_at};
ghost use Rattle.gh_model.specs.Boot.{kind_count, overlaps, is_row_of};
ghost use Rattle.gh_model.specs.CapabilityCalls.{free_slot, is_finished};
ghost use Rattle.gh_model.specs.ManagerCalls.{vm_requests, is_linked};
ghost use Rattle.gh_model.specs.MemoryCalls.{holds_run, mapping_row};
ghost use Rattle.gh_model.specs.QueueCalls.{queue_fill, first_message, is_request_queue};
ghost use Rattle.gh_model.specs.References.{is_doomed};
ghost use Rattle.gh_model.specs.Rows.{object_row, cpu_row, is_partition, is_extent, is_bell};
ghost use Rattle.gh_model.specs.Small.{IsSmall};
ghost use Rattle.gh_model.specs.Units.{free_units};
ghost use Rattle.gh_model.specs.Word.{word_at};
ghost use Rattle.gh_model.specs.declared.state.State.{State as AllRows};

use crate::rows::{BellRow, CpuRow, ExtentRow, MappingRow, ObjectRow, PartitionRow};
use crate::word::Word;
use gh_base::{Access, CpuNo, Kind, NoMemory, PageNo, Sequence, Serial};
use std::alloc::Global;

/// How full a queue is.
#[derive(Clone, Copy, Debug)]
pub struct QueueFill {
    /// Messages; 0 until it is configured.
    pub depth: u16,
    /// Bytes of a message.
    pub size: u16,
    /// Messages in it.
    pub count: usize,
}

/// Who tells the rows of the state.
pub trait StateReads {
    // The rows of the state.
    ghost rows: { Self → AllRows };

    fn object(&self, object: Serial) -> Option<ObjectRow>
        ensures { result ≡ object_row (rows self.now) object.0 };

    fn partition(&self, partition: Serial) -> Option<PartitionRow>
        ensures { result ≡ find (is_partition partition.0) (rows self.now).partitions };

    fn extent(&self, extent: Serial) -> Option<ExtentRow>
        ensures { result ≡ find (is_extent extent.0) (rows self.now).extents };

    fn bell(&self, bell: Serial) -> Option<BellRow>
        ensures { result ≡ find (is_bell bell.0) (rows self.now).bells };

    fn cpu(&self, cpu: CpuNo) -> Option<CpuRow>
        ensures { result ≡ cpu_row (rows self.now) cpu.0 };

    /// What a slot holds. A number outside 1 to 127 is an empty slot that no entry set.
    fn word(&self, cspace: Serial, slot: u64) -> Word
        ensures { result ≡ word_at (rows self.now) cspace.0 slot };

    /// The least free slot; none where all of them are filled.
    fn free_slot(&self, cspace: Serial) -> Option<u8>
        ensures { result ≡ free_slot (rows self.now) cspace.0 };

    /// The units that a partition has left.
    fn free_units(&self, partition: Serial) -> u16
        ensures { result ≡ free_units (rows self.now) partition.0 };

    /// How many objects of a kind are there.
    fn kind_count(&self, kind: Kind) -> usize
        ensures { result ≡ kind_count (rows self.now) kind };

    fn next_serial(&self) -> Serial
        ensures { result.0 ≡ (rows self.now).next_serial };

    /// Whether nothing refers to the object.
    fn doomed(&self, object: Serial) -> bool
        ensures { result ≡ is_doomed (rows self.now) object.0 };

    /// How many slots the revokes took since the last entry of another kind.
    fn taken(&self) -> usize
        ensures { result ≡ length (rows self.now).taken };

    /// Whether a revoke of the object's capabilities has taken all of them, and nothing else.
    fn finished(&self, object: Serial) -> bool
        ensures { result ≡ is_finished (rows self.now) object };

    /// Whether a mapping row of the address space has one of these pages.
    fn overlaps(&self, space: Serial, base: u64, count: u64) -> bool
        ensures { result ≡ list_any (overlaps space.0 base count) (rows self.now).mappings };

    /// How many mapping rows the address space has.
    fn mappings(&self, space: Serial) -> usize
        ensures { result ≡ count_by (is_row_of space.0) (rows self.now).mappings };

    /// The row of the map call with this extent, base, offset and count.
    fn mapping(
        &self,
        space: Serial,
        extent: Serial,
        base: u64,
        offset: u64,
        count: u64,
    ) -> Option<MappingRow>
        ensures { result ≡ mapping_row (rows self.now) space extent base offset count };

    /// Whether the extent holds each page of a run of the machine's pages.
    fn holds_run(&self, extent: Serial, first: u128, count: u128) -> bool
        requires { IsSmall (rows self.now) }
        ensures { result ≡ holds_run (rows self.now).holders extent first count };

    /// The machine page and the access at a page of an address space.
    fn access(&self, space: Serial, page: u16) -> Option<(PageNo, Access)>
        requires { IsSmall (rows self.now) }
        ensures { result ≡ access_at (rows self.now) space.0 page };

    fn queue(&self, queue: Serial) -> Option<QueueFill>
        ensures { result ≡ queue_fill (rows self.now) queue };

    /// A copy of the queue's first message.
    fn first_message(&self, alloc: Global, queue: Serial) -> Result<Option<Sequence<u8>>, NoMemory>
        ensures { IfOk result (λ message. message ≡ first_message (rows self.now) queue) };

    /// Whether it is the request queue of a link.
    fn is_request_queue(&self, queue: Serial) -> bool
        ensures { result ≡ is_request_queue (rows self.now) queue };

    /// Whether the VM is linked, and its request queue has messages.
    fn vm_requests(&self, vm: u8) -> bool
        ensures { result ≡ vm_requests (rows self.now) vm };

    fn is_linked(&self, vm: u64) -> bool
        ensures { result ≡ is_linked (rows self.now) vm };

    fn rings(&self) -> u32
        ensures { result ≡ (rows self.now).rings };
}
