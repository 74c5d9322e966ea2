//! The rows themselves answer what a decision reads.

ghost use Rattle.std.specs.Prelude.{◌≡◌, ◌+◌, ◌≤◌};
ghost use Rattle.std.specs.Prelude.{find, length, option_copied, IfOk};
ghost use Rattle.std.specs.List.{list_all, list_any};
ghost use Rattle.gh_model.specs.Boot.{overlaps};
ghost use Rattle.gh_model.specs.CapabilityCalls.{is_before, is_empty_slot, is_left, is_taken_of};
ghost use Rattle.gh_model.specs.CapabilityCalls.{least_free, names, rises, rises_from};
ghost use Rattle.gh_model.specs.ManagerCalls.{has_messages, is_link_for};
ghost use Rattle.gh_model.specs.Memory.{holds_all};
ghost use Rattle.gh_model.specs.QueueCalls.{row_fill, row_first};
ghost use Rattle.gh_model.specs.Rows.{fills, is_queue};
ghost use Rattle.gh_model.specs.Word.{setting_number};

use crate::access::access;
use crate::lookup::{
    bell_row, capability_row, cpu_row, extent_row, object_row, partition_row, setting_row,
};
use crate::references::doomed;
use crate::rows::{
    BellRow, CapabilityRow, CpuRow, ExtentRow, LinkRow, MappingRow, ObjectRow, PartitionRow,
    QueueRow, SetAtRow, TakenSlot,
};
use crate::state::State;
use crate::state_reads::{QueueFill, StateReads};
use crate::units::free;
use crate::word::Word;
use gh_base::{Access, CSPACE_SLOTS, CpuNo, Kind, NoMemory, PageNo, Sequence, Serial};
use std::alloc::Global;

fn setting_of(row: Option<SetAtRow>) -> u32
    ensures { result ≡ setting_number row }
{
    match row {
        None => 0,
        Some(row) => row.number,
    }
}

fn is_filled(caps: &[CapabilityRow], cspace: Serial, slot: u8) -> bool
    ensures { result ≡ list_any (fills cspace.0 slot) caps.now }
{
    caps.iter()
        .any(|row| row.cspace == cspace && row.slot == slot)
}

fn is_empty_slot(caps: &[CapabilityRow], cspace: Serial, slot: u8) -> bool
    ensures { result ≡ is_empty_slot caps.now cspace.0 slot }
{
    !is_filled(caps, cspace, slot)
}

fn least_free(caps: &[CapabilityRow], cspace: Serial) -> Option<u8>
    ensures { result ≡ least_free caps.now cspace.0 }
{
    (1..CSPACE_SLOTS + 1).find(|slot| is_empty_slot(caps, cspace, *slot))
}

fn is_before(a: TakenSlot, b: TakenSlot) -> bool
    ensures { result ≡ is_before a b }
{
    a.cspace.0 < b.cspace.0 || a.cspace == b.cspace && a.slot < b.slot
}

/// Whether the slots rise from the last one before them.
fn rises_from(last: TakenSlot, taken: &[TakenSlot]) -> bool
    ensures { result ≡ rises_from last taken.now }
{
    match taken.split_first() {
        None => true,
        Some((next, others)) => is_before(last, *next) && rises_from(*next, others),
    }
}

fn rises(taken: &[TakenSlot]) -> bool
    ensures { result ≡ rises taken.now }
{
    match taken.split_first() {
        None => true,
        Some((first, others)) => rises_from(*first, others),
    }
}

fn names(object: Serial, row: Option<CapabilityRow>) -> bool
    ensures { result ≡ names object row }
{
    match row {
        None => false,
        Some(row) => row.serial == object,
    }
}

/// Whether all taken slots are the object's.
fn all_taken_of(state: &State, object: Serial) -> bool
    ensures { result ≡ list_all (is_taken_of state.now object) state.now.taken }
{
    state.taken.as_slice().iter().all(|taken| {
        names(
            object,
            capability_row(state.caps.as_slice(), taken.cspace, taken.slot as u64),
        )
    })
}

fn any_left(caps: &[CapabilityRow], object: Serial) -> bool
    ensures { result ≡ list_any (is_left object) caps.now }
{
    caps.iter()
        .any(|row| row.valid && !row.master && row.serial == object)
}

/// Whether two runs of pages of one address space have a page in common.
fn overlap(row: &MappingRow, space: Serial, base: u64, count: u64) -> bool
    ensures { result ≡ overlaps space.0 base count row.now }
{
    row.space == space
        && row.base as u128 + row.count as u128 > base as u128
        && base as u128 + count as u128 > row.base as u128
}

fn holds_all(holders: &[Serial], extent: Serial, first: usize, count: usize) -> bool
    requires { first + count ≤ length holders.now }
    ensures { result ≡ holds_all holders.now extent.0 first count }
{
    let run = &holders[first..first + count];
    run.iter().all(|holder| *holder == extent)
}

/// A message queue's row.
fn queue_row(queues: &[QueueRow], queue: Serial) -> Option<&QueueRow>
    ensures { option_copied result ≡ find (is_queue queue.0) queues.now }
{
    queues.iter().find(|row| row.serial == queue)
}

fn queue_fill(queues: &[QueueRow], queue: Serial) -> Option<QueueFill>
    ensures { result ≡ row_fill (find (is_queue queue.0) queues.now) }
{
    let row = queue_row(queues, queue)?;
    Some(QueueFill {
        depth: row.depth,
        size: row.size,
        count: row.messages.len(),
    })
}

/// A copy of a queue's first message.
fn first_message(
    alloc: Global,
    queues: &[QueueRow],
    queue: Serial,
) -> Result<Option<Sequence<u8>>, NoMemory>
    ensures { IfOk result (λ message. message ≡ row_first (find (is_queue queue.0) queues.now)) }
{
    let Some(row) = queue_row(queues, queue) else {
        return Ok(None);
    };
    match row.messages.as_slice().first() {
        None => Ok(None),
        Some(message) => {
            let copy = Sequence::from_slice(alloc, message.as_slice())?;
            Ok(Some(copy))
        }
    }
}

fn has_messages(queues: &[QueueRow], queue: Serial) -> bool
    ensures { result ≡ has_messages (find (is_queue queue.0) queues.now) }
{
    match queue_row(queues, queue) {
        None => false,
        Some(row) => row.messages.len() > 0,
    }
}

fn link_of(links: &[LinkRow], vm: u64) -> Option<LinkRow>
    ensures { result ≡ find (is_link_for vm) links.now }
{
    links.iter().copied().find(|link| link.vm.0 as u64 == vm)
}

impl StateReads for State {
    ghost use Rattle.gh_model.specs.declared.state.State.{State};

    ghost rows = { λ (s : State). s };

    fn object(&self, object: Serial) -> Option<ObjectRow> {
        object_row(self.objects.as_slice(), object)
    }

    fn partition(&self, partition: Serial) -> Option<PartitionRow> {
        partition_row(self.partitions.as_slice(), partition)
    }

    fn extent(&self, extent: Serial) -> Option<ExtentRow> {
        extent_row(self.extents.as_slice(), extent)
    }

    fn bell(&self, bell: Serial) -> Option<BellRow> {
        bell_row(self.bells.as_slice(), bell)
    }

    fn cpu(&self, cpu: CpuNo) -> Option<CpuRow> {
        cpu_row(self.cpus.as_slice(), cpu)
    }

    fn word(&self, cspace: Serial, slot: u64) -> Word {
        if slot < 1 || slot > CSPACE_SLOTS as u64 {
            Word {
                row: None,
                set_at: 0,
            }
        } else {
            Word {
                row: capability_row(self.caps.as_slice(), cspace, slot),
                set_at: setting_of(setting_row(self.set_at.as_slice(), cspace, slot)),
            }
        }
    }

    fn free_slot(&self, cspace: Serial) -> Option<u8> {
        least_free(self.caps.as_slice(), cspace)
    }

    fn free_units(&self, partition: Serial) -> u16 {
        free(
            self.objects.as_slice(),
            self.partitions.as_slice(),
            partition,
        )
    }

    fn kind_count(&self, kind: Kind) -> usize {
        self.objects
            .as_slice()
            .iter()
            .filter(|row| row.kind == kind)
            .count()
    }

    fn next_serial(&self) -> Serial {
        Serial(self.next_serial)
    }

    fn doomed(&self, object: Serial) -> bool {
        doomed(self, object)
    }

    fn taken(&self) -> usize {
        self.taken.len()
    }

    fn finished(&self, object: Serial) -> bool {
        !any_left(self.caps.as_slice(), object)
            && all_taken_of(self, object)
            && rises(self.taken.as_slice())
    }

    fn overlaps(&self, space: Serial, base: u64, count: u64) -> bool {
        self.mappings
            .as_slice()
            .iter()
            .any(|row| overlap(row, space, base, count))
    }

    fn mappings(&self, space: Serial) -> usize {
        self.mappings
            .as_slice()
            .iter()
            .filter(|row| row.space == space)
            .count()
    }

    fn mapping(
        &self,
        space: Serial,
        extent: Serial,
        base: u64,
        offset: u64,
        count: u64,
    ) -> Option<MappingRow> {
        self.mappings.as_slice().iter().copied().find(|row| {
            row.handle == 0
                && row.space == space
                && row.extent == extent
                && row.base == base
                && row.offset == offset
                && row.count == count
        })
    }

    fn holds_run(&self, extent: Serial, first: u128, count: u128) -> bool {
        let pages = self.holders.len() as u128;
        if first > pages || count > pages - first {
            return false;
        }
        holds_all(
            self.holders.as_slice(),
            extent,
            first as usize,
            count as usize,
        )
    }

    fn access(&self, space: Serial, page: u16) -> Option<(PageNo, Access)> {
        access(self, space, page)
    }

    fn queue(&self, queue: Serial) -> Option<QueueFill> {
        queue_fill(self.queues.as_slice(), queue)
    }

    fn first_message(
        &self,
        alloc: Global,
        queue: Serial,
    ) -> Result<Option<Sequence<u8>>, NoMemory> {
        first_message(alloc, self.queues.as_slice(), queue)
    }

    fn is_request_queue(&self, queue: Serial) -> bool {
        self.links
            .as_slice()
            .iter()
            .any(|link| link.request == queue)
    }

    fn vm_requests(&self, vm: u8) -> bool {
        match link_of(self.links.as_slice(), vm as u64) {
            None => false,
            Some(link) => has_messages(self.queues.as_slice(), link.request),
        }
    }

    fn is_linked(&self, vm: u64) -> bool {
        self.links
            .as_slice()
            .iter()
            .any(|link| link.vm.0 as u64 == vm)
    }

    fn rings(&self) -> u32 {
        self.rings
    }
}
