//! The operations by name.

use crate::checksum::checksum;
use crate::{cspace, doorbell, memory, msgqueue, objects, pagetable, partition, rcu};
use gh_base::NoMemory;
use std::alloc::Global;

/// Operations on numbers and words alone; `empty` does nothing.
fn on_words(operation: &str, count: u64) -> Option<u64> {
    Some(match operation {
        "empty" => checksum(count, |turn| turn),
        "partition_take" => partition::take(count),
        "partition_give" => partition::give(count),
        "cspace_insert" => cspace::insert(count),
        "cspace_get" => cspace::get(count),
        "cspace_free_slot" => cspace::free_slot(count),
        "cspace_copy" => cspace::copy(count),
        "cspace_revoke" => cspace::revoke(count),
        "doorbell_send" => doorbell::send(count),
        "doorbell_receive" => doorbell::receive(count),
        "rcu_note" => rcu::note(count),
        "rcu_passed" => rcu::passed(count),
        _ => return None,
    })
}

/// Operations on objects and message queues.
fn on_objects(alloc: Global, operation: &str, count: u64) -> Result<Option<u64>, NoMemory> {
    let sum = match operation {
        "objects_insert" => objects::insert(alloc, count)?,
        "objects_add_ref" => objects::add_ref(alloc, count)?,
        "objects_doom" => objects::doom(alloc, count)?,
        "objects_doom_among_many" => objects::doom_among_many(alloc, count)?,
        "objects_doomed" => objects::doomed(alloc, count)?,
        "objects_header" => objects::header(alloc, count)?,
        "objects_set_stage" => objects::set_stage(alloc, count)?,
        "msgqueue_send_receive" => msgqueue::send_and_receive(alloc, count)?,
        "msgqueue_first" => msgqueue::first(alloc, count)?,
        _ => return Ok(None),
    };
    Ok(Some(sum))
}

/// Operations on page tables, extents and address spaces.
fn on_memory(alloc: Global, operation: &str, count: u64) -> Result<Option<u64>, NoMemory> {
    let sum = match operation {
        "pagetable_set_one" => pagetable::set_one(alloc, count)?,
        "pagetable_clear_one" => pagetable::clear_one(alloc, count)?,
        "pagetable_split_and_join" => pagetable::split_and_join(alloc, count)?,
        "pagetable_set_all" => pagetable::set_all(alloc, count)?,
        "pagetable_clear_all" => pagetable::clear_all(alloc, count)?,
        "pagetable_set_most" => pagetable::set_most(alloc, count)?,
        "pagetable_clear_most" => pagetable::clear_most(alloc, count)?,
        "pagetable_get" => pagetable::get(alloc, count)?,
        "pagetable_tables" => pagetable::tables(alloc, count)?,
        "extent_holder" => memory::holder(alloc, count)?,
        "extent_holds" => memory::holds(alloc, count)?,
        "extent_derive" => memory::derive(alloc, count)?,
        "extent_donate" => memory::donate_both_ways(alloc, count)?,
        "addrspace_map_one" => memory::map_one(alloc, count)?,
        "addrspace_map_512" => memory::map_many(alloc, count)?,
        "addrspace_moved" => memory::moved(alloc, count)?,
        "addrspace_lookup" => memory::lookup(alloc, count)?,
        _ => return Ok(None),
    };
    Ok(Some(sum))
}

/// The checksum of an operation that is done so many times; none where there is no such operation.
pub fn answer(alloc: Global, operation: &str, count: u64) -> Result<Option<u64>, NoMemory> {
    if let Some(sum) = on_words(operation, count) {
        return Ok(Some(sum));
    }
    if let Some(sum) = on_objects(alloc, operation, count)? {
        return Ok(Some(sum));
    }
    on_memory(alloc, operation, count)
}
