//! A copy of the state.

ghost use Rattle.std.specs.Prelude.{◌≡◌, IfOk};

use crate::rows::{Parcel, QueueRow};
use crate::state::State;
use gh_base::{NoMemory, Sequence};
use std::alloc::Global;

fn copy_of_messages(
    alloc: Global,
    messages: &[Sequence<u8>],
) -> Result<Sequence<Sequence<u8>>, NoMemory>
    ensures { IfOk result (λ copy. copy ≡ messages.now) }
{
    let mut copy = Sequence::with_room(alloc, messages.len())?;
    for message in messages {
        copy.push(Sequence::from_slice(alloc, message.as_slice())?)?;
    }
    Ok(copy)
}

fn copy_of_queue(alloc: Global, row: &QueueRow) -> Result<QueueRow, NoMemory>
    ensures { IfOk result (λ copy. copy ≡ row.now) }
{
    let messages = copy_of_messages(alloc, row.messages.as_slice())?;
    Ok(QueueRow {
        serial: row.serial,
        depth: row.depth,
        size: row.size,
        messages,
    })
}

fn copy_of_queues(alloc: Global, rows: &[QueueRow]) -> Result<Sequence<QueueRow>, NoMemory>
    ensures { IfOk result (λ copy. copy ≡ rows.now) }
{
    let mut copy = Sequence::with_room(alloc, rows.len())?;
    for row in rows {
        copy.push(copy_of_queue(alloc, row)?)?;
    }
    Ok(copy)
}

fn copy_of_parcel(alloc: Global, row: &Parcel) -> Result<Parcel, NoMemory>
    ensures { IfOk result (λ copy. copy ≡ row.now) }
{
    let pages = Sequence::from_slice(alloc, row.pages.as_slice())?;
    let borrowers = Sequence::from_slice(alloc, row.borrowers.as_slice())?;
    Ok(Parcel {
        handle: row.handle,
        owner: row.owner,
        kind: row.kind,
        label: row.label,
        extent: row.extent,
        pages,
        borrowers,
    })
}

fn copy_of_parcels(alloc: Global, rows: &[Parcel]) -> Result<Sequence<Parcel>, NoMemory>
    ensures { IfOk result (λ copy. copy ≡ rows.now) }
{
    let mut copy = Sequence::with_room(alloc, rows.len())?;
    for row in rows {
        copy.push(copy_of_parcel(alloc, row)?)?;
    }
    Ok(copy)
}

impl State {
    /// A copy of all rows.
    pub(crate) fn copied(&self, alloc: Global) -> Result<State, NoMemory>
        ensures { IfOk result (λ copy. copy ≡ self.now) }
    {
        let queues = copy_of_queues(alloc, self.queues.as_slice())?;
        let parcels = copy_of_parcels(alloc, self.parcels.as_slice())?;
        Ok(State {
            objects: Sequence::from_slice(alloc, self.objects.as_slice())?,
            partitions: Sequence::from_slice(alloc, self.partitions.as_slice())?,
            extents: Sequence::from_slice(alloc, self.extents.as_slice())?,
            holders: Sequence::from_slice(alloc, self.holders.as_slice())?,
            caps: Sequence::from_slice(alloc, self.caps.as_slice())?,
            set_at: Sequence::from_slice(alloc, self.set_at.as_slice())?,
            mappings: Sequence::from_slice(alloc, self.mappings.as_slice())?,
            bells: Sequence::from_slice(alloc, self.bells.as_slice())?,
            queues,
            parcels,
            cpus: Sequence::from_slice(alloc, self.cpus.as_slice())?,
            links: Sequence::from_slice(alloc, self.links.as_slice())?,
            entries: self.entries,
            next_serial: self.next_serial,
            next_handle: self.next_handle,
            rings: self.rings,
            taken: Sequence::from_slice(alloc, self.taken.as_slice())?,
        })
    }
}
