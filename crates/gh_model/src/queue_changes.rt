//! What the changes of doorbells, message queues and CPUs make of the rows.

ghost use Rattle.std.specs.Prelude.{◌≡◌, ◌<◌, position, OnOk, OnErr};
ghost use Rattle.gh_model.specs.Changes.{configure_queue as configure_queue_of, exit_cpu as exit_cpu_of, ring as ring_of, set_bell as set_bell_of, with_message, with_room, without_first, without_messages};
ghost use Rattle.gh_model.specs.Rows.{change_row, is_bell, is_cpu, is_queue};

use crate::object_changes::set_cost;
use crate::rows::{BellRow, CpuRow, QueueRow};
use crate::state::State;
use gh_base::{CpuNo, NoMemory, Sequence, Serial};
use std::alloc::Global;

fn bell_place(bells: &[BellRow], bell: Serial) -> Option<usize>
    ensures { result ≡ position (is_bell bell.0) bells.now }
{
    bells.iter().position(|row| row.serial == bell)
}

/// A doorbell's words are set.
pub(crate) fn set_bell(state: &mut State, row: BellRow)
    ensures { state.new ≡ set_bell_of row state.old }
{
    if let Some(at) = bell_place(state.bells.as_slice(), row.serial) {
        state.bells.set(at, row);
    }
}

fn queue_place(queues: &[QueueRow], queue: Serial) -> Option<usize>
    ensures { result ≡ position (is_queue queue.0) queues.now }
{
    queues.iter().position(|row| row.serial == queue)
}

fn give_room(alloc: Global, row: &mut QueueRow, depth: u16, size: u16)
    ensures { row.new ≡ with_room depth size row.old }
{
    row.depth = depth;
    row.size = size;
    row.messages = Sequence::new(alloc);
}

/// A message queue gets its depth and its size.
pub(crate) fn set_room(
    alloc: Global,
    queues: &mut Sequence<QueueRow>,
    queue: Serial,
    depth: u16,
    size: u16,
)
    ensures { queues.new ≡ change_row (is_queue queue.0) (with_room depth size) queues.old }
{
    if let Some(at) = queue_place(queues.as_slice(), queue) {
        give_room(alloc, &mut queues.as_mut_slice()[at], depth, size);
    }
}

/// A message queue gets its room, and its object the cost of it.
pub(crate) fn configure_queue(
    alloc: Global,
    state: &mut State,
    queue: Serial,
    depth: u16,
    size: u16,
    cost: u16,
)
    ensures { state.new ≡ configure_queue_of queue depth size cost state.old }
{
    set_room(alloc, &mut state.queues, queue, depth, size);
    set_cost(&mut state.objects, queue, cost);
}

fn add_message(row: &mut QueueRow, message: Sequence<u8>) -> Result<(), NoMemory>
    ensures ok { OnOk result (row.new ≡ with_message message row.old) }
    ensures err { OnErr result (row.new ≡ row.old) }
{
    row.messages.push(message)
}

/// A message goes behind a queue's others.
pub(crate) fn put_message(
    queues: &mut Sequence<QueueRow>,
    queue: Serial,
    message: Sequence<u8>,
) -> Result<(), NoMemory>
    ensures ok { OnOk result
        (queues.new ≡ change_row (is_queue queue.0) (with_message message) queues.old) }
    ensures err { OnErr result (queues.new ≡ queues.old) }
{
    match queue_place(queues.as_slice(), queue) {
        None => Ok(()),
        Some(at) => add_message(&mut queues.as_mut_slice()[at], message),
    }
}

fn drop_first(row: &mut QueueRow)
    ensures { row.new ≡ without_first row.old }
{
    if !row.messages.is_empty() {
        let _ = row.messages.remove(0);
    }
}

/// A queue's first message goes.
pub(crate) fn drop_message(queues: &mut Sequence<QueueRow>, queue: Serial)
    ensures { queues.new ≡ change_row (is_queue queue.0) without_first queues.old }
{
    if let Some(at) = queue_place(queues.as_slice(), queue) {
        drop_first(&mut queues.as_mut_slice()[at]);
    }
}

fn drop_all(alloc: Global, row: &mut QueueRow)
    ensures { row.new ≡ without_messages row.old }
{
    row.messages = Sequence::new(alloc);
}

/// A queue's messages go.
pub(crate) fn empty_queue(alloc: Global, queues: &mut Sequence<QueueRow>, queue: Serial)
    ensures { queues.new ≡ change_row (is_queue queue.0) without_messages queues.old }
{
    if let Some(at) = queue_place(queues.as_slice(), queue) {
        drop_all(alloc, &mut queues.as_mut_slice()[at]);
    }
}

fn cpu_place(cpus: &[CpuRow], cpu: CpuNo) -> Option<usize>
    ensures { result ≡ position (is_cpu cpu.0) cpus.now }
{
    cpus.iter().position(|row| row.cpu == cpu)
}

/// A CPU has exited.
pub(crate) fn exit_cpu(state: &mut State, cpu: CpuNo)
    ensures { state.new ≡ exit_cpu_of cpu.0 state.old }
{
    if let Some(at) = cpu_place(state.cpus.as_slice(), cpu) {
        let row = state.cpus.as_slice()[at];
        state.cpus.set(
            at,
            CpuRow {
                exited: true,
                ..row
            },
        );
    }
}

/// The resource manager's bell rings.
pub(crate) fn ring(state: &mut State)
    requires { state.old.rings < 4294967295 }
    ensures { state.new ≡ ring_of state.old }
{
    state.rings += 1;
}
