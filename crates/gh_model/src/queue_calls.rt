//! What the calls on message queues come to.

ghost use Rattle.std.specs.Prelude.{◌≡◌, ◌≤◌, ◌∷◌, [], length, min, Option, IfOk};
ghost use Rattle.gh_model.specs.QueueCalls.{one_if, rings_if, message_sent};
ghost use Rattle.gh_model.specs.QueueCalls.{msgq_send as msgq_send_of};
ghost use Rattle.gh_model.specs.QueueCalls.{message_reply, message_received};
ghost use Rattle.gh_model.specs.QueueCalls.{msgq_recv as msgq_recv_of};
ghost use Rattle.gh_model.specs.QueueCalls.{flushed, msgq_flush as msgq_flush_of};

use crate::capability_calls::{done_with, make_one};
use crate::change::{Change, Decision};
use crate::state_reads::{QueueFill, StateReads};
use gh_base::{Errno, MESSAGE_BYTES, MessageBytes, NoMemory, Reply, Sequence, Serial};
use std::alloc::Global;

fn one_if(fact: bool) -> u64
    ensures { result ≡ one_if fact }
{
    if fact { 1 } else { 0 }
}

/// The changes of a send: the message, and a ring where the queue's link asks for it.
fn send_changes(
    alloc: Global,
    queue: Serial,
    message: &[u8],
    rings: bool,
) -> Result<Sequence<Change>, NoMemory>
    ensures { IfOk result
        (λ changes. changes ≡ Change.PutMessage queue message.now ∷ rings_if rings) }
{
    let message = Sequence::from_slice(alloc, message)?;
    let mut changes = Sequence::new(alloc);
    changes.push(Change::PutMessage { queue, message })?;
    if rings {
        changes.push(Change::Ring)?;
    }
    Ok(changes)
}

fn message_sent<R: StateReads>(
    alloc: Global,
    rows: &R,
    queue: Serial,
    message: &[u8],
    fill: Option<QueueFill>,
) -> Result<Decision, NoMemory>
    ensures { IfOk result
        (λ decision. decision ≡ message_sent (R.rows rows.now) queue message.now fill) }
{
    match fill {
        Some(fill) if message.len() > fill.size as usize => Ok(Decision::Refuse {
            errno: Errno::ArgSize,
        }),
        Some(fill) if fill.count < fill.depth as usize => {
            let changes = send_changes(alloc, queue, message, rows.is_request_queue(queue))?;
            let reply = done_with(one_if(fill.count + 1 < fill.depth as usize));
            Ok(Decision::Make { changes, reply })
        }
        _ => Ok(Decision::Refuse {
            errno: Errno::QueueFull,
        }),
    }
}

pub(crate) fn msgq_send<R: StateReads>(
    alloc: Global,
    rows: &R,
    queue: Serial,
    message: &[u8],
) -> Result<Decision, NoMemory>
    ensures { IfOk result
        (λ decision. decision ≡ msgq_send_of (R.rows rows.now) queue message.now) }
{
    message_sent(alloc, rows, queue, message, rows.queue(queue))
}

/// The reply of a message: its length, whether messages are left, and its bytes.
fn message_reply(message: Sequence<u8>, left: bool) -> Reply
    requires { length message ≤ MESSAGE_BYTES }
    ensures { result ≡ message_reply message left }
{
    Reply {
        x: [0, message.len() as u64, one_if(left), 0],
        bytes: MessageBytes::from_vec(message.into_vec()),
    }
}

/// The bytes that a message may have at most.
fn reply_room(room: u64) -> u64
    ensures room { result ≡ min room MESSAGE_BYTES }
    ensures within { result ≤ MESSAGE_BYTES }
{
    room.min(MESSAGE_BYTES as u64)
}

fn message_received(
    alloc: Global,
    queue: Serial,
    room: u64,
    fill: Option<QueueFill>,
    first: Option<Sequence<u8>>,
) -> Result<Decision, NoMemory>
    ensures { IfOk result (λ decision. decision ≡ message_received queue room fill first) }
{
    let Some(fill) = fill else {
        return Ok(Decision::Refuse {
            errno: Errno::QueueEmpty,
        });
    };
    let Some(message) = first else {
        return Ok(Decision::Refuse {
            errno: Errno::QueueEmpty,
        });
    };
    if message.len() as u64 > reply_room(room) {
        return Ok(Decision::Refuse {
            errno: Errno::ArgSize,
        });
    }
    let reply = message_reply(message, fill.count > 1);
    make_one(alloc, Change::DropMessage { queue }, reply)
}

pub(crate) fn msgq_recv<R: StateReads>(
    alloc: Global,
    rows: &R,
    queue: Serial,
    room: u64,
) -> Result<Decision, NoMemory>
    ensures { IfOk result (λ decision. decision ≡ msgq_recv_of (R.rows rows.now) queue room) }
{
    let first = rows.first_message(alloc, queue)?;
    message_received(alloc, queue, room, rows.queue(queue), first)
}

fn flushed(alloc: Global, queue: Serial, fill: Option<QueueFill>) -> Result<Decision, NoMemory>
    ensures { IfOk result (λ decision. decision ≡ flushed queue fill) }
{
    match fill {
        None => Ok(Decision::Make {
            changes: Sequence::new(alloc),
            reply: done_with(0),
        }),
        Some(fill) => make_one(
            alloc,
            Change::EmptyQueue { queue },
            done_with(fill.count as u64),
        ),
    }
}

pub(crate) fn msgq_flush<R: StateReads>(
    alloc: Global,
    rows: &R,
    queue: Serial,
) -> Result<Decision, NoMemory>
    ensures { IfOk result (λ decision. decision ≡ msgq_flush_of (R.rows rows.now) queue) }
{
    flushed(alloc, queue, rows.queue(queue))
}
