//! A session of a queue of one message, and messages that wrap round the end of the ring.

use crate::outcome::holds;
use gh_base::{Errno, NoMemory};
use gh_msgqueue::Queue;
use std::alloc::Global;

/// Why no message is received into a buffer of so many bytes.
fn refusal(queue: &mut Queue, room: u64) -> Option<Errno> {
    match queue.receive(room) {
        Ok(_) => None,
        Err(errno) => Some(errno),
    }
}

/// Whether just these bytes are received, and no message is left.
fn receives_last(queue: &mut Queue, bytes: &[u8]) -> bool {
    match queue.receive(4) {
        Ok((message, left)) => message.as_slice() == bytes && !left,
        Err(_) => false,
    }
}

/// Whether a queue of one message of four bytes is full once it has one, and a short buffer leaves
/// the message.
fn keeps_one(queue: &mut Queue) -> bool {
    let sent = [queue.send(&[1, 2, 3, 4]), queue.send(&[1, 2, 3, 4])];
    sent == [Ok(false), Err(Errno::QueueFull)]
        && refusal(queue, 3) == Some(Errno::ArgSize)
        && receives_last(queue, &[1, 2, 3, 4])
}

/// Whether a long message is refused, and the queue is empty.
fn has_none(queue: &mut Queue) -> bool {
    queue.send(&[1, 2, 3, 4, 5]) == Err(Errno::ArgSize)
        && refusal(queue, 4) == Some(Errno::QueueEmpty)
        && queue.flush() == 0
}

fn one_message_comes_and_goes(alloc: Global) -> Result<bool, NoMemory> {
    let mut queue = Queue::configure(alloc, 1, 4)?;
    Ok(keeps_one(&mut queue) && has_none(&mut queue))
}

#[test]
fn a_full_queue_refuses_and_a_short_buffer_leaves_the_message(rt: HostRuntime) {
    assert!(rt; holds(one_message_comes_and_goes(rt.alloc())));
}

/// Whether a message that begins so is received, and another is left.
fn receives(queue: &mut Queue, first: u8) -> bool {
    match queue.receive(2) {
        Ok((message, left)) => message.first().copied() == Some(first) && left,
        Err(_) => false,
    }
}

/// Whether seven messages of two bytes are sent into a queue that has one, each followed by the
/// receipt of the one before it.
fn pass_in_order(queue: &mut Queue) -> bool {
    let mut all = true;
    for sent in 1..8u8 {
        all = all && queue.send(&[sent, sent]) == Ok(true) && receives(queue, sent - 1);
    }
    all
}

/// Whether the seventh message is the only one, and no message has three bytes.
fn has_seventh(queue: &mut Queue) -> bool {
    queue.first() == Some([7, 7].as_slice())
        && queue.fits(3) == Err(Errno::ArgSize)
        && queue.fits(2) == Ok(())
        && queue.flush() == 1
        && queue.first().is_none()
}

fn messages_pass(alloc: Global) -> Result<bool, NoMemory> {
    let mut queue = Queue::configure(alloc, 3, 2)?;
    Ok(queue.send(&[0]).is_ok() && pass_in_order(&mut queue) && has_seventh(&mut queue))
}

#[test]
fn messages_come_in_the_order_in_which_they_were_sent(rt: HostRuntime) {
    assert!(rt; holds(messages_pass(rt.alloc())));
}
