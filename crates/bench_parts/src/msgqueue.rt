//! Operations on a message queue.

use crate::checksum::checksum;
use gh_base::{MESSAGE_BYTES, NoMemory};
use gh_msgqueue::Queue;
use std::alloc::Global;

/// A message of 16 bytes.
const MESSAGE: [u8; 16] = [1, 2, 3, 4, 5, 6, 7, 8, 9, 10, 11, 12, 13, 14, 15, 16];

/// The most messages of the queue.
const DEPTH: u16 = 64;

/// The most bytes of a message of the queue.
const SIZE: u16 = 240;

fn send_answer(queue: &mut Queue) -> u64 {
    match queue.send(&MESSAGE) {
        Ok(more) => more as u64,
        Err(errno) => errno.number(),
    }
}

fn receive_answer(queue: &mut Queue) -> u64 {
    match queue.receive(MESSAGE_BYTES as u64) {
        Ok((message, left)) => message.len() as u64 + left as u64,
        Err(errno) => errno.number(),
    }
}

/// Sends a message and receives it.
pub fn send_and_receive(alloc: Global, count: u64) -> Result<u64, NoMemory> {
    let mut queue = Queue::configure(alloc, DEPTH, SIZE)?;
    Ok(checksum(count, |_| {
        send_answer(&mut queue) ^ receive_answer(&mut queue)
    }))
}

/// Asks whether a message fits, and of how many bytes the first is.
pub fn first(alloc: Global, count: u64) -> Result<u64, NoMemory> {
    let mut queue = Queue::configure(alloc, DEPTH, SIZE)?;
    send_answer(&mut queue);
    Ok(checksum(count, |turn| {
        queue.first().map_or(0, |message| message.len() as u64) ^ queue.fits(turn).is_ok() as u64
    }))
}
