//! A message queue over a ring of slots.

ghost use Rattle.std.specs.Prelude.{◌≡◌, ◌≤◌, ◌<◌, ◌++◌, []};
ghost use Rattle.std.specs.Prelude.{◌∷◌, length, slice_get, slice_set};
ghost use Rattle.std.specs.Prelude.{replicate, option_copied, IfOk, OnOk, OnErr};
ghost use Rattle.std.specs.Result.{result_err};
ghost use Rattle.circular_buffer.specs.Buffer.{buffer};
ghost use Rattle.gh_msgqueue.specs.Ring.{rotated};
ghost use Rattle.gh_msgqueue.specs.Slot.{content};

use crate::slot::Slot;
use arrayvec::ArrayVec;
use circular_buffer::HeapCircularBuffer;
use gh_base::{Errno, MESSAGE_BYTES, NoMemory};
use std::alloc::Global;
use std::marker::Model;

/// Messages in the order in which they were sent. No call after `configure` takes memory.
#[derive(Debug, Drop)]
pub struct Queue {
    ring: HeapCircularBuffer<Slot>,
    count: usize,
    size: usize,
}

impl Model for Queue {
    ghost use Rattle.gh_msgqueue.specs.Queue.{MessageQueue};

    ghost Value = { MessageQueue };

    ghost use Rattle.gh_msgqueue.specs.Ring.{queue_in, IsLaidOut};

    ghost view = { λ q. queue_in q.ring q.count q.size };

    ghost invariant = { λ q. IsLaidOut q.ring q.count q.size };
}

/// A full ring of slots without messages.
fn new_ring(alloc: Global, depth: usize, size: usize) -> Result<HeapCircularBuffer<Slot>, NoMemory>
    ensures { IfOk result (λ ring. ring ≡ buffer (replicate depth (content [] size)) depth) }
{
    let mut ring = HeapCircularBuffer::with_capacity(alloc, depth)?;
    for _ in 0..depth {
        ring.push_back(Slot::new(alloc, size)?);
    }
    Ok(ring)
}

/// The bytes of a message in a vector of their own.
fn copied(message: &[u8]) -> ArrayVec<u8, MESSAGE_BYTES>
    requires { length message.now ≤ MESSAGE_BYTES }
    ensures { result.items ≡ message.now }
{
    let mut bytes = ArrayVec::new();
    let _ = bytes.try_extend_from_slice(message);
    bytes
}

/// Puts the first slot last.
#[tactic(auto, using(crate::proofs::RingLemmas::pushed_after_pop))]
fn rotate(ring: &mut HeapCircularBuffer<Slot>)
    requires { length ring.old.items ≤ ring.old.capacity }
    ensures { ring.new ≡ buffer (rotated ring.old.items) ring.old.capacity }
{
    if let Some(slot) = ring.pop_front() {
        ring.push_back(slot);
    }
}

impl Queue {
    ghost use Rattle.gh_msgqueue.specs.Queue.{empty_queue, with_last, with_first, has_room};
    ghost use Rattle.gh_msgqueue.specs.Queue.{has_messages, send_refusal, receive_refusal};
    ghost use Rattle.gh_msgqueue.specs.Queue.{IsConfigurable, IsWithinLimits};

    /// An empty queue for `depth` messages of at most `size` bytes each. It takes all the memory
    /// that the queue ever has: `depth` times `size` bytes, and a few words for each message.
    pub fn configure(alloc: Global, depth: u16, size: u16) -> Result<Queue, NoMemory>
        requires { IsConfigurable depth size }
        ensures { IfOk result (λ q. q ≡ empty_queue depth size) }
    {
        let ring = new_ring(alloc, depth as usize, size as usize)?;
        Ok(Queue {
            ring,
            count: 0,
            size: size as usize,
        })
    }

    /// Puts a message last, and says whether there is room for another. It copies the bytes once.
    ///
    /// `ArgSize` where it is longer than the size, else `QueueFull` where the queue is full.
    pub fn send(&mut self, bytes: &[u8]) -> Result<bool, Errno>
        ensures refusal { result_err result ≡ send_refusal self.old (length bytes.now) }
        ensures sent { OnOk result (self.new ≡ with_last self.old bytes.now) }
        ensures room { IfOk result (λ more. more ≡ has_room self.new) }
        ensures refused { OnErr result (self.new ≡ self.old) }
    {
        if bytes.len() > self.size {
            return Err(Errno::ArgSize);
        }
        let Some(slot) = self.ring.get_mut(self.count) else {
            return Err(Errno::QueueFull);
        };
        slot.write(bytes);
        self.count += 1;
        Ok(self.count < self.ring.capacity())
    }

    /// Takes the first message, and says whether messages are left. It copies the bytes once.
    ///
    /// `QueueEmpty` where there is none, else `ArgSize` where it has more bytes than `room`, and
    /// then it stays.
    pub fn receive(&mut self, room: u64) -> Result<(ArrayVec<u8, MESSAGE_BYTES>, bool), Errno>
        ensures refusal { result_err result ≡ receive_refusal self.old room }
        ensures received { IfOk result (λ r. self.old ≡ with_first r.0.items self.new) }
        ensures left { IfOk result (λ r. r.1 ≡ has_messages self.new) }
        ensures refused { OnErr result (self.new ≡ self.old) }
    {
        let Some(message) = self.first() else {
            return Err(Errno::QueueEmpty);
        };
        if message.len() as u64 > room {
            return Err(Errno::ArgSize);
        }
        let bytes = copied(message);
        rotate(&mut self.ring);
        self.count -= 1;
        Ok((bytes, self.count > 0))
    }

    /// Drops all messages, and says how many they were.
    pub fn flush(&mut self) -> u64
        ensures dropped { result ≡ length self.old.messages }
        ensures empty { self.new ≡ empty_queue self.old.depth self.old.size }
    {
        let dropped = self.count;
        self.count = 0;
        dropped as u64
    }

    /// The most messages that there may be.
    pub fn depth(&self) -> u16
        ensures { result ≡ self.now.depth }
    {
        self.ring.capacity() as u16
    }

    /// The most bytes of a message.
    pub fn size(&self) -> u16
        ensures { result ≡ self.now.size }
    {
        self.size as u16
    }

    /// How many messages there are.
    pub fn count(&self) -> usize
        ensures { result ≡ length self.now.messages }
    {
        self.count
    }

    /// The first message; none where the queue is empty.
    pub fn first(&self) -> Option<&[u8]>
        ensures first { option_copied result ≡ slice_get self.now.messages 0 }
        ensures limits { IsWithinLimits self.now }
    {
        if self.count == 0 {
            return None;
        }
        self.ring.front().map(|slot| slot.message())
    }

    /// Whether a message of so many bytes could be sent now: else the refusal that it would have.
    pub fn fits(&self, length: u64) -> Result<(), Errno>
        ensures { result_err result ≡ send_refusal self.now length }
    {
        if length > self.size as u64 {
            Err(Errno::ArgSize)
        } else if self.count == self.ring.capacity() {
            Err(Errno::QueueFull)
        } else {
            Ok(())
        }
    }
}
