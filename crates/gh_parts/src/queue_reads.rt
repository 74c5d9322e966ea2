//! What message queues and links tell of the rows.

ghost use Rattle.std.specs.Prelude.{◌≡◌, IfOk, find};
ghost use Rattle.gh_model.specs.ManagerCalls.{has_messages, is_link_for, vm_requests};
ghost use Rattle.gh_model.specs.QueueCalls.{first_message as first_message_of, queue_fill};
ghost use Rattle.gh_model.specs.Rows.{is_queue};
ghost use Rattle.gh_model.specs.declared.state.State.{State};
ghost use Rattle.gh_parts.specs.QueueReads.{fill_in, first_in, has_some};
ghost use Rattle.gh_parts.specs.Reading.{IsReadable};
ghost use Rattle.gh_parts.specs.Stands.{Stands};

use crate::body::Body;
use crate::parts::Parts;
use gh_base::{NoMemory, Sequence, Serial};
use gh_model::{LinkRow, QueueFill};
use gh_msgqueue::Queue;
use std::alloc::Global;

/// How full a queue's body is; none of any other.
fn fill_of(body: &Body) -> Option<QueueFill>
    ensures { result ≡ fill_in body.now }
{
    match body {
        Body::NewQueue => Some(QueueFill {
            depth: 0,
            size: 0,
            count: 0,
        }),
        Body::Queue(queue) => Some(QueueFill {
            depth: queue.depth(),
            size: queue.size(),
            count: queue.count(),
        }),
        _ => None,
    }
}

/// A copy of a queue's first message; none where the queue is empty.
fn first_copy(alloc: Global, queue: &Queue) -> Result<Option<Sequence<u8>>, NoMemory>
    ensures { IfOk result (λ message. message ≡ first_in (Body.Queue queue.now)) }
{
    match queue.first() {
        None => Ok(None),
        Some(message) => {
            let copy = Sequence::from_slice(alloc, message)?;
            Ok(Some(copy))
        }
    }
}

/// A copy of the first message of a queue's body; none of any other.
fn first_of(alloc: Global, body: &Body) -> Result<Option<Sequence<u8>>, NoMemory>
    ensures { IfOk result (λ message. message ≡ first_in body.now) }
{
    match body {
        Body::Queue(queue) => first_copy(alloc, queue),
        _ => Ok(None),
    }
}

/// Whether the body is that of a queue with a message.
fn has_some(body: &Body) -> bool
    ensures { result ≡ has_some body.now }
{
    match body {
        Body::Queue(queue) => queue.count() > 0,
        _ => false,
    }
}

/// The link of a VM.
fn link_of(links: &[LinkRow], vm: u8) -> Option<LinkRow>
    ensures { result ≡ find (is_link_for vm) links.now }
{
    links.iter().copied().find(|link| link.vm.0 == vm)
}

impl Parts {
    /// How full a queue is, by a binary search for it.
    pub fn queue(&self, queue: Serial) -> Option<QueueFill>
        requires { IsReadable self.now }
        ensures { (s : State) → Stands self.now s → result ≡ queue_fill s queue }
    {
        match self.index(queue) {
            None => None,
            Some(index) => fill_of(self.shares.body(index)),
        }
    }

    /// A copy of a queue's first message, by a binary search for the queue.
    pub fn first_message(
        &self,
        alloc: Global,
        queue: Serial,
    ) -> Result<Option<Sequence<u8>>, NoMemory>
        requires { IsReadable self.now }
        ensures { (s : State) → Stands self.now s
            → IfOk result (λ message. message ≡ first_message_of s queue) }
    {
        match self.index(queue) {
            None => Ok(None),
            Some(index) => first_of(alloc, self.shares.body(index)),
        }
    }

    /// Whether a queue has a message.
    fn has_messages(&self, queue: Serial) -> bool
        requires { IsReadable self.now }
        ensures { (s : State) → Stands self.now s
            → result ≡ has_messages (find (is_queue queue.0) s.queues) }
    {
        match self.index(queue) {
            None => false,
            Some(index) => has_some(self.shares.body(index)),
        }
    }

    /// Whether the VM is linked, and its request queue has messages.
    pub fn vm_requests(&self, vm: u8) -> bool
        requires { IsReadable self.now }
        ensures { (s : State) → Stands self.now s → result ≡ vm_requests s vm }
    {
        match link_of(self.journal.links.as_slice(), vm) {
            None => false,
            Some(link) => self.has_messages(link.request),
        }
    }
}
