//! Changes of message queues.

ghost use Rattle.std.specs.Prelude.{◌≡◌, ◌<◌, OnErr, OnOk};
ghost use Rattle.gh_invariant.specs.Premises.{MaySend};
ghost use Rattle.gh_model.specs.Changes.{configure_queue, drop_message, empty_queue, put_message};
ghost use Rattle.gh_model.specs.Changes.{set_room};
ghost use Rattle.gh_model.specs.declared.change.Change.TheVariants.{ConfigureQueue};
ghost use Rattle.gh_model.specs.declared.state.State.{State};
ghost use Rattle.gh_msgqueue.specs.Queue.{IsConfigurable};
ghost use Rattle.gh_parts.specs.BodyChanges.{on_queue, roomed, sent_to, without_any, without_one};
ghost use Rattle.gh_parts.specs.Making.{CanMake};
ghost use Rattle.gh_parts.specs.Stands.{Stands};

use crate::body::Body;
use crate::parts::Parts;
use gh_base::{MESSAGE_BYTES, NoMemory, Serial};
use gh_msgqueue::Queue;
use std::alloc::Global;

/// A queue's body with its room; any other stays.
fn roomed(room: Queue, body: Body) -> Body
    ensures { result ≡ roomed room body }
{
    match body {
        Body::NewQueue => Body::Queue(room),
        Body::Queue(_) => Body::Queue(room),
        other => other,
    }
}

/// A queue's body with a message more, where it fits; any other stays.
fn sent(message: &[u8], body: Body) -> Body
    ensures { result ≡ on_queue (sent_to message.now) body }
{
    match body {
        Body::Queue(mut queue) => {
            let _ = queue.send(message);
            Body::Queue(queue)
        }
        other => other,
    }
}

/// Drops a queue's first message, if it has one.
fn drop_first(queue: &mut Queue)
    ensures { queue.new ≡ without_one queue.old }
{
    if queue.first().is_some() {
        let _ = queue.receive(MESSAGE_BYTES as u64);
    }
}

/// A queue's body without its first message; any other stays.
fn received(body: Body) -> Body
    ensures { result ≡ on_queue without_one body }
{
    match body {
        Body::Queue(mut queue) => {
            drop_first(&mut queue);
            Body::Queue(queue)
        }
        other => other,
    }
}

/// A queue's body without messages; any other stays.
fn flushed(body: Body) -> Body
    ensures { result ≡ on_queue without_any body }
{
    match body {
        Body::Queue(mut queue) => {
            queue.flush();
            Body::Queue(queue)
        }
        other => other,
    }
}

impl Parts {
    /// A message queue gets its room, which its object's cost holds already.
    pub fn set_room(
        &mut self,
        alloc: Global,
        queue: Serial,
        depth: u16,
        size: u16,
    ) -> Result<(), NoMemory>
        ghost s: { State }
        requires stands { Stands self.old s }
        requires fits { IsConfigurable depth size }
        ensures ok { OnOk result (Stands self.new (set_room queue depth size s)) }
        ensures err { OnErr result (self.new ≡ self.old) }
    {
        let room = Queue::configure(alloc, depth, size)?;
        if let Some(index) = self.index(queue) {
            let body = self.shares.take(index);
            self.shares.put(index, roomed(room, body));
        }
        Ok(())
    }

    /// A message queue gets its room, and costs so many units from now on.
    pub fn configure_queue(
        &mut self,
        alloc: Global,
        queue: Serial,
        depth: u16,
        size: u16,
        cost: u16,
    ) -> Result<(), NoMemory>
        ghost s: { State }
        requires can { CanMake self.old s (ConfigureQueue queue depth size cost) }
        requires fits { IsConfigurable depth size }
        ensures ok { OnOk result (Stands self.new (configure_queue queue depth size cost s)) }
        ensures err { OnErr result (self.new ≡ self.old) }
    {
        self.set_room(alloc, queue, depth, size)?;
        self.cost_more(queue, cost);
        Ok(())
    }

    /// A message goes behind a queue's others. It takes no memory.
    pub fn put_message(&mut self, queue: Serial, message: &[u8])
        ghost s: { State }
        requires stands { Stands self.old s }
        requires fits { MaySend s queue.0 message.now }
        ensures { Stands self.new (put_message queue message.now s) }
    {
        if let Some(index) = self.index(queue) {
            let body = self.shares.take(index);
            self.shares.put(index, sent(message, body));
        }
    }

    /// A queue's first message goes.
    pub fn drop_message(&mut self, queue: Serial)
        ghost s: { State }
        requires { Stands self.old s }
        ensures { Stands self.new (drop_message queue s) }
    {
        if let Some(index) = self.index(queue) {
            let body = self.shares.take(index);
            self.shares.put(index, received(body));
        }
    }

    /// A queue's messages go.
    pub fn empty_queue(&mut self, queue: Serial)
        ghost s: { State }
        requires { Stands self.old s }
        ensures { Stands self.new (empty_queue queue s) }
    {
        if let Some(index) = self.index(queue) {
            let body = self.shares.take(index);
            self.shares.put(index, flushed(body));
        }
    }
}
