//! What an object has beside its header, by its kind.

use gh_addrspace::Space;
use gh_doorbell::Bell;
use gh_model::Span;
use gh_msgqueue::Queue;

/// What stands at an index beside the header.
#[derive(Debug, Drop)]
pub enum Body {
    /// There is no object, or the journal has all of it: a partition or a capability space.
    Nothing,
    Bell(Bell),
    /// A message queue that isn't configured yet.
    NewQueue,
    Queue(Queue),
    Space(Space),
    /// A copy of an extent's span; none before it has one.
    Extent(Option<Span>),
}
