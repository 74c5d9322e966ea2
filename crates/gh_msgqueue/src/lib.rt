//! Message queues: bounded lists of messages of bounded length, whose memory is taken at configure.
#![tactic(auto)]

mod queue;
mod slot;

pub use queue::Queue;
