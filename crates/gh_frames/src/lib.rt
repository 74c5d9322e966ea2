//! Hypercalls from register frames, and the capabilities that a hypercall looks up.
#![tactic(auto)]

mod capabilities;
mod cspace;
mod doorbell;
mod functions;
mod manager;
mod memory;
mod object;
mod queue;
mod read;
mod refusals;

pub use capabilities::needs;
pub use read::read_call;
