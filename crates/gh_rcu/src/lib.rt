//! Grace periods: whether every CPU that was in a read section has left it since.
#![tactic(auto)]

mod grace;
mod law;

pub use gh_base::{CPUS, Counters};
pub use grace::Grace;
pub use law::grace_law;
