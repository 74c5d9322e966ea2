//! The machine of all interleavings as it runs: a configuration in tables, and its events.
#![tactic(auto)]

mod acts;
mod boot;
mod call_events;
mod commit;
mod commit_events;
mod config;
mod config_reads;
mod cpu;
mod current;
mod ending;
mod given;
mod giving;
mod holder;
mod holder_events;
mod indices;
mod log;
mod lookups;
mod owing;
mod reads;
mod set_cap;
mod slots_set;
mod stepping;
mod table;
mod turn_events;

pub use config::Config;
pub use current::{CallStage, Came, CurrentCall, GivenCall, MadeCall, SeenLook};
pub use gh_events::Event;
pub use log::Logged;
pub use stepping::step;
