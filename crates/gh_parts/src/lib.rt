//! The locked state: the parts of the hypervisor, which show the rows of the state, and the changes
//! of them in place.
#![tactic(auto)]

mod bells;
mod body;
mod capabilities;
mod counts;
mod cpu_lines;
mod cpus;
mod creation;
mod decided;
mod effects;
mod entries;
mod extent_lines;
mod journal;
mod ledger;
mod ledger_entries;
mod ledger_reads;
mod lines;
mod links;
mod log;
mod make;
mod mappings;
mod memory;
mod memory_reads;
mod moves;
mod object_lines;
mod objects;
mod parts;
mod present;
mod queue_reads;
mod queues;
mod reads;
mod reclaim;
mod referred;
mod reserved;
mod returns;
mod shares;
mod slot_reads;
mod slots;
mod sweep;
mod told;
mod units;

pub use body::Body;
pub use decided::decisions_suit_parts;
pub use effects::{Effects, effects_of, gains, losses};
pub use journal::{Account, Journal, Memory, TAKEN_SLOTS};
pub use ledger::Ledger;
pub use log::{Log, Logged};
pub use parts::Parts;
pub use referred::Referred;
pub use reserved::Reserved;
pub use shares::{Place, Share, Shares};
pub use slots::Slots;
pub use told::entries_are_told;
