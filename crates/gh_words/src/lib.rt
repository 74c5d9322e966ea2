//! What the holder of a turn may do with words, and plain words.
#![tactic(auto)]

mod boot;
mod boot_counts;
mod boot_index;
mod calls;
mod holder;
mod law;
mod log;
mod plain_words;
mod references;
mod table;
mod turn;
mod turns;
mod words;

pub use calls::Dead;
pub use law::{
    acts_are_steps, given_calls_stay_shown, lone_acts_are_planned, lone_steps_are_events,
    scans_are_latest, steady_events_stay,
};
pub use log::Log;
pub use plain_words::{CAP_WORDS, PlainWords, ReferenceWord, SLOT_WORDS, Turn};
pub use table::Table;
pub use turns::{make, owe_each, revive_one, scan_all, try_kill};
pub use words::Words;
