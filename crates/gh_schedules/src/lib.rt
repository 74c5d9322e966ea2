//! Schedules of the machine's events: the items of a call, each a list of events that is possible
//! where its turn comes, and the runs that programs make.
#![tactic(auto)]

mod course;
mod items;

pub use course::{courses_are_runs, courses_are_sound, courses_end, interleavings_are_runs};
pub use items::{
    acts_are_possible, boot_objects_have_indices, call_items_are_possible, given_call_keeps_steady,
    items_are_items, items_are_possible, starts_are_steady, sweeps_are_possible, traces_keep_sound,
};
