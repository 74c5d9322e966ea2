//! The machine of all interleavings: its configurations, its events, one atomic step each, and what
//! every list of possible events keeps.
#![tactic(auto)]

mod bounds;
mod calls;
mod entries;
mod event;
mod grace;
mod references;
mod rising;
mod sound;
mod start;
mod validity;
mod words;

pub use bounds::{events_keep_bounded, objects_are_bounded, start_is_bounded};
pub use calls::{
    enter_keeps_calls, free_keeps_calls, leave_keeps_calls, look_keeps_calls, pin_keeps_calls,
    quit_keeps_calls, take_keeps_calls, undo_keeps_calls, unpin_keeps_calls, words_keep_calls,
};
pub use entries::{
    boot_file_has_references, commit_keeps_references, events_keep_state, set_cap_keeps_references,
    start_has_state,
};
pub use event::Event;
pub use grace::{
    commit_keeps_grace, enter_keeps_grace, entries_spare_grants, entry_counters_fit,
    events_keep_grace, free_keeps_grace, given_call_keeps_grace, kill_keeps_grace,
    leave_keeps_grace, look_keeps_grace, owe_keeps_grace, pin_keeps_grace, revive_keeps_grace,
    scan_keeps_grace, seats_keep_grace, set_cap_keeps_grace, start_has_grace, take_keeps_grace,
    undo_keeps_grace, unpin_keeps_grace,
};
pub use references::{
    end_keeps_references, enter_keeps_references, given_call_keeps_references,
    kill_keeps_references, leave_keeps_references, look_keeps_references, owe_keeps_references,
    pin_keeps_references, quit_keeps_references, revive_keeps_references, scan_keeps_references,
    seats_keep_references, settle_keeps_references, take_keeps_references, undo_keeps_references,
    unpin_keeps_references,
};
pub use rising::{held_rise, objects_rise};
pub use sound::{
    counts_fit, events_keep_sound, given_call_keeps_sound, granted_objects_stay,
    histories_are_short, indices_stay, looks_find_present, reclaims_spare_calls,
    references_are_few, rest_is_graced, rest_is_legal, revived_index_is_free, runs_are_bounded,
    runs_are_sound, start_is_sound, words_count_references,
};
pub use start::start_has_references;
pub use validity::{events_keep_validity, given_call_keeps_validity, start_is_valid};
pub use words::{commit_keeps_words, events_keep_words, start_shows_words};
