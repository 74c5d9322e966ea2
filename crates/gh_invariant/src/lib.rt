//! What every state of the machine keeps, and what each change of the state does to references,
//! units and words.
#![tactic(auto)]

mod boot;
mod decision;
mod entries;
mod events;
mod facts;
mod histories;
mod references;
mod taken;
mod units;
mod validity;
mod words;

pub use boot::{
    boot_changes_make_boot, boot_is_unused, boot_is_valid, boot_references_are_gains,
    boot_units_are_taken,
};
pub use decision::{decisions_give_to_referred, decisions_may_be_made};
pub use entries::{act_keeps_valid, entries_keep_valid, entry_begins};
pub use events::{doomed_stays_doomed, events_keep_valid};
pub use facts::{
    capability_names_living, event_leaves_words, event_numbers_its_slot, event_sets_one_slot,
    found_grants_fit, kinds_stay, link_names_living, new_object_has_one_reference,
    running_cpu_names_living, states_stay,
};
pub use histories::{doomed_for_ever, histories_keep_valid};
pub use references::{
    change_moves_references, changes_move_references, doomed_stays, only_living_referenced,
};
pub use taken::taken_are_parts;
pub use units::{change_moves_units, changes_move_units};
pub use validity::{change_keeps_valid, changes_keep_valid};
pub use words::{change_sets_word, words_stand, words_stay};
