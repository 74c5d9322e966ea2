//! What the history text tells of a run. The functions do nothing; their clauses are the laws.
#![tactic(auto)]

mod law;

pub use law::{call_lines_determine, entry_words_determine, text_determines};
