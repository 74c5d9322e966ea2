//! Runs programs on the machine and writes the history text.
#![tactic(auto)]

mod ask;
mod call;
mod law;
mod programs;
mod reply;
mod run;
mod running;
mod text;

pub use law::file_run_is_legal;
pub use run::{Finished, run_step};
pub use text::history_text;
