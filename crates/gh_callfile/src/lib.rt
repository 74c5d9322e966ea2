//! Call files and schedules, and the program that a call file is.
#![tactic(auto)]

mod call_file;
mod call_line;
mod exit_call;
mod law;
mod schedule;
mod vm_program;
mod writing_law;

pub use call_file::read_calls;
pub use exit_call::{exit_frame, is_exit};
pub use gh_model::{FileErr, Line};
pub use law::{
    cpus_have_rows, line_read_is_spelled, line_spelled_is_read, program_makes_its_lines,
};
pub use schedule::read_schedule;
pub use vm_program::VmProgram;
pub use writing_law::{
    file_read_is_spelled, file_written_is_read, line_written_is_read, value_written_is_read,
};
