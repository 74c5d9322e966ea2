//! Boot files: their grammar, and how they are read and written.
#![tactic(auto)]

mod draft;
mod fits;
mod fits_cpus;
mod fits_memory;
mod keyword;
mod laws;
mod line;
mod mappings;
mod number;
mod parts;
mod read;
mod write;

pub use gh_model::FileErr;
pub use laws::{
    bad_line_is_the_first, read_file_is_its_text, read_line_is_its_text, text_of_file_is_read,
    text_of_line_is_read,
};
pub use read::read_boot;
pub use write::write_boot;
