//! The tree of extents, and for each page of the machine the extent that holds it.
#![tactic(auto)]

mod extents;
mod run_list;
mod runs;

pub use extents::{EXTENT_PAGES, Extents};
