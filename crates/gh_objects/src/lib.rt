//! The live objects: headers by index, reference counts, and which objects are doomed or retired.
#![tactic(auto)]

mod count;
mod counts;
mod header;
mod headers;
mod kinds;
mod law;
mod names;
mod objects;
mod partitions;
mod rising;
mod table;

pub use count::Count;
pub use counts::Counts;
pub use header::Header;
pub use headers::Headers;
pub use law::{
    change_changes_one_count, insert_leaves_others, remove_clears_one_index,
    stage_changes_one_header,
};
pub use objects::Objects;
