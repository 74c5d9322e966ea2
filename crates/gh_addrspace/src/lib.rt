//! An address space: its mapping rows, and the page table that shows them.
#![tactic(auto)]

mod law;
mod mapping;
mod pages;
mod space;
mod spaces;

pub use law::spaces_are_their_rows;
pub use mapping::{Chosen, Mapping};
pub use space::Space;
pub use spaces::Spaces;
