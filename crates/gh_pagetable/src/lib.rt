//! The page table of an address space: three levels of tables, with blocks for whole ranges.
#![tactic(auto)]

mod descriptor;
mod entry;
mod law;
mod page_table;
mod table;
mod upper;

pub use descriptor::NUMBERED_PAGES;
pub use law::tables_are_their_answers;
pub use page_table::PageTable;
