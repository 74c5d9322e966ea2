//! The definitions of the machine, and the slow machine that is them.
#![tactic(auto)]

mod access;
mod act;
mod bell_calls;
mod boot;
mod boot_changes;
mod boot_line;
mod capability_calls;
mod change;
mod change_lists;
mod copy;
mod cpu_lines;
mod decide;
mod entry;
mod extent_lines;
mod file_err;
mod law;
mod line_changes;
mod lookup;
mod make;
mod manager_calls;
mod memory;
mod memory_calls;
mod nouns;
mod numeral;
mod object_calls;
mod object_changes;
mod object_lines;
mod other_entries;
mod page_changes;
mod pieces;
mod plain;
mod program;
mod queue_calls;
mod queue_changes;
mod reads;
mod references;
mod row_filter;
mod row_reads;
mod rows;
mod slot_lines;
mod slots;
mod state;
mod state_reads;
mod units;
mod word;

pub use access::PageRun;
pub use boot::{Boot, add_line, add_pages, cost_of_queue, empty_state, manager_cspace, vm_count};
pub use boot_line::BootLine;
pub use change::{Change, Decision};
pub use decide::decision;
pub use entry::Entry;
pub use file_err::FileErr;
pub use law::calls_stay_legal;
pub use lookup::{cpu_row, extent_row, object_row};
pub use memory::{Holders, MapRow, Span};
pub use numeral::{all_digits, number};
pub use pieces::split_first;
pub use plain::{Judged, Plain};
pub use program::{Line, Program, Standing, Step};
pub use rows::{
    BellRow, Borrower, CapabilityRow, CpuRow, ExtentRow, LinkRow, MappingRow, ObjectRow, Parcel,
    ParcelKind, PartitionRow, QueueRow, SetAtRow, TakenSlot,
};
pub use state::State;
pub use state_reads::{QueueFill, StateReads};
pub use word::Word;
