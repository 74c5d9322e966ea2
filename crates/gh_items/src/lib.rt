//! The items of calls, made on the slow machine as a schedule asks for them.
#![tactic(auto)]

mod act_item;
mod beginning;
mod call_items;
mod calling;
mod causes;
mod end;
mod frame_item;
mod judge;
mod leave_item;
mod look_item;
mod new_index;
mod parts;
mod progress;
mod section;
mod stage_items;
mod sweep;
mod sweep_object;
mod sweep_reads;
mod swept_act;

pub use beginning::begin_run;
pub use calling::{begin_call, next_item};
pub use progress::{Progress, Seat};
