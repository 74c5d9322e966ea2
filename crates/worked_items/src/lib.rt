//! Worked histories of calls whose items cross, on the slow machine: where each call stands behind
//! each of its items, and what the calls leave.
#![tactic(auto)]

#[cfg(test)]
mod boots;
#[cfg(test)]
mod copies;
#[cfg(test)]
mod entries;
mod facts;
#[cfg(test)]
mod grace_period;
#[cfg(test)]
mod late_pin;
#[cfg(test)]
mod marks;
#[cfg(test)]
mod names;
#[cfg(test)]
mod new_partition;
#[cfg(test)]
mod pinned_object;
#[cfg(test)]
mod refusals;
#[cfg(test)]
mod revoke;
mod row;
mod walk;
#[cfg(test)]
mod worked;

pub use row::{Behind, Fact, Row, Standing};
pub use walk::run_along;
