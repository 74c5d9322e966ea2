//! Worked values of the parts below the locked state, and each call of theirs that takes memory.
#![tactic(auto)]

#[cfg(test)]
mod address_space;
#[cfg(test)]
mod base;
#[cfg(test)]
mod capability_space;
#[cfg(test)]
mod doorbell;
#[cfg(test)]
mod extents;
#[cfg(test)]
mod fragments;
#[cfg(test)]
mod grace_period;
#[cfg(test)]
mod message_queue;
#[cfg(test)]
mod objects;
#[cfg(test)]
mod outcome;
#[cfg(test)]
mod page_table;
#[cfg(test)]
mod partition;
#[cfg(test)]
mod requests;
