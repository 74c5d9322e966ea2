//! Worked histories on the machine of all interleavings, event by event: which events are possible,
//! and what they leave.
#![tactic(auto)]

#[cfg(test)]
mod atomic_step;
#[cfg(test)]
mod boots;
#[cfg(test)]
mod exits;
#[cfg(test)]
mod grace_period;
#[cfg(test)]
mod marks;
#[cfg(test)]
mod names;
#[cfg(test)]
mod revoke_all;
#[cfg(test)]
mod revoke_one;
#[cfg(test)]
mod walk;
