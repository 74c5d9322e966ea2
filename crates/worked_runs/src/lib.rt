//! Worked calls of every kind under `step`: what each answers, and what it leaves.
#![tactic(auto)]

#[cfg(test)]
mod boots;
#[cfg(test)]
mod capabilities;
#[cfg(test)]
mod doorbells;
#[cfg(test)]
mod histories;
#[cfg(test)]
mod memory;
#[cfg(test)]
mod objects;
#[cfg(test)]
mod queues;
#[cfg(test)]
mod run;
#[cfg(test)]
mod schedules;
