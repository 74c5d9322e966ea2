//! Files and frames: worked and hostile ones, with what they are read as, and the real edge.
#![tactic(auto)]

#[cfg(test)]
mod boot_files;
#[cfg(test)]
mod call_files;
#[cfg(test)]
mod frames;
#[cfg(test)]
mod loads_and_puts;
#[cfg(test)]
mod outcome;
