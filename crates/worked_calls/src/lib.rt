//! Calls of every kind on the slow machine: the parts of a revoke, and a long walk after each call
//! of which all sums are taken anew.
#![tactic(auto)]

#[cfg(test)]
mod boots;
#[cfg(test)]
mod revokes;
#[cfg(test)]
mod session;
#[cfg(test)]
mod walk;
