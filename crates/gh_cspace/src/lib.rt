//! A capability space: a finite map from capability numbers to capability words.
#![tactic(auto)]

mod cspace;
mod words;

pub use cspace::Cspace;
