//! Worked steps on plain words.
#![tactic(auto)]

#[cfg(test)]
mod boot_words;
