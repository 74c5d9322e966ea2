//! Operations on a doorbell.

use crate::checksum::checksum;
use gh_doorbell::Bell;

/// Sends other flags at each turn.
pub fn send(count: u64) -> u64 {
    let mut bell = Bell::new();
    checksum(count, |turn| bell.send(turn))
}

/// Clears other flags at each turn, of a doorbell whose flags are all set at first.
pub fn receive(count: u64) -> u64 {
    let mut bell = Bell::new();
    bell.send(u64::MAX);
    checksum(count, |turn| bell.receive(turn))
}
