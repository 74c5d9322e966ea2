//! Operations on the units of a partition.

use crate::checksum::checksum;
use gh_partition::Partition;

/// Units of the partition.
const QUOTA: u16 = 128;

/// So many units at each turn, 0 to 15.
fn units_of(turn: u64) -> u16 {
    (turn % 16) as u16
}

fn take_or_put_back(partition: &mut Partition, units: u16) -> u64 {
    match partition.take(units) {
        Ok(()) => units as u64,
        Err(short) => {
            let (used, _, _) = partition.units();
            partition.put_back(used);
            short.free as u64
        }
    }
}

fn give_or_take_back(partition: &mut Partition, units: u16) -> u64 {
    match partition.give(units) {
        Ok(()) => units as u64,
        Err(short) => {
            let (_, _, given) = partition.units();
            partition.take_back(given);
            short.free as u64
        }
    }
}

/// Takes units, and puts all of them back once too few are free.
pub fn take(count: u64) -> u64 {
    let mut partition = Partition::new(QUOTA);
    checksum(
        count,
        |turn| take_or_put_back(&mut partition, units_of(turn)),
    )
}

/// Gives units away, and takes all of them back once too few are free.
pub fn give(count: u64) -> u64 {
    let mut partition = Partition::new(QUOTA);
    checksum(
        count,
        |turn| give_or_take_back(&mut partition, units_of(turn)),
    )
}
