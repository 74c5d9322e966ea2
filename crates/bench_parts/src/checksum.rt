//! The one number that stands for all answers of an operation.

/// The sum with one answer more. It depends on the order of the answers.
pub fn folded(sum: u64, answer: u64) -> u64 {
    sum.rotate_left(1) ^ answer
}

/// Makes an operation `count` times, at turns 0, 1 and so on, and folds its answers.
pub fn checksum<F: FnMut(u64) -> u64>(count: u64, mut operation: F) -> u64
    requires { F.IsAlwaysCallable operation }
{
    let mut sum = 0;
    for turn in 0..count {
        sum = folded(sum, operation(turn));
    }
    sum
}
