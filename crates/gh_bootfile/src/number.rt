//! The numbers of a line.

ghost use Rattle.std.specs.Prelude.{◌≡◌, [], Some, None, if◌then◌else◌};
ghost use Rattle.std.specs.Option.{option_map};
ghost use Rattle.gh_model.specs.Pieces.{pieces_left};
ghost use Rattle.gh_bootfile.specs.Reading.{number_of, numbers_on, with_number};

use gh_base::BoundedSequence;
use gh_model::{number as decimal, split_first};

/// No line has more numbers.
const NUMBERS: usize = 7;

pub(crate) type Numbers = BoundedSequence<u32, NUMBERS>;

/// The number that a text is; none where it has over 32 bits.
fn number(text: &[u8]) -> Option<u32>
    ensures { result ≡ number_of text.now }
{
    match decimal(text, 10, 10) {
        Some(value) if value <= u32::MAX as u64 => Some(value as u32),
        _ => None,
    }
}

/// Puts one number more behind those so far, and says whether there was one, and room for it.
fn put_number(numbers: &mut Numbers, number: Option<u32>) -> bool
    ensures { (if result then Some numbers.new else None) ≡ with_number numbers.old number }
{
    match number {
        Some(number) if numbers.len() < NUMBERS => {
            numbers.push(number);
            true
        }
        _ => false,
    }
}

/// The numbers that the words of a text are.
pub(crate) fn numbers(words: Option<&[u8]>) -> Option<Numbers>
    ensures { result ≡ numbers_on [] (pieces_left 32 (option_map (λ text. text.now) words.entry)) }
{
    let mut numbers = BoundedSequence::new();
    let mut left = words;
    while let Some(text) = left {
        let (word, rest) = split_first(text, b' ');
        if !put_number(&mut numbers, number(word)) {
            return None;
        }
        left = rest;
    }
    Some(numbers)
}
