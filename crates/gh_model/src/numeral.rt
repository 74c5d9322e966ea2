//! Numerals: lower-case digits without leading zeros.

ghost use Rattle.std.specs.Prelude.{◌≡◌, ◌≤◌, ◌<◌, true, length};
ghost use Rattle.std.specs.List.{list_all};
ghost use Rattle.std.specs.Char.{digit_value};
ghost use Rattle.std.specs.Str.Parse.{digits_value};
ghost use Rattle.gh_model.specs.Numeral.{is_lower_digit, is_digit, is_numeral};
ghost use Rattle.gh_model.specs.Numeral.{has_leading_zero, number_of};

fn is_lower_digit(byte: u8) -> bool
    ensures { result ≡ is_lower_digit byte }
{
    (b'0' <= byte && byte <= b'9') || (b'a' <= byte && byte <= b'f')
}

fn value(digit: u8) -> u64
    requires { is_lower_digit digit ≡ true }
    ensures value { result ≡ digit_value digit }
    ensures range { result < 16 }
{
    if digit <= b'9' {
        (digit - b'0') as u64
    } else {
        (digit - b'a') as u64 + 10
    }
}

fn is_digit(byte: u8, radix: u64) -> bool
    ensures { result ≡ is_digit radix byte }
{
    is_lower_digit(byte) && value(byte) < radix
}

pub fn all_digits(bytes: &[u8], radix: u64) -> bool
    ensures { result ≡ list_all (is_digit radix) bytes.now }
{
    bytes.iter().all(|byte| is_digit(*byte, radix))
}

fn has_leading_zero(word: &[u8]) -> bool
    ensures { result ≡ has_leading_zero word.now }
{
    word.len() > 1 && word[0] == b'0'
}

fn is_numeral(word: &[u8], radix: u64) -> bool
    ensures { result ≡ is_numeral radix word.now }
{
    !word.is_empty() && !has_leading_zero(word) && all_digits(word, radix)
}

/// The number that digits write.
#[tactic(auto, using(crate::proofs::NumeralLemmas::below_with_digit))]
fn digits(word: &[u8], radix: u64) -> u64
    requires radix { radix ≤ 16 }
    requires count { length word.now ≤ 16 }
    requires digits { list_all (is_digit radix) word.now ≡ true }
    ensures { result ≡ digits_value radix word.now }
{
    let mut number = 0;
    for byte in word {
        number = number * radix + value(*byte);
    }
    number
}

/// The number that a word of at most `most` digits writes; none where it isn't a numeral.
pub fn number(word: &[u8], radix: u64, most: usize) -> Option<u64>
    requires radix { radix ≤ 16 }
    requires most { most ≤ 16 }
    ensures { result ≡ number_of radix most word.now }
{
    if word.len() <= most && is_numeral(word, radix) {
        Some(digits(word, radix))
    } else {
        None
    }
}
