//! A line of a call file.

ghost use Rattle.std.specs.Prelude.{◌≡◌, ◌≤◌, [], Some};
ghost use Rattle.std.specs.Prelude.{length, slice_get, count_by, IfOk};
ghost use Rattle.std.specs.List.{prefix_len, slice_split};
ghost use Rattle.gh_callfile.specs.Grammar.{is_space, is_register, register_written};
ghost use Rattle.gh_callfile.specs.Grammar.{repeat_of, is_bytes, bytes_of, is_mark, one_part};
ghost use Rattle.gh_callfile.specs.Grammar.{two_parts, tail_of, registers_of, line_with};
ghost use Rattle.gh_callfile.specs.Grammar.{line_behind, line_of_words, line_of, texts_of};

use gh_base::{Frame, NoMemory, Sequence};
use gh_model::{Line, all_digits, number};
use hex::FromHexError;
use std::alloc::{AllocError, Global};

/// The most digits of a line's bytes.
const BYTES_DIGITS: usize = 29_240;

/// The most times that a line is made.
const MOST_TIMES: u64 = 65_536;

/// The most spaces of a line: before eight registers, two marks, bytes and a repeat.
const MOST_SPACES: usize = 12;

fn is_register(word: &[u8]) -> bool
    ensures { result ≡ is_register word.now }
{
    number(word, 16, 16).is_some()
}

/// The register at this place; 0 where it isn't written.
fn register_at(words: &[&[u8]], at: usize) -> u64
    ensures { result ≡ register_written (slice_get (texts_of words.now) at) }
{
    match words.get(at) {
        None => 0,
        Some(word) => number(word, 16, 16).unwrap_or(0),
    }
}

fn registers(words: &[&[u8]]) -> [u64; 9]
    ensures { result ≡ registers_of (texts_of words.now) }
{
    [
        register_at(words, 0),
        register_at(words, 1),
        register_at(words, 2),
        register_at(words, 3),
        register_at(words, 4),
        register_at(words, 5),
        register_at(words, 6),
        register_at(words, 7),
        register_at(words, 8),
    ]
}

/// How many registers stand before the first word that is none.
fn count_registers(words: &[&[u8]]) -> usize
    ensures count { result ≡ prefix_len is_register (texts_of words.now) }
    ensures within { result ≤ length words.now }
{
    let mut count = 0;
    for word in words {
        if !is_register(word) {
            return count;
        }
        count += 1;
    }
    count
}

/// How often a line is made; none where the word says no such number.
fn repeat(word: &[u8]) -> Option<u32>
    ensures { result ≡ repeat_of word.now }
{
    match number(word, 10, 5) {
        Some(times) if 1 <= times && times <= MOST_TIMES => Some(times as u32),
        _ => None,
    }
}

fn is_bytes(word: &[u8]) -> bool
    ensures { result ≡ is_bytes word.now }
{
    2 <= word.len() && word.len() <= BYTES_DIGITS && word.len() % 2 == 0 && all_digits(word, 16)
}

/// The bytes that a word writes; none where it isn't of their form.
fn bytes(alloc: Global, word: &[u8]) -> Result<Option<Sequence<u8>>, NoMemory>
    ensures { IfOk result (λ bytes. bytes ≡ bytes_of word.now) }
{
    if !is_bytes(word) {
        return Ok(None);
    }
    match hex::decode(alloc, word) {
        Ok(bytes) => Ok(Some(Sequence::from_vec(bytes))),
        Err(FromHexError::OutOfMemory) => Err(NoMemory),
        Err(_) => Ok(None),
    }
}

fn is_mark(word: &[u8], mark: u8) -> bool
    ensures { result ≡ is_mark mark word.now }
{
    word.len() == 1 && word[0] == mark
}

fn line(x: [u64; 9], bytes: Sequence<u8>, times: Option<u32>) -> Option<Line>
    ensures { result ≡ line_with x (Some bytes) times }
{
    match times {
        None => None,
        Some(times) => Some(Line {
            frame: Frame { x, bytes },
            times,
        }),
    }
}

fn line_with_bytes(
    alloc: Global,
    x: [u64; 9],
    word: &[u8],
    times: Option<u32>,
) -> Result<Option<Line>, NoMemory>
    ensures { IfOk result (λ line. line ≡ line_with x (bytes_of word.now) times) }
{
    match bytes(alloc, word)? {
        None => Ok(None),
        Some(bytes) => Ok(line(x, bytes, times)),
    }
}

/// The line of nine registers with bytes or a repeat.
fn line_with_one(
    alloc: Global,
    x: [u64; 9],
    mark: &[u8],
    word: &[u8],
) -> Result<Option<Line>, NoMemory>
    ensures { IfOk result (λ line. line ≡ line_behind x (one_part mark.now word.now)) }
{
    if is_mark(mark, b':') {
        line_with_bytes(alloc, x, word, Some(1))
    } else if is_mark(mark, b'*') {
        Ok(line(x, Sequence::new(alloc), repeat(word)))
    } else {
        Ok(None)
    }
}

/// The line of nine registers with bytes and a repeat.
fn line_with_two(
    alloc: Global,
    x: [u64; 9],
    colon: &[u8],
    bytes: &[u8],
    star: &[u8],
    times: &[u8],
) -> Result<Option<Line>, NoMemory>
    ensures { IfOk result (λ line.
        line ≡ line_behind x (two_parts colon.now bytes.now star.now times.now)) }
{
    if is_mark(colon, b':') && is_mark(star, b'*') {
        line_with_bytes(alloc, x, bytes, repeat(times))
    } else {
        Ok(None)
    }
}

/// The line of nine registers and the words behind them.
fn line_behind(alloc: Global, x: [u64; 9], tail: &[&[u8]]) -> Result<Option<Line>, NoMemory>
    ensures { IfOk result (λ line. line ≡ line_behind x (tail_of (texts_of tail.now))) }
{
    if tail.is_empty() {
        return Ok(line(x, Sequence::new(alloc), Some(1)));
    }
    match tail {
        [mark, word] => line_with_one(alloc, x, mark, word),
        [colon, bytes, star, times] => line_with_two(alloc, x, colon, bytes, star, times),
        _ => Ok(None),
    }
}

fn line_of_words(alloc: Global, words: &[&[u8]]) -> Result<Option<Line>, NoMemory>
    ensures { IfOk result (λ line. line ≡ line_of_words (texts_of words.now)) }
{
    let count = count_registers(words);
    if 1 <= count && count <= 9 {
        let (front, tail) = words.split_at(count);
        line_behind(alloc, registers(front), tail)
    } else {
        Ok(None)
    }
}

fn count_spaces(text: &[u8]) -> usize
    ensures { result ≡ count_by is_space text.now }
{
    text.iter().filter(|byte| **byte == b' ').count()
}

/// The words between spaces.
fn words(alloc: Global, text: &[u8]) -> Result<Vec<&[u8]>, AllocError>
    ensures { IfOk result (λ words. texts_of words.items ≡ slice_split is_space text.now) }
{
    text.split(|byte| *byte == b' ').collect(alloc)
}

/// What a line says, its line feed aside; none where it isn't a call line.
pub(crate) fn call_line(alloc: Global, text: &[u8]) -> Result<Option<Line>, NoMemory>
    ensures { IfOk result (λ line. line ≡ line_of text.now) }
{
    if count_spaces(text) > MOST_SPACES {
        return Ok(None);
    }
    let words = words(alloc, text)?;
    line_of_words(alloc, words.as_slice())
}
