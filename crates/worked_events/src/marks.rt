//! What a finished call tells: its looks, its end and its reply.

use gh_base::{CapWord, CpuNo, End, Held, Look, Mark};
use gh_core::MadeCall;

/// A look: the capability number, the place and the word.
pub(crate) type Seen = Option<(u64, u32, CapWord)>;

/// How a call ended.
#[derive(Clone, Copy)]
pub(crate) enum Ended {
    Refused,
    Dead,
    /// Short of units at this place, with the one object that was still held.
    Short(u32, Held),
    /// With this entry.
    Entry(u32),
}

/// A finished call: its section, its first and second look, its end, and the registers of its
/// reply.
pub(crate) type Line = (u64, Seen, Seen, Ended, [u64; 4]);

fn seen(looks: &[Look], at: usize) -> Seen {
    looks.get(at).map(|look| (look.slot, look.place, look.word))
}

fn are_seen(mark: &Mark, first: Seen, second: Seen) -> bool {
    let looks = mark.looks.as_slice();
    seen(looks, 0) == first && seen(looks, 1) == second
}

fn is_held(held: &[Held], wanted: Held) -> bool {
    held.len() == 1 && held[0] == wanted
}

fn is_end(end: &End, wanted: Ended) -> bool {
    match (end, wanted) {
        (End::Refused, Ended::Refused) => true,
        (End::Dead, Ended::Dead) => true,
        (End::Short { place, held }, Ended::Short(at, wanted)) => {
            *place == at && is_held(held.as_slice(), wanted)
        }
        (End::Entry { number }, Ended::Entry(wanted)) => *number == wanted,
        _ => false,
    }
}

/// The mark is that of this CPU's call at a place, from 0.
fn is_of(mark: &Mark, cpu: CpuNo, at: usize) -> bool {
    mark.cpu == cpu && mark.number as u128 == at as u128 + 1
}

fn tells(mark: &Mark, line: Line) -> bool {
    let (section, first, second, end, registers) = line;
    mark.section == section
        && are_seen(mark, first, second)
        && is_end(&mark.end, end)
        && mark.reply.x == registers
        && mark.reply.bytes.is_empty()
}

/// These finished calls of a CPU, from its first on, tell just these lines.
pub(crate) fn are_lines(cpu: CpuNo, made: &[MadeCall], lines: &[Line]) -> bool {
    if made.len() != lines.len() {
        return false;
    }
    for (at, call) in made.iter().enumerate() {
        if !is_of(&call.mark, cpu, at) || !tells(&call.mark, lines[at]) {
            return false;
        }
    }
    true
}
