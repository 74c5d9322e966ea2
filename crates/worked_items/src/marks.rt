//! What a finished call tells: its looks, its end and its reply.

use gh_base::{CapWord, CpuNo, End, Held, Look, Mark};

/// A look: the capability number, the place and the word.
pub(crate) type Seen = Option<(u64, u32, CapWord)>;

/// How a call ended.
#[derive(Clone, Copy)]
pub(crate) enum Ended {
    Frame,
    Refused,
    Dead,
    /// Its act refused at this place.
    Act(u32),
    /// Short of units at this place, with the object that was still held, if one was.
    Short(u32, Option<Held>),
    /// With this entry.
    Entry(u32),
}

/// A finished call: its section, its first and second look, its end, and its reply's registers.
pub(crate) type Line = (u64, Seen, Seen, Ended, [u64; 4]);

fn seen(looks: &[Look], at: usize) -> Seen {
    looks.get(at).map(|look| (look.slot, look.place, look.word))
}

fn are_seen(mark: &Mark, first: Seen, second: Seen) -> bool {
    let looks = mark.looks.as_slice();
    seen(looks, 0) == first && seen(looks, 1) == second
}

fn is_held(held: &[Held], wanted: Option<Held>) -> bool {
    match wanted {
        None => held.is_empty(),
        Some(one) => held.len() == 1 && held[0] == one,
    }
}

fn is_end(end: &End, wanted: Ended) -> bool {
    match (end, wanted) {
        (End::Frame, Ended::Frame) => true,
        (End::Refused, Ended::Refused) => true,
        (End::Dead, Ended::Dead) => true,
        (End::Act { place }, Ended::Act(at)) => *place == at,
        (End::Short { place, held }, Ended::Short(at, one)) => {
            *place == at && is_held(held.as_slice(), one)
        }
        (End::Entry { number }, Ended::Entry(wanted)) => *number == wanted,
        _ => false,
    }
}

/// The mark is that of the CPU's call at a place, from 0.
fn is_of(mark: &Mark, at: usize) -> bool {
    mark.number as u128 == at as u128 + 1
}

fn tells(mark: &Mark, line: Line) -> bool {
    let (section, first, second, end, registers) = line;
    mark.section == section
        && are_seen(mark, first, second)
        && is_end(&mark.end, end)
        && mark.reply.x == registers
        && mark.reply.bytes.is_empty()
}

/// The finished calls of a CPU, from its first on, tell just these lines.
pub(crate) fn are_lines(cpu: CpuNo, marks: &[Mark], lines: &[Line]) -> bool {
    let mut at = 0;
    for mark in marks {
        if mark.cpu == cpu {
            if at >= lines.len() || !is_of(mark, at) || !tells(mark, lines[at]) {
                return false;
            }
            at += 1;
        }
    }
    at == lines.len()
}
