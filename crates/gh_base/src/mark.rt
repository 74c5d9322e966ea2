//! What is kept of each call: its looks, how it ended, and its reply.

use crate::bounded::BoundedSequence;
use crate::cap_word::Look;
use crate::frame::Reply;
use crate::ids::{CpuNo, Serial};
use crate::sequence::Sequence;

/// Why an object that nobody refers to is still there.
#[derive(Clone, Copy, Debug, PartialEq, Eq)]
pub enum Held {
    /// Calls hold it: the count of its reference word.
    Pins {
        serial: Serial,
        pins: u64,
    },
    /// It is retired, and this CPU has not left the section in which it was then.
    Reading {
        serial: Serial,
        cpu: CpuNo,
        counter: u64,
    },
}

/// How a call ended.
#[derive(Debug, Drop)]
pub enum End {
    /// Its frame was refused.
    Frame,
    /// Its last look was refused.
    Refused,
    /// The object that its last look granted was at its end.
    Dead,
    /// Its act was refused, in the state after so many entries.
    Act { place: u32 },
    /// Its act was refused for want of units, and these objects were still held.
    Short { place: u32, held: Sequence<Held> },
    /// Its act is this entry of the history.
    Entry { number: u32 },
}

/// A finished call.
#[derive(Debug, Drop)]
pub struct Mark {
    pub cpu: CpuNo,
    /// The call's number among those of its CPU, from 1.
    pub number: u32,
    /// The CPU's counter in the section that the call opened; 0 where it opened none.
    pub section: u64,
    pub looks: BoundedSequence<Look, 2>,
    pub end: End,
    pub reply: Reply,
}
