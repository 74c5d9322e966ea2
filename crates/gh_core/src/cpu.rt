//! What a CPU keeps.

ghost use Rattle.std.specs.Prelude.{◌≡◌, IfOk};
ghost use Rattle.gh_core.specs.Running.{cpu_of};
ghost use Rattle.gh_events.specs.Start.{new_cpu};

use crate::current::{CurrentCall, GivenCall, MadeCall};
use gh_base::{NoMemory, Sequence, Serial};
use std::alloc::Global;

/// A pin of a call on a reference word that wasn't dead.
#[derive(Clone, Copy)]
pub struct HeldPin {
    /// The object that the call's look granted.
    pub serial: Serial,
    /// Its index.
    pub index: u64,
}

/// A CPU with its calls and the pins of the last one.
#[derive(Drop)]
pub struct Seat {
    /// The next call, where one is given.
    pub next: Option<GivenCall>,
    pub current: Option<CurrentCall>,
    pub pins: Sequence<HeldPin>,
    pub made: Sequence<MadeCall>,
}

fn copy_of_next(alloc: Global, next: &Option<GivenCall>) -> Result<Option<GivenCall>, NoMemory>
    ensures { IfOk result (λ copy. copy ≡ next.now) }
{
    match next {
        None => Ok(None),
        Some(given) => Ok(Some(given.copied(alloc)?)),
    }
}

fn copy_of_current(
    alloc: Global,
    current: &Option<CurrentCall>,
) -> Result<Option<CurrentCall>, NoMemory>
    ensures { IfOk result (λ copy. copy ≡ current.now) }
{
    match current {
        None => Ok(None),
        Some(call) => Ok(Some(call.copied(alloc)?)),
    }
}

fn copies_of_made(alloc: Global, made: &[MadeCall]) -> Result<Sequence<MadeCall>, NoMemory>
    ensures { IfOk result (λ copy. copy ≡ made.now) }
{
    let mut copy = Sequence::with_room(alloc, made.len())?;
    for call in made {
        copy.push(call.copied(alloc)?)?;
    }
    Ok(copy)
}

impl Seat {
    /// The seat of a CPU before its first call.
    pub(crate) fn new(alloc: Global) -> Seat
        ensures { cpu_of result ≡ new_cpu }
    {
        Seat {
            next: None,
            current: None,
            pins: Sequence::new(alloc),
            made: Sequence::new(alloc),
        }
    }

    pub(crate) fn copied(&self, alloc: Global) -> Result<Seat, NoMemory>
        ensures { IfOk result (λ copy. copy ≡ self.now) }
    {
        let next = copy_of_next(alloc, &self.next)?;
        let current = copy_of_current(alloc, &self.current)?;
        let pins = Sequence::from_slice(alloc, self.pins.as_slice())?;
        let made = copies_of_made(alloc, self.made.as_slice())?;
        Ok(Seat {
            next,
            current,
            pins,
            made,
        })
    }
}
