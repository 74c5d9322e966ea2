//! Moves of pages from one extent to another, which every address space follows. No move takes
//! memory.

ghost use Rattle.std.specs.Prelude.{◌≡◌, ◌+◌, ◌<◌, ◌≤◌, length};
ghost use Rattle.gh_model.specs.Changes.{move_run};
ghost use Rattle.gh_model.specs.Memory.{HoldsRun};
ghost use Rattle.gh_model.specs.declared.change.Change.TheVariants.{MovePages};
ghost use Rattle.gh_model.specs.declared.state.State.{State};
ghost use Rattle.gh_parts.specs.Making.{CanMake};
ghost use Rattle.gh_parts.specs.MappingChanges.{Remaps};
ghost use Rattle.gh_parts.specs.PageMoves.{CanMove, Follows, Gives, MovesRun, with_run};
ghost use Rattle.gh_parts.specs.Stands.{Stands, page_holders};

use crate::body::Body;
use crate::journal::Memory;
use crate::parts::Parts;
use gh_base::{PageNo, Serial};

/// An address space's body follows a run of pages that moved; any other stays.
pub(crate) fn follow(body: &mut Body, from: Serial, to: Serial, first: u16, count: u16)
    ensures { Remaps (Follows from.0 to first count) body.old body.new }
{
    match body {
        Body::Space(space) => space.moved(from, to, PageNo(first), count),
        _ => {}
    }
}

/// The holder of a page, and how many pages from it on, `most` at most, it holds without a gap.
fn run_at(memory: &Memory, first: u16, most: u16) -> (Serial, u16)
    requires some { 0 < most }
    requires within { first + most ≤ length (page_holders memory.now) }
    ensures some { 0 < result.1 }
    ensures most { result.1 ≤ most }
    ensures held { HoldsRun (page_holders memory.now) result.0.0 first result.1 }
{
    match memory {
        Memory::Bare(_) => (Serial(0), most),
        Memory::Held(extents) => extents.run_at(PageNo(first), most),
    }
}

/// Gives a run of pages that the one extent holds to the other.
fn give_run(memory: &mut Memory, from: Serial, to: Serial, first: u16, count: u16)
    requires { Gives memory.old from.0 to.0 first count }
    ensures { memory.new ≡ with_run first count to memory.old }
{
    match memory {
        Memory::Bare(_) => {}
        Memory::Held(extents) => extents.move_run(from, to, PageNo(first), count),
    }
}

impl Parts {
    /// Moves a run of pages that the one extent holds to the other.
    fn move_run(&mut self, from: Serial, to: Serial, first: u16, count: u16)
        requires { Gives self.old.journal.memory from.0 to.0 first count }
        ensures { MovesRun from.0 to first count self.old self.new }
    {
        self.shares.follow_run(from, to, first, count);
        give_run(&mut self.journal.memory, from, to, first, count);
    }

    /// Moves the next pages of a run, of which so many are done: as many as one extent holds.
    /// Answers how many they were.
    fn move_next(&mut self, first: u16, done: u16, count: u16, holder: Serial) -> u16
        ghost s: { State }
        requires stands { Stands self.old (move_run first done holder s) }
        requires left { done < count }
        requires can { CanMove s first count holder }
        ensures some { 0 < result }
        ensures most { done + result ≤ count }
        ensures moved { Stands self.new (move_run first (done + result) holder s) }
    {
        let (from, pages) = run_at(&self.journal.memory, first + done, count - done);
        self.move_run(from, holder, first + done, pages);
        pages
    }

    /// A run of pages gets another holder. It looks at the places of the shares that have an
    /// address space, once for each extent that held pages of the run.
    pub fn move_pages(&mut self, first: u16, count: u16, holder: Serial)
        ghost s: { State }
        requires { CanMake self.old s (MovePages first count holder) }
        ensures { Stands self.new (move_run first count holder s) }
    {
        let mut done = 0;
        while done < count {
            done += self.move_next(first, done, count, holder);
        }
    }
}
