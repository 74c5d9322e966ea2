//! How plain words take the turn and free it.

ghost use Rattle.std.specs.Prelude.{◌≡◌, ◌<◌, ◌≤◌, IfOk, OnErr, OnOk, Some};
ghost use Rattle.gh_base.specs.declared.limits.TheConstants.{ACT_ENTRIES, CPUS};
ghost use Rattle.gh_base.specs.declared.ids.CpuNo.{CpuNo};
ghost use Rattle.gh_words.specs.Calls.{KeepsRest};
ghost use Rattle.gh_words.specs.Moved.{May};
ghost use Rattle.gh_words.specs.Shows.{Shows};
ghost use Rattle.gh_words.specs.Turns.{Frees, IsFree, Takes, at_end, freeing, holder_of};

use crate::plain_words::{PlainWords, Turn};
use gh_base::{CpuNo, Frame, Grant, NoMemory, Sequence};
use std::alloc::Global;

/// The turn of a CPU for this call.
fn new_turn(
    alloc: Global,
    cpu: CpuNo,
    number: u32,
    frame: &Frame,
    grants: &[Grant],
) -> Result<Turn, NoMemory>
    ensures { IfOk result (λ turn. turn ≡ record {
      cpu = cpu;
      number = number;
      frame = frame.now;
      grants = grants.now;
    }) }
{
    let bytes = Sequence::from_slice(alloc, frame.bytes.as_slice())?;
    let grants = Sequence::from_slice(alloc, grants)?;
    let frame = Frame { x: frame.x, bytes };
    Ok(Turn {
        cpu,
        number,
        frame,
        grants,
    })
}

impl PlainWords {
    /// The CPU takes the free turn for a call of this number and frame, whose looks granted these.
    /// The room is then at least that of one act.
    pub fn take(
        &mut self,
        alloc: Global,
        cpu: CpuNo,
        number: u32,
        frame: &Frame,
        grants: &[Grant],
    ) -> Result<(), NoMemory>
        requires free { IsFree self.old }
        requires cpu { cpu.0 < CPUS }
        ensures made { OnOk result (Takes self.old self.new cpu number frame.now grants.now) }
        ensures room { OnOk result (ACT_ENTRIES ≤ self.new.log.room) }
        ensures bell { self.new.rings ≡ self.old.rings }
        ensures no_memory { OnErr result (self.new ≡ self.old) }
    {
        let turn = new_turn(alloc, cpu, number, frame, grants)?;
        self.log.reserve()?;
        self.turn = Some(turn);
        Ok(())
    }

    /// The holder, whose act has ended, frees the turn. Its last place is the end of the history.
    pub fn free(&mut self)
        requires { May (Shows self.old) freeing }
        ensures made { Frees self.old self.new }
        ensures free { IsFree self.new }
        ensures rest { KeepsRest self.old self.new }
    {
        self.put_end();
        self.turn = None;
    }

    /// The holder's last place is the end of the history.
    fn put_end(&mut self)
        requires { (holder : CpuNo) → holder_of self.old.turn ≡ Some holder → holder.0 < CPUS }
        ensures { self.new ≡ at_end self.old (holder_of self.old.turn) }
    {
        let place = self.log.len();
        match self.holder() {
            None => (),
            Some(cpu) => self.put_place(cpu, place),
        }
    }

    /// The CPU that has the turn.
    fn holder(&self) -> Option<CpuNo>
        ensures { result ≡ holder_of self.now.turn }
    {
        match &self.turn {
            None => None,
            Some(turn) => Some(turn.cpu),
        }
    }
}
