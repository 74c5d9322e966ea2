//! Calls that are given, in progress and finished.

ghost use Rattle.std.specs.Prelude.{◌≡◌, ◌≤◌, length, map, IfOk};
ghost use Rattle.gh_core.specs.Running.{came_of, current_of, seen_of};
ghost use Rattle.gh_events.specs.Config.{came_to};
ghost use Rattle.gh_model.specs.Marks.{outcome, word_of};

use gh_base::{
    BoundedSequence, Call, End, Errno, Frame, Look, Mark, MessageBytes, Need, NoMemory, Reply,
    Sequence,
};
use gh_frames::needs;
use gh_model::Word;
use std::alloc::Global;

/// A call that a CPU is given: its number, its frame, and what the frame asks.
#[derive(Drop)]
pub struct GivenCall {
    pub number: u32,
    pub frame: Frame,
    pub call: Call,
}

/// A look of a call, and the word that it found.
#[derive(Clone, Copy, Default)]
pub struct SeenLook {
    pub look: Look,
    pub word: Word,
}

/// How far a call in progress has come.
#[derive(Clone, Copy)]
pub enum CallStage {
    /// In its section: its looks so far are grants, each with its pin.
    Reading,
    /// Its last look is a grant without a pin.
    Looked,
    /// Its last look is a grant whose pin is on a dead word.
    DeadPin,
    /// That pin is undone.
    Undone,
    /// Its last look was refused.
    Failed,
    /// It waits for its act, its section left or none opened.
    AtAct,
}

/// A call in progress.
#[derive(Drop)]
pub struct CurrentCall {
    pub given: GivenCall,
    /// The CPU's counter in its section; 0 where it opens none.
    pub section: u64,
    pub seen: BoundedSequence<SeenLook, 2>,
    pub stage: CallStage,
}

/// A finished call.
#[derive(Drop)]
pub struct MadeCall {
    pub mark: Mark,
    pub frame: Frame,
    pub seen: BoundedSequence<SeenLook, 2>,
}

/// A copy of at most two items.
pub(crate) fn copy_of_two<T: Copy + Default + Drop>(
    items: &BoundedSequence<T, 2>,
) -> BoundedSequence<T, 2>
    ensures { result ≡ items.now }
{
    let count = items.len();
    let slice = items.as_slice();
    prove!(count <= 2);
    BoundedSequence::from_slice(slice)
}

/// A copy of a frame.
pub(crate) fn copy_of_frame(alloc: Global, frame: &Frame) -> Result<Frame, NoMemory>
    ensures { IfOk result (λ copy. copy ≡ frame.now) }
{
    Ok(Frame {
        x: frame.x,
        bytes: Sequence::from_slice(alloc, frame.bytes.as_slice())?,
    })
}

fn copy_of_reply(alloc: Global, reply: &Reply) -> Result<Reply, NoMemory>
    ensures { IfOk result (λ copy. copy ≡ reply.now) }
{
    Ok(Reply {
        x: reply.x,
        bytes: MessageBytes::from_slice(alloc, reply.bytes.as_slice())?,
    })
}

fn copy_of_end(alloc: Global, end: &End) -> Result<End, NoMemory>
    ensures { IfOk result (λ copy. copy ≡ end.now) }
{
    match end {
        End::Frame => Ok(End::Frame),
        End::Refused => Ok(End::Refused),
        End::Dead => Ok(End::Dead),
        End::Act { place } => Ok(End::Act { place: *place }),
        End::Short { place, held } => {
            let held = Sequence::from_slice(alloc, held.as_slice())?;
            Ok(End::Short {
                place: *place,
                held,
            })
        }
        End::Entry { number } => Ok(End::Entry { number: *number }),
    }
}

fn copy_of_mark(alloc: Global, mark: &Mark) -> Result<Mark, NoMemory>
    ensures { IfOk result (λ copy. copy ≡ mark.now) }
{
    let end = copy_of_end(alloc, &mark.end)?;
    let reply = copy_of_reply(alloc, &mark.reply)?;
    Ok(Mark {
        cpu: mark.cpu,
        number: mark.number,
        section: mark.section,
        looks: copy_of_two(&mark.looks),
        end,
        reply,
    })
}

impl GivenCall {
    pub(crate) fn copied(&self, alloc: Global) -> Result<GivenCall, NoMemory>
        ensures { IfOk result (λ copy. copy ≡ self.now) }
    {
        let frame = copy_of_frame(alloc, &self.frame)?;
        Ok(GivenCall {
            number: self.number,
            frame,
            call: self.call,
        })
    }
}

impl CurrentCall {
    pub(crate) fn copied(&self, alloc: Global) -> Result<CurrentCall, NoMemory>
        ensures { IfOk result (λ copy. copy ≡ self.now) }
    {
        let given = self.given.copied(alloc)?;
        Ok(CurrentCall {
            given,
            section: self.section,
            seen: copy_of_two(&self.seen),
            stage: self.stage,
        })
    }
}

impl MadeCall {
    pub(crate) fn copied(&self, alloc: Global) -> Result<MadeCall, NoMemory>
        ensures { IfOk result (λ copy. copy ≡ self.now) }
    {
        let mark = copy_of_mark(alloc, &self.mark)?;
        let frame = copy_of_frame(alloc, &self.frame)?;
        Ok(MadeCall {
            mark,
            frame,
            seen: copy_of_two(&self.seen),
        })
    }
}

/// What the looks of a call came to.
#[derive(Clone, Copy)]
pub enum Came {
    /// One more is wanted, at this slot.
    Wants { slot: u64, need: Need },
    /// The last was refused.
    Fails { errno: Errno },
    /// Every need has its grant.
    Grants,
}

/// What looks for these needs came to; those beyond the needs are passed over.
pub(crate) fn outcome(needs: &[(u64, Need)], seen: &[SeenLook]) -> Came
    ensures { came_of result ≡ outcome needs.now (map word_of (map seen_of seen.now)) }
{
    for at in 0..needs.len() {
        let (slot, need) = needs[at];
        match seen.get(at) {
            None => return Came::Wants { slot, need },
            Some(look) => {
                if let Err(errno) = look.word.reply(need) {
                    return Came::Fails { errno };
                }
            }
        }
    }
    Came::Grants
}

impl CurrentCall {
    /// What its looks came to.
    pub fn came_to(&self) -> Came
        ensures { came_of result ≡ came_to (current_of self.now) }
    {
        outcome(needs(&self.given.call).as_slice(), self.seen.as_slice())
    }
}
