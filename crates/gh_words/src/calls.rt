//! What CPUs do with plain words outside the turn: their calls' sections, looks and pins.

ghost use Rattle.std.specs.Prelude.{◌≡◌, ◌+◌, ◌<◌, ◌^◌, slice_get, slice_index};
ghost use Rattle.std.specs.Prelude.{Some, false, true};
ghost use Rattle.gh_base.specs.declared.limits.TheConstants.{CPUS, OBJECT_INDICES};
ghost use Rattle.gh_events.specs.declared.event.Event.TheVariants.{Enter, Leave, Pin, Undo};
ghost use Rattle.gh_events.specs.declared.event.Event.TheVariants as Event;
ghost use Rattle.gh_events.specs.declared.event.Event.TheVariants.{Unpin};
ghost use Rattle.gh_words.specs.Calls.{Can, Counts, Enters, HasPin, IsAtHome, IsCpu, KeepsRest};
ghost use Rattle.gh_words.specs.Calls.{Leaves, Loads, Looks, PinAnswers, Pins, Steps, slot_place};
ghost use Rattle.gh_words.specs.Shows.{cap_place};
ghost use Rattle.gh_words.specs.Tables.{with_counter, with_place};

use crate::plain_words::{PlainWords, SLOT_WORDS};
use gh_base::{CSPACE_SLOTS, CapWord, CpuNo, Look, ObjIndex};

/// The dead mark of a reference word in 64 bits.
const DEAD_MARK: u64 = 1 << 63;

/// A pin went to a dead word.
#[derive(Clone, Copy, Debug, PartialEq, Eq)]
pub struct Dead {
    /// The word before the pin: the count, with bit 63 set.
    pub word: u64,
}

/// Where the word of a slot lies; a number that names none has that of number 0.
fn slot_place(slot: u64) -> usize
    ensures place { result ≡ slot_place slot }
    ensures within { result < SLOT_WORDS }
{
    if 1 <= slot && slot <= CSPACE_SLOTS as u64 {
        slot as usize
    } else {
        0
    }
}

impl PlainWords {
    /// Adds one to a CPU's counter, and answers it.
    fn count_on(&mut self, cpu: CpuNo) -> u64
        requires within { cpu.0 < CPUS }
        requires room { slice_index self.old.counters cpu.0 < 2 ^ 63 }
        ensures counter { result ≡ slice_index self.old.counters cpu.0 + 1 }
        ensures put { self.new ≡ with_counter self.old cpu.0 result }
    {
        let at = cpu.0 as usize;
        let counter = self.counters[at] + 1;
        self.counters[at] = counter;
        counter
    }

    /// The CPU opens a read section. Answers its counter in it.
    pub fn enter(&mut self, cpu: CpuNo) -> u64
        requires { Can self.old (Enters cpu.0) }
        ensures counter { Counts self.old cpu.0 result }
        ensures made { Steps self.old self.new (Enters cpu.0) (Enter cpu) }
        ensures rest { KeepsRest self.old self.new }
    {
        self.count_on(cpu)
    }

    /// The CPU closes its section. Answers its counter behind it.
    pub fn leave(&mut self, cpu: CpuNo) -> u64
        requires { Can self.old (Leaves cpu.0) }
        ensures counter { Counts self.old cpu.0 result }
        ensures made { Steps self.old self.new (Leaves cpu.0) (Leave cpu) }
        ensures rest { KeepsRest self.old self.new }
    {
        self.count_on(cpu)
    }

    /// The index of a CPU's capability space.
    fn home(&self, cpu: CpuNo) -> ObjIndex
        requires { Can self.now (IsCpu cpu.0) }
        ensures home { IsAtHome self.now cpu.0 result.0 }
        ensures within { result.0 < OBJECT_INDICES }
    {
        self.homes.get(cpu.0 as usize)
    }

    fn cap(&self, space: ObjIndex, place: usize) -> CapWord
        requires space { space.0 < OBJECT_INDICES }
        requires place { place < SLOT_WORDS }
        ensures { slice_get self.now.caps (cap_place space.0 place) ≡ Some result }
    {
        self.caps.get(space.0 as usize * SLOT_WORDS + place)
    }

    /// The word that a look loads: that of the CPU's capability space, or for a number that names
    /// no slot one that no entry sets.
    fn load(&self, cpu: CpuNo, slot: u64) -> CapWord
        requires { Can self.now (IsCpu cpu.0) }
        ensures { Loads self.now cpu.0 slot result }
    {
        self.cap(self.home(cpu), slot_place(slot))
    }

    /// Another last place of a CPU.
    pub(crate) fn put_place(&mut self, cpu: CpuNo, place: u32)
        requires { cpu.0 < CPUS }
        ensures { self.new ≡ with_place self.old cpu.0 place }
    {
        self.places[cpu.0 as usize] = place;
    }

    /// The CPU loads the word of a slot.
    pub fn look(&mut self, cpu: CpuNo, slot: u64) -> Look
        requires { Can self.old (IsCpu cpu.0) }
        ensures look { Looks self.old cpu.0 slot result }
        ensures made { Steps self.old self.new (IsCpu cpu.0) (Event.Look cpu slot) }
        ensures rest { KeepsRest self.old self.new }
    {
        let word = self.load(cpu, slot);
        let place = self.places[cpu.0 as usize].max(word.set_at());
        self.put_place(cpu, place);
        Look { slot, place, word }
    }

    /// The CPU pins a reference word. One that is dead is told, and has the pin too.
    pub fn pin(&mut self, cpu: CpuNo, object: ObjIndex) -> Result<(), Dead>
        requires { Can self.old (Pins cpu.0 object.0) }
        ensures answer { PinAnswers self.old object.0 result }
        ensures made { Steps self.old self.new (Pins cpu.0 object.0) (Pin cpu object false) }
        ensures rest { KeepsRest self.old self.new }
    {
        let _cpu = cpu;
        let word = self.add_one(object);
        if word.dead {
            return Err(Dead {
                word: DEAD_MARK + word.count,
            });
        }
        Ok(())
    }

    /// The CPU takes back its pin on a dead word.
    pub fn undo(&mut self, cpu: CpuNo, object: ObjIndex)
        requires { Can self.old (HasPin cpu.0 object.0 true) }
        ensures made { Steps self.old self.new (HasPin cpu.0 object.0 true) (Undo cpu object) }
        ensures rest { KeepsRest self.old self.new }
    {
        let _cpu = cpu;
        self.take_one(object);
    }

    /// The CPU drops a pin of its call that has ended.
    pub fn unpin(&mut self, cpu: CpuNo, object: ObjIndex)
        requires { Can self.old (HasPin cpu.0 object.0 false) }
        ensures made { Steps self.old self.new (HasPin cpu.0 object.0 false)
            (Unpin cpu object false) }
        ensures rest { KeepsRest self.old self.new }
    {
        let _cpu = cpu;
        self.take_one(object);
    }
}
