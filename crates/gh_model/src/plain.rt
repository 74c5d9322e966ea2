//! The slow machine: its state is the definition's, and each of its calls is a definition.

ghost use Rattle.std.specs.Prelude.{◌≡◌, ◌&&◌, ◌<◌, find};
ghost use Rattle.std.specs.Prelude.{replicate, if◌then◌else◌, IfOk, OnErr};
ghost use Rattle.gh_base.specs.declared.limits.TheConstants.{HISTORY_ENTRIES};
ghost use Rattle.gh_model.specs.Act.{Judges, grants_of};
ghost use Rattle.gh_model.specs.Decide.{act as act_of, judge as judge_of};
ghost use Rattle.gh_model.specs.Access.{access_at};
ghost use Rattle.gh_model.specs.Boot.{boot_state};
ghost use Rattle.gh_model.specs.History.{is_retired, is_unretired, may_part};
ghost use Rattle.gh_model.specs.History.{parted, reclaimed, retired};
ghost use Rattle.gh_model.specs.References.{is_doomed};
ghost use Rattle.gh_model.specs.Rows.{fills, object_row as object_row_of};
ghost use Rattle.gh_model.specs.Small.{IsSmall};
ghost use Rattle.gh_model.specs.Units.{used_units, free_units, given_units};
ghost use Rattle.gh_model.specs.Word.{word_at};

use crate::access::access;
use crate::act::{act, has_moved};
use crate::boot::{Boot, booted};
use crate::other_entries::{part, reclaim, retire};
use crate::state::State;
use crate::state_reads::StateReads;
use crate::units::{free, given, used};
use crate::word::Word;
use gh_base::{Access, Call, CpuNo, Frame, NoMemory, PageNo, Reply, Serial};
use std::alloc::Global;
use std::marker::Model;

/// What an act came to.
#[derive(Debug, Drop)]
pub enum Judged {
    /// It was made, and is an entry of the history.
    Done(Reply),
    /// It was refused, and nothing has changed.
    Refused(Reply),
}

/// The state as lists of rows. A call searches them from end to end.
#[derive(Drop)]
pub struct Plain {
    state: State,
}

impl Model for Plain {
    ghost use Rattle.gh_model.specs.Small.{IsKept};
    ghost use Rattle.gh_model.specs.declared.state.State.{State};

    ghost Value = { State };

    ghost view = { λ plain. plain.state };

    ghost invariant = { λ plain. IsKept plain.state };
}

impl Plain {
    /// The state that the boot file makes.
    pub fn boot(alloc: Global, boot: &Boot) -> Result<Plain, NoMemory>
        ensures { IfOk result (λ plain. plain ≡ boot_state boot.now) }
    {
        let _lines = boot.lines();
        let state = booted(alloc, boot)?;
        Ok(Plain { state })
    }

    /// The act of a call with these grants: a refusal, or its effect and one entry of the history.
    /// The frame is that of the call, and its bytes are what the call sends.
    pub fn act(
        &mut self,
        alloc: Global,
        cpu: CpuNo,
        frame: &Frame,
        call: &Call,
        grants: &[Serial],
    ) -> Result<Judged, NoMemory>
        requires { self.old.entries < HISTORY_ENTRIES }
        ensures judged { IfOk result (λ judged. Judges self.old self.new judged
            (act_of self.old cpu.0 call.now frame.now.bytes grants.now)) }
        ensures no_memory { OnErr result (self.new ≡ self.old) }
    {
        let bytes = frame.bytes.as_slice();
        act(alloc, &mut self.state, false, cpu, call, bytes, grants)
    }

    /// The act of a call whose looks found these words, which granted these objects. A copy is
    /// refused where the source's word is another now.
    pub fn judge(
        &mut self,
        alloc: Global,
        cpu: CpuNo,
        frame: &Frame,
        call: &Call,
        words: &[Word],
        grants: &[Serial],
    ) -> Result<Judged, NoMemory>
        requires entries { self.old.entries < HISTORY_ENTRIES }
        requires granted { grants.now ≡ grants_of call.now words.now }
        ensures judged { IfOk result (λ judged. Judges self.old self.new judged
            (judge_of self.old cpu.0 call.now frame.now.bytes words.now)) }
        ensures no_memory { OnErr result (self.new ≡ self.old) }
    {
        let moved = has_moved(&self.state, cpu, call, words);
        let bytes = frame.bytes.as_slice();
        act(alloc, &mut self.state, moved, cpu, call, bytes, grants)
    }

    /// One slot of a revoke, as an entry of the history. False where the slot has no valid
    /// capability without master mark; then nothing changes.
    pub fn part(&mut self, space: Serial, slot: u8) -> Result<bool, NoMemory>
        requires { self.old.entries < HISTORY_ENTRIES }
        ensures may { IfOk result
            (λ made. made ≡ may_part (find (fills space.0 slot) self.old.caps)) }
        ensures made { IfOk result
            (λ made. self.new ≡ (if made then parted self.old space slot else self.old)) }
        ensures no_memory { OnErr result (self.new ≡ self.old) }
    {
        part(&mut self.state, space, slot)
    }

    /// An object's retirement before any CPU opened a section, as an entry of the history. False
    /// where it isn't doomed, or is retired; then nothing changes.
    pub fn retire(&mut self, serial: Serial) -> bool
        requires { self.old.entries < HISTORY_ENTRIES }
        ensures may { result
            ≡ (is_doomed self.old serial.0 && is_unretired (object_row_of self.old serial.0)) }
        ensures made { self.new
            ≡ (if result then retired self.old serial (replicate 9 0) else self.old) }
    {
        self.retire_seen(serial, [0; 9])
    }

    /// The same with the CPUs' counters, which the object's row keeps.
    pub fn retire_seen(&mut self, serial: Serial, seen: [u64; 9]) -> bool
        requires { self.old.entries < HISTORY_ENTRIES }
        ensures may { result
            ≡ (is_doomed self.old serial.0 && is_unretired (object_row_of self.old serial.0)) }
        ensures made { self.new ≡ (if result then retired self.old serial seen else self.old) }
    {
        retire(&mut self.state, serial, seen)
    }

    /// An object goes with all its rows, as an entry of the history. False where it isn't doomed,
    /// or isn't retired; then nothing changes. It takes no memory.
    pub fn reclaim(&mut self, alloc: Global, serial: Serial) -> Result<bool, NoMemory>
        requires { self.old.entries < HISTORY_ENTRIES }
        ensures may { IfOk result
            (λ made. made
            ≡ (is_doomed self.old serial.0 && is_retired (object_row_of self.old serial.0))) }
        ensures made { IfOk result
            (λ made. self.new ≡ (if made then reclaimed self.old serial else self.old)) }
        ensures no_memory { OnErr result (self.new ≡ self.old) }
    {
        Ok(reclaim(alloc, &mut self.state, serial))
    }

    /// What a slot holds. A number outside 1 to 127 is an empty slot that no entry set.
    pub fn word(&self, cspace: Serial, slot: u64) -> Word
        ensures { result ≡ word_at self.now cspace.0 slot }
    {
        self.state.word(cspace, slot)
    }

    /// Entries of the history so far.
    pub fn entries(&self) -> u32
        ensures { result ≡ self.now.entries }
    {
        self.state.entries
    }

    /// The state as rows.
    pub fn state(&self) -> &State
        ensures state { result.now ≡ self.now }
        ensures small { IsSmall self.now }
    {
        &self.state
    }
}

impl State {
    /// The costs in units of the objects that live in a partition, added up.
    pub fn used_units(&self, partition: Serial) -> u16
        requires { IsSmall self.now }
        ensures { result ≡ used_units self.now partition.0 }
    {
        used(self.objects.as_slice(), partition) as u16
    }

    /// The units that a partition has left.
    pub fn free_units(&self, partition: Serial) -> u16
        ensures { result ≡ free_units self.now partition.0 }
    {
        free(
            self.objects.as_slice(),
            self.partitions.as_slice(),
            partition,
        )
    }

    /// The units that a partition gave to those that calls made from it.
    pub fn given_units(&self, partition: Serial) -> u16
        requires { IsSmall self.now }
        ensures { result ≡ given_units self.now partition.0 }
    {
        given(self.partitions.as_slice(), partition) as u16
    }

    /// The machine page and the access at a page of an address space; none where no mapping
    /// row covers it, or the row's extent doesn't hold the page now.
    pub fn access(&self, space: Serial, page: u16) -> Option<(PageNo, Access)>
        requires { IsSmall self.now }
        ensures { result ≡ access_at self.now space.0 page }
    {
        access(self, space, page)
    }
}
