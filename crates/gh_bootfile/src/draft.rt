//! The lines of a boot file as they are read, each of which fits behind those before it.

ghost use Rattle.std.specs.Prelude.{◌≡◌, ◌++◌, ◌∷◌};
ghost use Rattle.std.specs.Prelude.{[], true, slice_get, length, OnOk};
ghost use Rattle.gh_model.specs.Boot.{after_line, line_fits};
ghost use Rattle.gh_model.specs.Fitting.{IsFitting};
ghost use Rattle.gh_bootfile.specs.Draft.{first_fits, next_fits, is_whole, may_make, IsDraft};

use crate::fits::line_fits;
use crate::mappings::{add_mapping, mapping};
use gh_base::{MACHINE_PAGES, NoMemory, Sequence};
use gh_model::{Boot, BootLine, MappingRow, State, add_line, add_pages, empty_state, vm_count};
use std::alloc::Global;

/// The lines so far and the state that they make. The mappings stand also in a table by the serial
/// of their address space, which has at most 64, since all of them are many; a test of a next line
/// walks no more of the state's other rows than a machine can have.
#[derive(Drop)]
pub struct Draft {
    pub lines: Sequence<BootLine>,
    pub state: State,
    pub mappings: Sequence<Sequence<MappingRow>>,
}

/// Whether it is a line of 1 to 1,024 pages.
fn first_fits(line: &BootLine) -> bool
    ensures { result ≡ first_fits line.now }
{
    match *line {
        BootLine::Pages { count } => 1 <= count && count <= MACHINE_PAGES,
        _ => false,
    }
}

/// Makes what the line makes.
fn make(alloc: Global, state: &mut State, line: BootLine) -> Result<(), NoMemory>
    requires may { may_make state.old line ≡ true }
    requires fitting { IsFitting state.old }
    ensures { OnOk result (state.new ≡ after_line state.old line) }
{
    match line {
        BootLine::Pages { count } => add_pages(alloc, state, count),
        _ => add_line(alloc, state, line),
    }
}

impl Draft {
    /// No line yet.
    pub(crate) fn new(alloc: Global) -> Draft
        ensures draft { IsDraft result }
        ensures none { result.lines ≡ [] }
    {
        Draft {
            lines: Sequence::new(alloc),
            state: empty_state(alloc),
            mappings: Sequence::new(alloc),
        }
    }

    /// Whether the line may be added.
    pub(crate) fn may_add(&self, line: &BootLine) -> bool
        requires { IsDraft self.now }
        ensures { result ≡ next_fits self.now.lines line.now }
    {
        if self.lines.is_empty() {
            first_fits(line)
        } else {
            line_fits(self, line)
        }
    }

    /// Adds a line that may be added.
    #[tactic(auto, using(crate::proofs::DraftLemmas::made_first, crate::proofs::DraftLemmas::draft_more))]
    pub(crate) fn add(&mut self, alloc: Global, line: BootLine) -> Result<(), NoMemory>
        requires draft { IsDraft self.old }
        requires fits { next_fits self.old.lines line ≡ true }
        ensures draft { OnOk result (IsDraft self.new) }
        ensures lines { OnOk result (self.new.lines ≡ self.old.lines ++ line ∷ []) }
    {
        let known = self.state.mappings.len();
        self.lines.push(line)?;
        make(alloc, &mut self.state, line)?;
        let made = mapping(self.state.mappings.as_slice(), known);
        add_mapping(alloc, &mut self.mappings, made)?;
        Ok(())
    }

    /// Whether the lines are all that a boot file needs.
    pub(crate) fn is_complete(&self) -> bool
        requires { IsDraft self.now }
        ensures { result ≡ is_whole self.now.lines }
    {
        !self.state.extents.is_empty() && vm_count(self.state.cpus.as_slice()) > 0
    }

    /// The boot file, once it is complete.
    pub(crate) fn into_boot(self) -> Boot
        requires draft { IsDraft self }
        requires whole { is_whole self.lines ≡ true }
        ensures { result ≡ self.lines }
    {
        Boot::new(self.lines.into_vec())
    }
}
