//! The changes of boot lines that make an extent.

ghost use Rattle.std.specs.Prelude.{◌≡◌, ◌+◌, ◌≤◌, ◌∷◌, [], true, length, IfOk};
ghost use Rattle.gh_base.specs.declared.kind.Kind.TheVariants as kinds;
ghost use Rattle.gh_base.specs.declared.limits.TheConstants.{MACHINE_PAGES};
ghost use Rattle.gh_model.specs.Boot.{boot_object as boot_object_of, changes_of_line, first_page};
ghost use Rattle.gh_model.specs.Boot.{child_span as child_span_of, makes_extent, serial_of};
ghost use Rattle.gh_model.specs.Boot.{root_span as root_span_of};
ghost use Rattle.gh_model.specs.declared.change.Change.TheVariants.{AddExtent, AddObject, AddRoot};
ghost use Rattle.gh_model.specs.declared.change.Change.TheVariants.{MovePages};
ghost use Rattle.gh_model.specs.declared.state.State.{State};
ghost use Rattle.gh_parts.specs.BootLines.{ComesNext, IsChild};
ghost use Rattle.gh_parts.specs.Stands.{Stands, page_holders};

use crate::journal::Memory;
use crate::parts::Parts;
use gh_base::{Access, Kind, NoMemory, PageNo, Sequence, Serial};
use gh_model::{BootLine, Change, ExtentRow};
use std::alloc::Global;

/// The pages of the machine.
fn page_count(memory: &Memory) -> u16
    ensures { result ≡ length (page_holders memory.now) }
{
    match memory {
        Memory::Bare(pages) => *pages,
        Memory::Held(extents) => extents.pages(),
    }
}

/// Where an extent line puts its extent.
#[derive(Clone, Copy)]
pub struct Child {
    pub partition: Serial,
    pub parent: Serial,
    pub offset: u16,
    pub count: u16,
    pub access: Access,
    pub held_offset: u16,
    pub held_count: u16,
}

impl Parts {
    /// The span of the root extent: all pages.
    fn root_span(&self) -> ExtentRow
        ghost s: { State }
        requires { Stands self.now s }
        ensures { result ≡ root_span_of s }
    {
        ExtentRow {
            serial: Serial(self.journal.next_serial),
            parent: Serial(0),
            first: PageNo(0),
            count: page_count(&self.journal.memory),
            access: Access::ALL,
            parcel: false,
        }
    }

    /// The root extent with all pages.
    fn new_root(&self, alloc: Global, partition: Serial) -> Result<Sequence<Change>, NoMemory>
        ghost s: { State }
        requires { Stands self.now s }
        ensures { IfOk result (λ changes. changes
            ≡ AddObject (boot_object_of s kinds.Extent partition.0 1)
            ∷ AddRoot (root_span_of s) ∷ []) }
    {
        let row = self.boot_object(Kind::Extent, partition, 1);
        let span = Change::AddRoot {
            row: self.root_span(),
        };
        let changes = vec![in alloc; Change::AddObject { row }, span]?;
        Ok(Sequence::from_vec(changes))
    }

    /// The first machine page of an extent's span; 0 where it has none.
    fn span_start(&self, extent: Serial) -> u16
        ghost s: { State }
        requires { Stands self.now s }
        ensures { result ≡ first_page s extent.0 }
    {
        match self.extent(extent) {
            None => 0,
            Some(row) => row.first.0,
        }
    }

    /// The span of an extent line's extent.
    fn child_span(&self, new: Child) -> ExtentRow
        ghost s: { State }
        requires stands { Stands self.now s }
        requires child { IsChild s new }
        ensures { result ≡ child_span_of s new.parent.0 new.offset new.count new.access.0 }
    {
        let first = self.span_start(new.parent) + new.offset;
        ExtentRow {
            serial: Serial(self.journal.next_serial),
            parent: new.parent,
            first: PageNo(first),
            count: new.count,
            access: new.access,
            parcel: false,
        }
    }

    /// An extent with its span, and the pages that its parent hands over.
    fn new_child(&self, alloc: Global, new: Child) -> Result<Sequence<Change>, NoMemory>
        ghost s: { State }
        requires stands { Stands self.now s }
        requires child { IsChild s new }
        ensures { IfOk result (λ changes. changes
            ≡ AddObject (boot_object_of s kinds.Extent new.partition.0 1)
            ∷ AddExtent (child_span_of s new.parent.0 new.offset new.count new.access.0)
            ∷ MovePages (first_page s new.parent.0 + new.offset + new.held_offset)
            new.held_count (serial_of s.next_serial)
            ∷ []) }
    {
        let row = self.boot_object(Kind::Extent, new.partition, 1);
        let span = self.child_span(new);
        let moved = Change::MovePages {
            first: span.first.0 + new.held_offset,
            count: new.held_count,
            holder: row.serial,
        };
        let span = Change::AddExtent { row: span };
        let changes = vec![in alloc; Change::AddObject { row }, span, moved]?;
        Ok(Sequence::from_vec(changes))
    }

    /// The changes of a line that makes an extent.
    pub(crate) fn extent_line(
        &self,
        alloc: Global,
        line: BootLine,
    ) -> Result<Sequence<Change>, NoMemory>
        ghost s: { State }
        requires makes { makes_extent line ≡ true }
        requires stands { Stands self.now s }
        requires next { ComesNext s line }
        ensures { IfOk result (λ changes. changes ≡ changes_of_line s line) }
    {
        match line {
            BootLine::RootExtent { partition } => self.new_root(alloc, partition),
            BootLine::Extent {
                partition,
                parent,
                offset,
                count,
                access,
                held_offset,
                held_count,
            } => {
                let new = Child {
                    partition,
                    parent,
                    offset,
                    count,
                    access,
                    held_offset,
                    held_count,
                };
                self.new_child(alloc, new)
            }
            _ => unreachable!(),
        }
    }
}
