//! Changes of pages and extents.

ghost use Rattle.std.specs.Prelude.{◌≡◌, ◌<◌, ◌≤◌, OnErr, OnOk, IfOk, false};
ghost use Rattle.gh_extent.specs.Extents.{root_alone, row_span};
ghost use Rattle.gh_model.specs.Changes.{add_extent, add_root, set_pages};
ghost use Rattle.gh_model.specs.declared.change.Change.TheVariants.{AddExtent, AddRoot, SetPages};
ghost use Rattle.gh_model.specs.declared.state.State.{State};
ghost use Rattle.gh_parts.specs.Index.{AreIndexed};
ghost use Rattle.gh_parts.specs.Making.{CanMake};
ghost use Rattle.gh_parts.specs.MemoryChanges.{TakesRow, spanned, with_extent, with_memory};
ghost use Rattle.gh_parts.specs.MemoryChanges.{with_span};
ghost use Rattle.gh_parts.specs.Shares.{AreShares};
ghost use Rattle.gh_parts.specs.Stands.{Stands};
ghost use Rattle.gh_parts.specs.declared.journal.Memory.TheVariants as memory;

use crate::body::Body;
use crate::journal::Memory;
use crate::parts::Parts;
use gh_base::{NoMemory, Serial};
use gh_extent::{EXTENT_PAGES, Extents};
use gh_model::{ExtentRow, Span};
use std::alloc::Global;

/// The span in an extent's row.
fn span_of(row: ExtentRow) -> Span
    ensures { result ≡ row_span row }
{
    Span {
        first: row.first,
        count: row.count,
        access: row.access,
    }
}

/// An extent's body with its span; any other stays.
fn spanned(span: Span, body: Body) -> Body
    ensures { result ≡ spanned span body }
{
    match body {
        Body::Extent(_) => Body::Extent(Some(span)),
        other => other,
    }
}

/// Puts the row of an extent without pages last.
fn add_row(memory: &mut Memory, row: ExtentRow) -> Result<(), NoMemory>
    requires { TakesRow row memory.old }
    ensures ok { OnOk result (memory.new ≡ with_extent row memory.old) }
    ensures err { OnErr result (memory.new ≡ memory.old) }
{
    match memory {
        Memory::Bare(_) => Ok(()),
        Memory::Held(extents) => extents.add(row.serial, row.parent, span_of(row)),
    }
}

impl Parts {
    /// Copies an extent's span to its share.
    fn copy_span(&mut self, row: ExtentRow)
        requires indexed { AreIndexed self.old.table.headers }
        requires whole { AreShares self.old.shares }
        ensures { self.new ≡ with_span row self.old }
    {
        if let Some(index) = self.index(row.serial) {
            let body = self.shares.take(index);
            self.shares.put(index, spanned(span_of(row), body));
        }
    }

    /// Puts the row of an extent without pages last.
    fn push_extent(&mut self, row: ExtentRow) -> Result<(), NoMemory>
        requires { TakesRow row self.old.journal.memory }
        ensures ok { OnOk result
            (self.new ≡ with_memory (with_extent row self.old.journal.memory) self.old) }
        ensures err { OnErr result (self.new ≡ self.old) }
    {
        add_row(&mut self.journal.memory, row)?;
        Ok(())
    }

    /// An extent gets its span.
    pub fn add_extent(&mut self, row: ExtentRow) -> Result<(), NoMemory>
        ghost s: { State }
        requires can { CanMake self.old s (AddExtent row) }
        requires plain { row.parcel ≡ false }
        ensures ok { OnOk result (Stands self.new (add_extent row s)) }
        ensures err { OnErr result (self.new ≡ self.old) }
    {
        self.push_extent(row)?;
        self.copy_span(row);
        self.owe(row.parent);
        Ok(())
    }

    /// The machine gets its pages, which no extent holds yet.
    pub fn set_pages(&mut self, count: u16)
        ghost s: { State }
        requires { CanMake self.old s (SetPages count) }
        ensures { Stands self.new (set_pages count s) }
    {
        self.journal.memory = Memory::Bare(count);
    }

    /// Puts the root extent, which holds all pages.
    fn hold_all(&mut self, alloc: Global, pages: u16, root: Serial) -> Result<(), NoMemory>
        requires some { 0 < pages }
        requires most { pages ≤ EXTENT_PAGES }
        ensures ok { OnOk result
            (self.new ≡ with_memory (memory.Held (root_alone pages root)) self.old) }
        ensures err { OnErr result (self.new ≡ self.old) }
    {
        let extents = Extents::new(alloc, pages, root)?;
        self.journal.memory = Memory::Held(extents);
        Ok(())
    }

    /// The root extent gets its span, and holds all pages.
    pub fn add_root(&mut self, alloc: Global, row: ExtentRow) -> Result<(), NoMemory>
        ghost s: { State }
        requires can { CanMake self.old s (AddRoot row) }
        requires plain { row.parcel ≡ false }
        ensures ok { OnOk result (Stands self.new (add_root row s)) }
        ensures err { OnErr result (self.new ≡ self.old) }
    {
        self.hold_all(alloc, row.count, row.serial)?;
        self.copy_span(row);
        self.owe(row.serial);
        Ok(())
    }
}
