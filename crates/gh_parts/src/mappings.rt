//! Changes of mapping rows.

ghost use Rattle.std.specs.Prelude.{◌≡◌, ◌≤◌, OnErr, OnOk};
ghost use Rattle.gh_model.specs.Changes.{drop_mapping, put_mapping};
ghost use Rattle.gh_model.specs.declared.change.Change.TheVariants.{DropMapping, PutMapping};
ghost use Rattle.gh_model.specs.declared.state.State.{State};
ghost use Rattle.gh_parts.specs.Bodies.{body_of};
ghost use Rattle.gh_parts.specs.Index.{AreIndexed};
ghost use Rattle.gh_parts.specs.Making.{CanMake};
ghost use Rattle.gh_parts.specs.MappingChanges.{FitsBody, FitsIn, Maps, Rebodied, Remaps, Unmaps};
ghost use Rattle.gh_parts.specs.Shares.{AreShares};
ghost use Rattle.gh_parts.specs.Stands.{Stands, extent_rows, page_holders, span_row_of};

use crate::body::Body;
use crate::journal::Memory;
use crate::parts::Parts;
use gh_addrspace::Space;
use gh_base::NoMemory;
use gh_extent::Extents;
use gh_model::{MapRow, MappingRow};

/// Takes the row of the map call that is of these pages away, if there is one.
fn unmap_in(space: &mut Space, row: MappingRow)
    ensures { Unmaps row space.old space.new }
{
    let _ = space.unmap(row.extent, row.base, row.offset, row.count);
}

/// An address space's body without a row; any other stays.
fn unmapped(row: MappingRow, body: Body) -> Body
    ensures { Remaps (Unmaps row) body result }
{
    match body {
        Body::Space(mut space) => {
            unmap_in(&mut space, row);
            Body::Space(space)
        }
        other => other,
    }
}

/// Puts a row last, as the map call or a boot line does.
fn map_in(space: &mut Space, row: MappingRow, extents: &Extents) -> Result<(), NoMemory>
    requires { FitsIn extents.now row space.old }
    ensures ok { OnOk result
        (Maps (span_row_of extents.now.rows) extents.now.holders row space.old space.new) }
    ensures err { OnErr result (space.new ≡ space.old) }
{
    let row = MapRow {
        extent: row.extent,
        base: row.base,
        offset: row.offset,
        count: row.count,
        access: row.access,
        handle: row.handle,
    };
    let _ = space.map(row, extents)?;
    Ok(())
}

/// Puts a row last in an address space's body; any other stays.
fn map_body(body: &mut Body, row: MappingRow, memory: &Memory) -> Result<(), NoMemory>
    requires { FitsBody memory.now row body.old }
    ensures ok { OnOk result
        (Remaps (Maps (span_row_of (extent_rows memory.now)) (page_holders memory.now) row)
        body.old body.new) }
    ensures err { OnErr result (body.new ≡ body.old) }
{
    match body {
        Body::Space(space) => match memory {
            Memory::Held(extents) => map_in(space, row, extents),
            Memory::Bare(_) => Ok(()),
        },
        _ => Ok(()),
    }
}

impl Parts {
    /// Puts a row last in its address space.
    fn map(&mut self, row: MappingRow) -> Result<(), NoMemory>
        requires indexed { AreIndexed self.old.table.headers }
        requires whole { AreShares self.old.shares }
        requires fits { FitsBody self.old.journal.memory row
            (body_of self.old.table.headers self.old.shares row.space.0) }
        ensures ok { OnOk result (Rebodied
            (Remaps (Maps (span_row_of (extent_rows self.old.journal.memory))
            (page_holders self.old.journal.memory) row)) row.space.0 self.old self.new) }
        ensures err { OnErr result (self.new ≡ self.old) }
    {
        match self.index(row.space) {
            None => Ok(()),
            Some(index) => {
                let mut body = self.shares.take(index);
                let answer = map_body(&mut body, row, &self.journal.memory);
                self.shares.put(index, body);
                answer
            }
        }
    }

    /// Pages of an extent appear in an address space.
    pub fn put_mapping(&mut self, row: MappingRow) -> Result<(), NoMemory>
        ghost s: { State }
        requires { CanMake self.old s (PutMapping row) }
        ensures ok { OnOk result (Stands self.new (put_mapping row s)) }
        ensures err { OnErr result (self.new ≡ self.old) }
    {
        self.map(row)?;
        self.owe(row.extent);
        self.owe(row.space);
        Ok(())
    }

    /// Takes a row away from its address space.
    fn unmap(&mut self, row: MappingRow)
        requires indexed { AreIndexed self.old.table.headers }
        requires whole { AreShares self.old.shares }
        ensures { Rebodied (Remaps (Unmaps row)) row.space.0 self.old self.new }
    {
        if let Some(index) = self.index(row.space) {
            let body = self.shares.take(index);
            self.shares.put(index, unmapped(row, body));
        }
    }

    /// A mapping row of the map call goes.
    pub fn drop_mapping(&mut self, row: MappingRow)
        ghost s: { State }
        requires { CanMake self.old s (DropMapping row) }
        ensures { Stands self.new (drop_mapping row s) }
    {
        self.unmap(row);
        self.settle(row.space);
        self.settle(row.extent);
    }
}
