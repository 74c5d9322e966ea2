//! Pages that an extent which goes gives back to its parent.

ghost use Rattle.std.specs.Prelude.{◌≡◌, Some, map};
ghost use Rattle.std.specs.Option.{option_map, unwrap_or};
ghost use Rattle.gh_extent.specs.Extents.{CanGiveBack, IsTree, row_of};
ghost use Rattle.gh_model.specs.Changes.{given_back, without};
ghost use Rattle.gh_model.specs.Rows.{is_extent};
ghost use Rattle.gh_parts.specs.Follows.{GivesBack, HoldsTree, MayReturn, SharesFollow, parent_in};
ghost use Rattle.gh_parts.specs.Reclaims.{row_parent};
ghost use Rattle.gh_parts.specs.Shares.{AreShares};
ghost use Rattle.gh_parts.specs.Slots.{no_serial};
ghost use Rattle.gh_parts.specs.Stands.{extent_rows, page_holders};

use crate::journal::Memory;
use crate::parts::Parts;
use crate::shares::Shares;
use gh_base::Serial;
use gh_extent::Extents;

/// The parent of an extent; none where it has no row.
fn parent_of(extents: &Extents, extent: Serial) -> Option<Serial>
    ensures parent { result ≡ option_map row_parent (row_of extents.now extent.0) }
    ensures tree { IsTree extents.now }
{
    match extents.row(extent) {
        None => None,
        Some(row) => Some(row.parent),
    }
}

/// The parent of an extent; none where it has no row.
fn parent_in(memory: &Memory, extent: Serial) -> Option<Serial>
    ensures parent { result ≡ parent_in memory.now extent.0 }
    ensures tree { HoldsTree memory.now }
{
    match memory {
        Memory::Bare(_) => None,
        Memory::Held(extents) => parent_of(extents, extent),
    }
}

/// Gives an extent's pages to its parent, run by run, and takes its row away. The address spaces
/// follow.
fn return_runs(extents: &mut Extents, shares: &mut Shares, extent: Serial, parent: Serial)
    requires can { CanGiveBack extents.old extent.0 }
    requires above { option_map row_parent (row_of extents.old extent.0) ≡ Some parent }
    requires whole { AreShares shares.old }
    ensures rows { extents.new.rows ≡ without (is_extent extent.0) extents.old.rows }
    ensures pages { extents.new.holders
        ≡ map (given_back extent.0 parent) extents.old.holders }
    ensures follow { SharesFollow extents.old.holders extents.new.holders shares.old shares.new }
{
    while let Some((first, count)) = extents.give_back(extent) {
        shares.follow_run(extent, parent, first.0, count);
    }
}

/// The same in the memory that has the extents.
fn return_in(memory: &mut Memory, shares: &mut Shares, extent: Serial, parent: Serial)
    requires may { MayReturn memory.old extent.0 }
    requires above { parent_in memory.old extent.0 ≡ Some parent }
    requires whole { AreShares shares.old }
    ensures rows { extent_rows memory.new
        ≡ without (is_extent extent.0) (extent_rows memory.old) }
    ensures pages { page_holders memory.new
        ≡ map (given_back extent.0 parent) (page_holders memory.old) }
    ensures follow { SharesFollow (page_holders memory.old) (page_holders memory.new) shares.old
        shares.new }
{
    match memory {
        Memory::Bare(_) => {}
        Memory::Held(extents) => return_runs(extents, shares, extent, parent),
    }
}

impl Parts {
    /// The parent of an extent; none where it has no row.
    pub(crate) fn parent(&self, extent: Serial) -> Option<Serial>
        ensures parent { result ≡ parent_in self.now.journal.memory extent.0 }
        ensures tree { HoldsTree self.now.journal.memory }
    {
        parent_in(&self.journal.memory, extent)
    }

    /// An extent that goes gives its pages to its parent, if it has a row.
    pub(crate) fn return_pages(&mut self, extent: Serial, parent: Option<Serial>)
        requires may { MayReturn self.old.journal.memory extent.0 }
        requires tree { HoldsTree self.old.journal.memory }
        requires told { parent ≡ parent_in self.old.journal.memory extent.0 }
        requires whole { AreShares self.old.shares }
        ensures { GivesBack extent.0 (unwrap_or parent no_serial) self.old self.new }
    {
        if let Some(parent) = parent {
            return_in(&mut self.journal.memory, &mut self.shares, extent, parent);
        }
    }
}
