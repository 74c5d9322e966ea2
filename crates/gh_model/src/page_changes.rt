//! What the changes of extents, pages and mapping rows make of the rows.

ghost use Rattle.std.specs.Prelude.{◌≡◌, ◌+◌, ◌≤◌, length, OnOk, OnErr};
ghost use Rattle.gh_model.specs.Changes.{add_extent as add_extent_of, drop_mapping as drop_mapping_of, move_pages as move_pages_of, move_run as move_run_of, put_mapping as put_mapping_of};

use crate::row_filter::unmap_row;
use crate::rows::{ExtentRow, MappingRow};
use crate::state::State;
use gh_base::{NoMemory, Sequence, Serial};
use std::alloc::Global;

/// An extent gets its span.
pub(crate) fn add_extent(state: &mut State, row: ExtentRow) -> Result<(), NoMemory>
    ensures ok { OnOk result (state.new ≡ add_extent_of row state.old) }
    ensures err { OnErr result (state.new ≡ state.old) }
{
    state.extents.push(row)
}

/// Pages from a first one on change their holder.
fn move_run(holders: &mut Sequence<Serial>, first: usize, count: usize, holder: Serial)
    requires { first + count ≤ length holders.old }
    ensures { holders.new ≡ move_pages_of first count holder holders.old }
{
    let pages = holders.as_mut_slice();
    let run = &mut pages[first..first + count];
    run.fill(holder);
}

/// A run of pages of the machine gets another holder.
pub(crate) fn move_pages(state: &mut State, first: u16, count: u16, holder: Serial)
    ensures { state.new ≡ move_run_of first count holder state.old }
{
    let end = first as usize + count as usize;
    if end <= state.holders.len() {
        move_run(&mut state.holders, first as usize, count as usize, holder);
    }
}

/// Pages of an extent appear in an address space.
pub(crate) fn put_mapping(state: &mut State, row: MappingRow) -> Result<(), NoMemory>
    ensures ok { OnOk result (state.new ≡ put_mapping_of row state.old) }
    ensures err { OnErr result (state.new ≡ state.old) }
{
    state.mappings.push(row)
}

/// A row of the map call goes.
pub(crate) fn drop_mapping(alloc: Global, state: &mut State, row: MappingRow)
    ensures { state.new ≡ drop_mapping_of row state.old }
{
    unmap_row(alloc, &mut state.mappings, row);
}
