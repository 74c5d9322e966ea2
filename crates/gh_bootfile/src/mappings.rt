//! Mappings by their address space.

ghost use Rattle.std.specs.Prelude.{◌≡◌, ◌<◌, ℕ, List, length, slice_get, OnOk};
ghost use Rattle.std.specs.List.{list_any};
ghost use Rattle.gh_model.specs.Boot.{overlaps};
ghost use Rattle.gh_model.specs.declared.rows.MappingRow.{MappingRow as Row};
ghost use Rattle.gh_bootfile.specs.Draft.{mappings_at, with_made, with_row, HasMappings};

use gh_base::{NoMemory, Sequence, Serial};
use gh_model::MappingRow;
use std::alloc::Global;

/// The mappings of an address space.
pub(crate) fn mappings_at(table: &[Sequence<MappingRow>], space: Serial) -> &[MappingRow]
    ensures { result.now ≡ mappings_at table.now space.0 }
{
    match table.get(space.0 as usize) {
        None => &[],
        Some(rows) => rows.as_slice(),
    }
}

/// Whether a mapping has one of these pages of the address space.
pub(crate) fn overlaps(mappings: &[MappingRow], space: Serial, base: u16, count: u16) -> bool
    ensures { result ≡ list_any (overlaps space.0 base count) mappings.now }
{
    let (first, past) = (base as u128, base as u128 + count as u128);
    mappings.iter().any(|row| {
        row.space == space
            && first < row.base as u128 + row.count as u128
            && (row.base as u128) < past
    })
}

/// Makes the table long enough for the serial.
#[tactic(auto, using(crate::proofs::MappingLemmas::place_more))]
fn make_place(
    alloc: Global,
    table: &mut Sequence<Sequence<MappingRow>>,
    space: Serial,
) -> Result<(), NoMemory>
    ensures place { OnOk result (space.0 < length table.new) }
    ensures rows { (n : ℕ) → OnOk result (mappings_at table.new n ≡ mappings_at table.old n) }
{
    while table.len() <= space.0 as usize {
        table.push(Sequence::new(alloc))?;
    }
    Ok(())
}

/// The mapping at a place; none past the last.
pub(crate) fn mapping(mappings: &[MappingRow], at: usize) -> Option<MappingRow>
    ensures { result ≡ slice_get mappings.now at }
{
    mappings.get(at).copied()
}

/// Puts a mapping behind the others of its address space.
fn put_row(table: &mut Sequence<Sequence<MappingRow>>, row: MappingRow) -> Result<(), NoMemory>
    requires { row.space.0 < length table.old }
    ensures { OnOk result (table.new ≡ with_row table.old row) }
{
    let rows = &mut table.as_mut_slice()[row.space.0 as usize];
    rows.push(row)
}

/// Puts a mapping, if one was made, behind the others of its address space.
#[tactic(auto, using(crate::proofs::MappingLemmas::has_row))]
pub(crate) fn add_mapping(
    alloc: Global,
    table: &mut Sequence<Sequence<MappingRow>>,
    made: Option<MappingRow>,
) -> Result<(), NoMemory>
    ensures { (mappings : List Row) → HasMappings table.old mappings
        → OnOk result (HasMappings table.new (with_made mappings made)) }
{
    match made {
        None => Ok(()),
        Some(row) => {
            make_place(alloc, table, row.space)?;
            put_row(table, row)
        }
    }
}
