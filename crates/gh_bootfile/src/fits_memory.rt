//! Which extents and mappings fit.

ghost use Rattle.std.specs.Prelude.{◌≡◌, ◌==◌, ◌+◌, ◌≤◌, ◌&&◌};
ghost use Rattle.std.specs.Prelude.{take, drop, find, length, IfSome, count_by};
ghost use Rattle.std.specs.List.{list_all, list_any};
ghost use Rattle.gh_model.specs.Boot.{line_fits, is_access, access_fits, overlaps, is_row_of};
ghost use Rattle.gh_model.specs.Fitting.{IsFitting};
ghost use Rattle.gh_model.specs.Rows.{is_extent};
ghost use Rattle.gh_bootfile.specs.Draft.{is_extent_line, is_mapping_line, HasMappings};

use crate::draft::Draft;
use crate::fits::{has_units, is_kind};
use crate::mappings::{mappings_at, overlaps};
use gh_base::{Access, Kind, Serial};
use gh_model::{BootLine, ExtentRow, State, extent_row};

/// Whether it is an access of pages: one of the numbers, and not none.
fn is_access(access: Access) -> bool
    ensures { result ≡ is_access access.0 }
{
    access.0 != 0 && access.0 != 3 && access.0 <= 7
}

fn access_fits(access: Access, wider: Access) -> bool
    ensures { result ≡ access_fits access.0 wider.0 }
{
    access.0 & wider.0 == access.0
}

/// Whether the extent holds all these pages.
fn all_held(holders: &[Serial], extent: Serial, first: usize, count: usize) -> bool
    requires { first + count ≤ length holders.now }
    ensures { result ≡ list_all (λ holder. holder.0 == extent.0)
        (take count (drop first holders.now)) }
{
    holders[first..first + count]
        .iter()
        .all(|holder| *holder == extent)
}

/// An extent whose span lies in the machine; none where there is no such extent.
fn extent(state: &State, serial: Serial) -> Option<ExtentRow>
    requires { IsFitting state.now }
    ensures found { result ≡ find (is_extent serial.0) state.now.extents }
    ensures span { IfSome result (λ row. row.first.0 + row.count ≤ length state.now.holders) }
{
    extent_row(state.extents.as_slice(), serial)
}

/// Whether it is a line of an extent with a parent whose span and access have the new one's, and
/// which holds what it takes over.
pub(crate) fn extent_fits(state: &State, line: &BootLine) -> bool
    requires { IsFitting state.now }
    ensures { result ≡ (is_extent_line line.now && line_fits state.now line.now) }
{
    match *line {
        BootLine::Extent {
            partition,
            parent,
            offset,
            count,
            access,
            held_offset,
            held_count,
        } => match extent(state, parent) {
            None => false,
            Some(row) => {
                let held = row.first.0 as usize + offset as usize + held_offset as usize;
                has_units(state, partition, 1)
                    && held_offset as u32 + held_count as u32 <= count as u32
                    && 1 <= count
                    && offset as u32 + count as u32 <= row.count as u32
                    && is_access(access)
                    && access_fits(access, row.access)
                    && all_held(state.holders.as_slice(), parent, held, held_count as usize)
            }
        },
        _ => false,
    }
}

/// Whether a mapping has one of these pages of the address space.
#[tactic(auto, using(crate::proofs::MappingLemmas::any_of_space))]
fn is_mapped(draft: &Draft, space: Serial, base: u16, count: u16) -> bool
    requires { HasMappings draft.now.mappings draft.now.state.mappings }
    ensures { result ≡ list_any (overlaps space.0 base count) draft.now.state.mappings }
{
    let rows = mappings_at(draft.mappings.as_slice(), space);
    overlaps(rows, space, base, count)
}

fn mapping_count(draft: &Draft, space: Serial) -> usize
    requires { HasMappings draft.now.mappings draft.now.state.mappings }
    ensures { result ≡ count_by (is_row_of space.0) draft.now.state.mappings }
{
    mappings_at(draft.mappings.as_slice(), space).len()
}

/// Whether it is a line of a mapping of an extent whose span and access have the mapping's, in an
/// address space that has the pages free and room for a row.
pub(crate) fn mapping_fits(draft: &Draft, line: &BootLine) -> bool
    requires { HasMappings draft.now.mappings draft.now.state.mappings }
    ensures { result ≡ (is_mapping_line line.now && line_fits draft.now.state line.now) }
{
    match *line {
        BootLine::Map {
            space,
            extent,
            base,
            offset,
            count,
            access,
        } => match extent_row(draft.state.extents.as_slice(), extent) {
            None => false,
            Some(row) => {
                is_kind(&draft.state, space, Kind::Space)
                    && 1 <= count
                    && is_access(access)
                    && base as u32 + count as u32 <= 4096
                    && offset as u32 + count as u32 <= row.count as u32
                    && access_fits(access, row.access)
                    && !is_mapped(draft, space, base, count)
                    && mapping_count(draft, space) < 64
            }
        },
        _ => false,
    }
}
