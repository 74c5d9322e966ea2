//! The changes that a boot line makes.

ghost use Rattle.std.specs.Prelude.{◌≡◌, IsTrue, IfOk};
ghost use Rattle.gh_model.specs.Boot.{boot_mapping, changes_of_line, line_fits};
ghost use Rattle.gh_model.specs.Fitting.{IsFitting};

use crate::boot_line::BootLine;
use crate::change::Change;
use crate::change_lists::one;
use crate::cpu_lines::cpu_line;
use crate::object_lines::object_line;
use crate::rows::MappingRow;
use crate::slot_lines::new_capability;
use crate::state::State;
use gh_base::{Access, NoMemory, Sequence, Serial};
use std::alloc::Global;

/// A row of the map call.
fn new_mapping(
    space: Serial,
    extent: Serial,
    base: u16,
    offset: u16,
    count: u16,
    access: Access,
) -> MappingRow
    ensures { result ≡ boot_mapping space extent base offset count access }
{
    MappingRow {
        space,
        extent,
        base: base as u64,
        offset: offset as u64,
        count: count as u64,
        access,
        handle: 0,
    }
}

/// The changes that a line makes.
pub(crate) fn line_changes(
    alloc: Global,
    state: &State,
    line: BootLine,
) -> Result<Sequence<Change>, NoMemory>
    requires fits { IsTrue (line_fits state.now line) }
    requires fitting { IsFitting state.now }
    ensures { IfOk result (λ changes. changes ≡ changes_of_line state.now line) }
{
    match line {
        BootLine::Map {
            space,
            extent,
            base,
            offset,
            count,
            access,
        } => {
            let row = new_mapping(space, extent, base, offset, count, access);
            one(alloc, Change::PutMapping { row })
        }
        BootLine::Cap {
            cspace,
            slot,
            object,
            rights,
            master,
        } => {
            let row = new_capability(state, cspace, slot, object, rights, master);
            one(alloc, Change::FillSlot { row })
        }
        BootLine::Vm { .. } | BootLine::Rm { .. } | BootLine::Link { .. } => {
            cpu_line(alloc, state, line)
        }
        _ => object_line(alloc, state, line),
    }
}
