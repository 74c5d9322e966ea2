//! Boot lines, made on the parts.

ghost use Rattle.std.specs.Prelude.{◌≡◌, IfOk, IfSome, OnOk, slice_get};
ghost use Rattle.gh_invariant.specs.Valid.{IsValidWithin};
ghost use Rattle.gh_model.specs.Boot.{after_line, boot_mapping, boot_state, changes_of_line};
ghost use Rattle.gh_model.specs.declared.state.State.{State};
ghost use Rattle.gh_parts.specs.BootLines.{CanAdd, ComesNext};
ghost use Rattle.gh_parts.specs.MakingAll.{stepped};
ghost use Rattle.gh_parts.specs.Stands.{Stands};

use crate::parts::Parts;
use gh_base::{Access, NoMemory, Sequence, Serial};
use gh_model::{Boot, BootLine, Change, MappingRow};
use std::alloc::Global;

/// A row of the map call.
fn new_mapping(
    space: Serial,
    extent: Serial,
    base: u16,
    offset: u16,
    count: u16,
    access: Access,
) -> MappingRow
    ensures { result ≡ boot_mapping space extent base offset count access }
{
    MappingRow {
        space,
        extent,
        base: base as u64,
        offset: offset as u64,
        count: count as u64,
        access,
        handle: 0,
    }
}

impl Parts {
    /// The changes that a line makes.
    fn line_changes(&self, alloc: Global, line: BootLine) -> Result<Sequence<Change>, NoMemory>
        ghost s: { State }
        requires stands { Stands self.now s }
        requires valid { IsValidWithin s }
        requires next { ComesNext s line }
        ensures { IfOk result (λ changes. changes ≡ changes_of_line s line) }
    {
        let change = match line {
            BootLine::Pages { count } => Change::SetPages { count },
            BootLine::Map {
                space,
                extent,
                base,
                offset,
                count,
                access,
            } => Change::PutMapping {
                row: new_mapping(space, extent, base, offset, count, access),
            },
            BootLine::Cap {
                cspace,
                slot,
                object,
                rights,
                master,
            } => Change::FillSlot {
                row: self.new_capability(cspace, slot, object, rights, master),
            },
            BootLine::Vm { .. } | BootLine::Rm { .. } | BootLine::Link { .. } => {
                return self.cpu_line(alloc, line);
            }
            _ => return self.object_line(alloc, line),
        };
        let changes = vec![in alloc; change]?;
        Ok(Sequence::from_vec(changes))
    }

    /// Makes what a line makes that comes next.
    fn add_line(&mut self, alloc: Global, line: BootLine) -> Result<(), NoMemory>
        ghost s: { State }
        requires { CanAdd self.old s line }
        ensures { OnOk result (Stands self.new (after_line s line)) }
    {
        let changes = self.line_changes(alloc, line)?;
        self.make_each(alloc, changes.as_slice())
    }

    /// Makes the line at a place of a list, if there is one.
    fn add_line_at(&mut self, alloc: Global, lines: &[BootLine], at: usize) -> Result<(), NoMemory>
        ghost s: { State }
        requires stands { Stands self.old s }
        requires can { IfSome (slice_get lines.now at) (CanAdd self.old s) }
        ensures { OnOk result (Stands self.new (stepped after_line s (slice_get lines.now at))) }
    {
        match lines.get(at) {
            None => Ok(()),
            Some(line) => self.add_line(alloc, *line),
        }
    }

    /// The parts that a boot file makes.
    pub fn from_boot(alloc: Global, boot: &Boot) -> Result<Parts, NoMemory>
        ensures { IfOk result (λ parts. Stands parts (boot_state boot.now)) }
    {
        let mut parts = Parts::new(alloc)?;
        let lines = boot.lines();
        for at in 0..lines.len() {
            parts.add_line_at(alloc, lines, at)?;
        }
        Ok(parts)
    }
}
