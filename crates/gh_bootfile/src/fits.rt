//! Which line fits behind the line of pages and others.

ghost use Rattle.std.specs.Prelude.{◌≡◌, ◌&&◌, count_by};
ghost use Rattle.gh_base.specs.Kind.{kind_number};
ghost use Rattle.gh_model.specs.Boot.{is_of_kind, is_kind, kind_count, has_units};
ghost use Rattle.gh_model.specs.Boot.{is_free_slot, is_master_of, line_fits, rights_fit_kind};
ghost use Rattle.gh_model.specs.Rows.{fills};
ghost use Rattle.std.specs.List.{list_any};
ghost use Rattle.gh_bootfile.specs.Draft.{is_capability_line, is_object_line, IsDraft};

use crate::draft::Draft;
use crate::fits_cpus::cpu_fits;
use crate::fits_memory::{extent_fits, mapping_fits};
use gh_base::{
    CSPACES, Kind, MESSAGE_BYTES, PARTITION_UNITS, PARTITIONS, QUEUE_DEPTH, Rights, Serial,
};
use gh_model::{BootLine, CapabilityRow, ObjectRow, State, cost_of_queue, object_row};

/// Whether there is an object, and it is of this kind.
fn is_of_kind(kind: Kind, object: Option<ObjectRow>) -> bool
    ensures { result ≡ is_of_kind kind object }
{
    match object {
        None => false,
        Some(row) => row.kind.number() == kind.number(),
    }
}

pub(crate) fn is_kind(state: &State, serial: Serial, kind: Kind) -> bool
    ensures { result ≡ is_kind state.now serial.0 kind }
{
    is_of_kind(kind, object_row(state.objects.as_slice(), serial))
}

fn kind_count(state: &State, kind: Kind) -> usize
    ensures { result ≡ kind_count state.now kind }
{
    let rows = state.objects.as_slice().iter();
    rows.filter(|row| row.kind.number() == kind.number())
        .count()
}

/// Whether an object of this cost can be made in the partition.
pub(crate) fn has_units(state: &State, partition: Serial, cost: u16) -> bool
    ensures { result ≡ has_units state.now partition.0 cost }
{
    is_kind(state, partition, Kind::Partition) && cost <= state.free_units(partition)
}

/// Whether it is a line of an object but for an extent with a parent, and fits.
fn object_fits(state: &State, line: &BootLine) -> bool
    ensures { result ≡ (is_object_line line.now && line_fits state.now line.now) }
{
    match *line {
        BootLine::Partition { quota } => {
            1 <= quota
                && quota <= PARTITION_UNITS
                && kind_count(state, Kind::Partition) < PARTITIONS
        }
        BootLine::Cspace { partition } => {
            has_units(state, partition, 4) && kind_count(state, Kind::Cspace) < CSPACES
        }
        BootLine::Addrspace { partition } => has_units(state, partition, 4),
        BootLine::Doorbell { partition } => has_units(state, partition, 1),
        BootLine::RootExtent { partition } => {
            has_units(state, partition, 1) && state.extents.is_empty()
        }
        BootLine::Msgqueue {
            partition,
            depth,
            size,
        } => {
            1 <= depth
                && depth as u64 <= QUEUE_DEPTH
                && 1 <= size
                && size as usize <= MESSAGE_BYTES
                && has_units(state, partition, cost_of_queue(depth, size))
        }
        _ => false,
    }
}

fn is_filled(caps: &[CapabilityRow], cspace: Serial, slot: u8) -> bool
    ensures { result ≡ list_any (fills cspace.0 slot) caps.now }
{
    caps.iter()
        .any(|row| row.cspace == cspace && row.slot == slot)
}

pub(crate) fn is_free_slot(state: &State, cspace: Serial, slot: u8) -> bool
    ensures { result ≡ is_free_slot state.now cspace.0 slot }
{
    1 <= slot && slot <= 127 && !is_filled(state.caps.as_slice(), cspace, slot)
}

fn has_master(caps: &[CapabilityRow], object: Serial) -> bool
    ensures { result ≡ list_any (is_master_of object.0) caps.now }
{
    caps.iter().any(|row| row.master && row.serial == object)
}

/// Whether an object has all these rights to give.
fn rights_fit_kind(rights: Rights, object: Option<ObjectRow>) -> bool
    ensures { result ≡ rights_fit_kind rights.0 object }
{
    match object {
        None => false,
        Some(row) => rights.0 & row.kind.rights().0 == rights.0,
    }
}

/// Whether it is a line of a capability, and fits.
fn capability_fits(state: &State, line: &BootLine) -> bool
    ensures { result ≡ (is_capability_line line.now && line_fits state.now line.now) }
{
    match *line {
        BootLine::Cap {
            cspace,
            slot,
            object,
            rights,
            master,
        } => {
            is_kind(state, cspace, Kind::Cspace)
                && is_free_slot(state, cspace, slot)
                && rights_fit_kind(rights, object_row(state.objects.as_slice(), object))
                && !(master && has_master(state.caps.as_slice(), object))
        }
        _ => false,
    }
}

/// Whether a line fits behind the line of pages.
#[tactic(auto, using(crate::proofs::DraftLemmas::one_kind))]
pub(crate) fn line_fits(draft: &Draft, line: &BootLine) -> bool
    requires { IsDraft draft.now }
    ensures { result ≡ line_fits draft.now.state line.now }
{
    object_fits(&draft.state, line)
        || extent_fits(&draft.state, line)
        || mapping_fits(draft, line)
        || capability_fits(&draft.state, line)
        || cpu_fits(&draft.state, line)
}
