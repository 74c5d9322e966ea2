//! The references that changes give and take, as the rows tell them. No read takes memory.

ghost use Rattle.std.specs.Prelude.{◌≡◌, ◌∷◌, ◌++◌, ◌≤◌, [], Some, length, true};
ghost use Rattle.gh_invariant.specs.Effects.{attachments, gained, gains, home_named, home_of};
ghost use Rattle.gh_invariant.specs.Effects.{losses, lost, object_named, object_of, parent_named};
ghost use Rattle.gh_invariant.specs.Effects.{parent_of, slot_names, space_named};
ghost use Rattle.gh_invariant.specs.Valid.{IsValidWithin};
ghost use Rattle.gh_parts.specs.Told.{AreTold};

use crate::referred::Referred;
use gh_base::CpuNo;
use gh_model::{CapabilityRow, Change, CpuRow, ExtentRow, LinkRow, ObjectRow, StateReads};

/// The object of a capability, while it is valid.
fn object_of(row: CapabilityRow) -> Referred
    ensures { result ≡ object_of row }
{
    if row.valid {
        Referred::one(row.serial)
    } else {
        Referred::none()
    }
}

/// The object of the capability in a slot.
fn object_named(row: Option<CapabilityRow>) -> Referred
    ensures { result ≡ object_named row }
{
    match row {
        None => Referred::none(),
        Some(row) => object_of(row),
    }
}

/// What a filled slot refers to.
fn filled_names(row: CapabilityRow) -> Referred
    ensures { result ≡ slot_names (Some row) }
{
    if row.valid {
        Referred::two(row.cspace, row.serial)
    } else {
        Referred::one(row.cspace)
    }
}

/// What a slot refers to.
fn slot_names(row: Option<CapabilityRow>) -> Referred
    ensures { result ≡ slot_names row }
{
    match row {
        None => Referred::none(),
        Some(row) => filled_names(row),
    }
}

/// The partition that an object lives in, if it isn't itself.
fn home_of(row: ObjectRow) -> Referred
    ensures { result ≡ home_of row }
{
    if row.partition == row.serial {
        Referred::none()
    } else {
        Referred::one(row.partition)
    }
}

/// The parent of an extent; of the root extent, itself.
fn parent_of(row: ExtentRow) -> Referred
    ensures { result ≡ parent_of row }
{
    if row.parent.0 == 0 {
        Referred::one(row.serial)
    } else {
        Referred::one(row.parent)
    }
}

/// The spaces that a CPU is attached to.
fn attachments(row: Option<CpuRow>) -> Referred
    ensures { result ≡ attachments row }
{
    match row {
        Some(row) if !row.exited => Referred::two(row.cspace, row.space),
        _ => Referred::none(),
    }
}

/// The address space of a CPU.
fn space_named(row: Option<CpuRow>) -> Referred
    ensures { result ≡ space_named row }
{
    match row {
        None => Referred::none(),
        Some(row) => Referred::one(row.space),
    }
}

/// What a link refers to, with the CPU of its VM.
fn link_names(cpu: Option<CpuRow>, link: LinkRow) -> Referred
    ensures { result ≡ space_named cpu ++ link.extent ∷ link.request ∷ link.reply ∷ [] }
{
    let mut named = space_named(cpu);
    named.push(link.extent);
    named.push(link.request);
    named.push(link.reply);
    named
}

/// The partition of an object that was there.
fn home_named(row: Option<ObjectRow>) -> Referred
    ensures { result ≡ home_named row }
{
    match row {
        None => Referred::none(),
        Some(row) => home_of(row),
    }
}

/// What an object that goes refers to: its partition, and an extent's parent.
fn reclaimed_names(object: Option<ObjectRow>, extent: Option<ExtentRow>) -> Referred
    ensures { result ≡ home_named object ++ parent_named extent }
{
    let mut named = home_named(object);
    if let Some(row) = extent {
        named.push(if row.parent.0 == 0 {
            row.serial
        } else {
            row.parent
        });
    }
    named
}

/// The objects that a change gives a reference, each named once for each reference.
pub fn gains<R: StateReads>(rows: &R, change: &Change) -> Referred
    ensures { result ≡ gains (R.rows rows.now) change.now }
{
    match change {
        Change::PutCapability { row } | Change::FillSlot { row } => filled_names(*row),
        Change::AddObject { row } => home_of(*row),
        Change::AddExtent { row } | Change::AddRoot { row } => parent_of(*row),
        Change::PutMapping { row } => Referred::two(row.space, row.extent),
        Change::AddPartition { .. } => Referred::one(rows.next_serial()),
        Change::AddCpu { row } => attachments(Some(*row)),
        Change::AddLink { row } => link_names(rows.cpu(CpuNo(row.vm.0)), *row),
        _ => Referred::none(),
    }
}

/// The objects that a change takes a reference from, each named once for each reference.
pub fn losses<R: StateReads>(rows: &R, change: &Change) -> Referred
    requires { IsValidWithin (R.rows rows.now) }
    ensures { result ≡ losses (R.rows rows.now) change.now }
{
    match change {
        Change::DropCapability { cspace, slot } => slot_names(rows.word(*cspace, *slot as u64).row),
        Change::RevokeCapability { cspace, slot } => {
            object_named(rows.word(*cspace, *slot as u64).row)
        }
        Change::Reclaim { object } => {
            reclaimed_names(rows.object(*object), rows.extent(*object))
        }
        Change::DropMapping { row } => Referred::two(row.space, row.extent),
        Change::Exit { cpu } => attachments(rows.cpu(*cpu)),
        _ => Referred::none(),
    }
}

/// What the changes of an entry give and take, each object named once for each reference.
#[derive(Debug, Drop)]
pub struct Effects {
    pub gained: Referred,
    pub lost: Referred,
}

/// What changes in order give and take, read before the first of them is made.
pub fn effects_of<R: StateReads>(rows: &R, changes: &[Change]) -> Effects
    requires valid { IsValidWithin (R.rows rows.now) }
    requires told { AreTold (R.rows rows.now) changes.now }
    ensures gained { result.gained ≡ gained (R.rows rows.now) changes.now }
    ensures lost { result.lost ≡ lost (R.rows rows.now) changes.now }
{
    let mut gained = Referred::none();
    let mut lost = Referred::none();
    for at in 0..changes.len() {
        gained.append(&gains(rows, &changes[at]));
        lost.append(&losses(rows, &changes[at]));
    }
    Effects { gained, lost }
}
