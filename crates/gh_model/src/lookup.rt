//! Rows by what they are rows of.

ghost use Rattle.std.specs.Prelude.{◌≡◌, find};
ghost use Rattle.gh_model.specs.Rows.{is_object, is_partition, is_extent};
ghost use Rattle.gh_model.specs.Rows.{is_bell, is_cpu, fills, tells_setting};

use crate::rows::{BellRow, CapabilityRow, CpuRow, ExtentRow, ObjectRow, PartitionRow, SetAtRow};
use gh_base::{CpuNo, Serial};

pub fn object_row(rows: &[ObjectRow], serial: Serial) -> Option<ObjectRow>
    ensures { result ≡ find (is_object serial.0) rows.now }
{
    rows.iter().copied().find(|row| row.serial == serial)
}

pub(crate) fn partition_row(rows: &[PartitionRow], serial: Serial) -> Option<PartitionRow>
    ensures { result ≡ find (is_partition serial.0) rows.now }
{
    rows.iter().copied().find(|row| row.serial == serial)
}

pub fn extent_row(rows: &[ExtentRow], serial: Serial) -> Option<ExtentRow>
    ensures { result ≡ find (is_extent serial.0) rows.now }
{
    rows.iter().copied().find(|row| row.serial == serial)
}

pub(crate) fn bell_row(rows: &[BellRow], serial: Serial) -> Option<BellRow>
    ensures { result ≡ find (is_bell serial.0) rows.now }
{
    rows.iter().copied().find(|row| row.serial == serial)
}

pub fn cpu_row(rows: &[CpuRow], cpu: CpuNo) -> Option<CpuRow>
    ensures { result ≡ find (is_cpu cpu.0) rows.now }
{
    rows.iter().copied().find(|row| row.cpu == cpu)
}

/// The capability in a slot.
pub(crate) fn capability_row(
    rows: &[CapabilityRow],
    cspace: Serial,
    slot: u64,
) -> Option<CapabilityRow>
    ensures { result ≡ find (fills cspace.0 slot) rows.now }
{
    rows.iter()
        .copied()
        .find(|row| row.cspace == cspace && row.slot as u64 == slot)
}

/// The row that says which entry set a slot.
pub(crate) fn setting_row(rows: &[SetAtRow], cspace: Serial, slot: u64) -> Option<SetAtRow>
    ensures { result ≡ find (tells_setting cspace.0 slot) rows.now }
{
    rows.iter()
        .copied()
        .find(|row| row.cspace == cspace && row.slot as u64 == slot)
}
