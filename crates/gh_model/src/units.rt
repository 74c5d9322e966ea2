//! The units of partitions.

ghost use Rattle.std.specs.Prelude.{◌≡◌, find};
ghost use Rattle.gh_model.specs.Rows.{is_partition};
ghost use Rattle.gh_model.specs.Units.{used_by, given_by, row_quota, rest_units};

use crate::lookup::partition_row;
use crate::rows::{ObjectRow, PartitionRow};
use gh_base::Serial;

/// The costs of the objects that live in the partition, added up.
pub(crate) fn used(objects: &[ObjectRow], partition: Serial) -> u128
    ensures { result ≡ used_by objects.now partition.0 }
{
    objects
        .iter()
        .filter(|row| row.partition == partition)
        .map(|row| row.cost as u128)
        .sum()
}

/// The quotas of the partitions that calls made from this one, added up.
pub(crate) fn given(partitions: &[PartitionRow], parent: Serial) -> u128
    ensures { result ≡ given_by partitions.now parent.0 }
{
    partitions
        .iter()
        .filter(|row| row.parent == parent)
        .map(|row| row.quota as u128)
        .sum()
}

/// The partition's quota, 0 until it is configured.
fn quota(partitions: &[PartitionRow], partition: Serial) -> u16
    ensures { result ≡ row_quota (find (is_partition partition.0) partitions.now) }
{
    match partition_row(partitions, partition) {
        None => 0,
        Some(row) => row.quota,
    }
}

/// What is left of the partition's quota.
pub(crate) fn free(objects: &[ObjectRow], partitions: &[PartitionRow], partition: Serial) -> u16
    ensures { result ≡ rest_units objects.now partitions.now partition.0 }
{
    let quota = quota(partitions, partition) as u128;
    let rest = quota
        .saturating_sub(used(objects, partition))
        .saturating_sub(given(partitions, partition));
    rest as u16
}
