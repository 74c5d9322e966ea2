//! The partition places: for each the index of the live partition that has it.

ghost use Rattle.std.specs.Prelude.{◌≡◌, ◌<◌, IfSome, is_none, is_some, length};
ghost use Rattle.std.specs.Prelude.{nat_lt, count_by, position, slice_index_or};
ghost use Rattle.std.specs.List.{position_or_len};
ghost use Rattle.gh_objects.specs.Headers.{is_had_by, is_partition_kind};

use gh_base::{Kind, ObjIndex, PARTITIONS};

/// Whether the kind is that of partitions.
pub fn is_partition_kind(kind: Kind) -> bool
    ensures { result ≡ is_partition_kind kind }
{
    match kind {
        Kind::Partition => true,
        Kind::Cspace | Kind::Space | Kind::Extent | Kind::Bell | Kind::Queue => false,
    }
}

/// The partition place of the partition of this index; none where it has none.
pub fn place_of(partitions: &[Option<ObjIndex>; PARTITIONS], index: ObjIndex) -> Option<usize>
    ensures { result ≡ position (is_had_by index.0) partitions.now }
{
    partitions.iter().position(|had| is_had_by(*had, index))
}

/// The least partition place that no live partition has.
#[tactic(auto, using(crate::proofs::ListLemmas::position_within))]
pub fn free_place(partitions: &[Option<ObjIndex>; PARTITIONS]) -> usize
    requires { count_by is_some partitions.now < length partitions.now }
    ensures least { result ≡ position_or_len is_none partitions.now }
    ensures within { result < length partitions.now }
    ensures free { slice_index_or partitions.now result None ≡ None }
{
    find_free(partitions).unwrap()
}

/// Whether a partition place is left that no live partition has.
pub fn has_free_place(partitions: &[Option<ObjIndex>; PARTITIONS]) -> bool
    ensures { result ≡ nat_lt (count_by is_some partitions.now) (length partitions.now) }
{
    find_free(partitions).is_some()
}

/// The least partition place that no live partition has; none where each is had.
pub fn find_free(partitions: &[Option<ObjIndex>; PARTITIONS]) -> Option<usize>
    ensures place { result ≡ position is_none partitions.now }
    ensures within { IfSome result (λ place. place < PARTITIONS) }
{
    partitions.iter().position(|had| is_free(*had))
}

fn is_free(had: Option<ObjIndex>) -> bool
    ensures { result ≡ is_none had }
{
    match had {
        Some(_) => false,
        None => true,
    }
}

fn is_had_by(had: Option<ObjIndex>, index: ObjIndex) -> bool
    ensures { result ≡ is_had_by index.0 had }
{
    match had {
        Some(partition) => partition.0 == index.0,
        None => false,
    }
}
