//! The index of a new object, and the place that it is noted with.

ghost use Rattle.std.specs.Prelude.{◌≡◌, ◌+◌, ◌<◌, ◌≤◌, IfSome, find};
ghost use Rattle.std.specs.List.{list_any};
ghost use Rattle.gh_events.specs.Config.{is_at};
ghost use Rattle.gh_items.specs.NewIndex.{index_in_block, index_limit, least_in, place_for};
ghost use Rattle.gh_items.specs.Stands.{index_in, noted_in};
ghost use Rattle.gh_schedules.specs.Indices.{is_free};
ghost use Rattle.gh_schedules.specs.Places.{has_place, is_free_place, is_partition_kind};

use crate::sweep_reads::index_of;
use gh_base::{Kind, ObjIndex, PARTITION_PLACES, PARTITIONS, Serial};
use gh_model::{ObjectRow, State};

/// Whether the object lives at the index.
fn is_at(places: &[ObjIndex], at: usize, row: &ObjectRow) -> bool
    ensures { result ≡ is_at (index_in places.now) at row.now }
{
    index_of(places, row.serial).0 as usize == at
}

/// The object that lives at the index.
fn object_at(rows: &[ObjectRow], places: &[ObjIndex], at: usize) -> Option<ObjectRow>
    ensures { result ≡ find (is_at (index_in places.now) at) rows.now }
{
    rows.iter().copied().find(|row| is_at(places, at, row))
}

/// Whether no object lives at the index.
fn is_free(state: &State, places: &[ObjIndex], at: usize) -> bool
    ensures { result ≡ is_free state.now (index_in places.now) at }
{
    object_at(state.objects.as_slice(), places, at).is_none()
}

/// The least free index, of so many from the first on.
#[tactic(auto, unfolding(crate::specs::NewIndex::least_in))]
fn free_index(state: &State, places: &[ObjIndex], first: usize, count: usize) -> Option<usize>
    requires { first + count ≤ index_limit }
    ensures least { result ≡ least_in (is_free state.now (index_in places.now)) first count }
    ensures within { IfSome result (λ at. at < first + count) }
{
    (first..first + count).find(|at| is_free(state, places, *at))
}

fn is_partition(kind: Kind) -> bool
    ensures { result ≡ is_partition_kind kind }
{
    matches!(kind, Kind::Partition)
}

/// The place that the object was noted with, 0 where none was made.
fn noted_place(noted: &[u8], serial: Serial) -> u8
    ensures { result ≡ noted_in noted.now serial.0 }
{
    match noted.get(serial.0.saturating_sub(1) as usize) {
        None => 0,
        Some(place) => *place,
    }
}

/// Whether the row is that of a partition with this place.
fn has_place(noted: &[u8], place: usize, row: &ObjectRow) -> bool
    ensures { result ≡ has_place (noted_in noted.now) place row.now }
{
    is_partition(row.kind) && noted_place(noted, row.serial) as usize == place
}

/// Whether a partition has this place.
fn is_taken_place(rows: &[ObjectRow], noted: &[u8], place: usize) -> bool
    ensures { result ≡ list_any (has_place (noted_in noted.now) place) rows.now }
{
    rows.iter().any(|row| has_place(noted, place, row))
}

/// Whether no partition that lives has this place.
fn is_free_place(state: &State, noted: &[u8], place: usize) -> bool
    ensures { result ≡ is_free_place state.now (noted_in noted.now) place }
{
    !is_taken_place(state.objects.as_slice(), noted, place)
}

/// The least place that no partition has, of so many.
#[tactic(auto, unfolding(crate::specs::NewIndex::least_in))]
fn free_place(state: &State, noted: &[u8], count: usize) -> Option<usize>
    ensures least { result ≡ least_in (is_free_place state.now (noted_in noted.now)) 0 count }
    ensures within { IfSome result (λ place. place < count) }
{
    (0..count).find(|place| is_free_place(state, noted, *place))
}

/// The place that a new object is noted with, 0 where all are taken.
pub(crate) fn new_place(state: &State, noted: &[u8]) -> u8
    ensures { result ≡ place_for state.now (noted_in noted.now) }
{
    match free_place(state, noted, PARTITIONS) {
        None => 0,
        Some(place) => place as u8,
    }
}

/// The index that a new object gets in this partition, 0 where none is free.
pub(crate) fn new_index(
    state: &State,
    noted: &[u8],
    places: &[ObjIndex],
    partition: Serial,
) -> ObjIndex
    ensures { result.0
        ≡ index_in_block state.now (index_in places.now) (noted_in noted.now partition.0) }
{
    let first = noted_place(noted, partition) as usize * PARTITION_PLACES;
    match free_index(state, places, first, PARTITION_PLACES) {
        None => ObjIndex(0),
        Some(index) => ObjIndex(index as u16),
    }
}
