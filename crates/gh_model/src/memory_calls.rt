//! What the calls on memory come to. Registers are in bytes, rows in pages of 4,096 bytes.

ghost use Rattle.std.specs.Prelude.{◌≡◌, ◌+◌, ◌≤◌, ◌<◌};
ghost use Rattle.std.specs.Prelude.{◌∷◌, [], length, Option, IfOk, find};
ghost use Rattle.gh_model.specs.Boot.{access_fits};
ghost use Rattle.gh_model.specs.Decisions.{grant_at, done};
ghost use Rattle.gh_model.specs.MemoryCalls.{named_space, named_extent, meant_offset, meant_count};
ghost use Rattle.gh_model.specs.MemoryCalls.{mapped_row, mapped_at, mapped, map as map_of};
ghost use Rattle.gh_model.specs.MemoryCalls.{unmapped_row, unmapped, unmap as unmap_of};
ghost use Rattle.gh_model.specs.MemoryCalls.{derived_row, derived_at, derived};
ghost use Rattle.gh_model.specs.MemoryCalls.{derive as derive_of, are_related, is_within_span};
ghost use Rattle.gh_model.specs.MemoryCalls.{donated_at, donated_to, donated, donate as donate_of};
ghost use Rattle.gh_model.specs.MemoryCalls.{looked_up, as_lookup as as_lookup_of};
ghost use Rattle.gh_model.specs.Registers.{has_partial, user_access};
ghost use Rattle.gh_model.specs.Small.{IsSmall};

use crate::capability_calls::{done, make_one};
use crate::change::{Change, Decision};
use crate::rows::{ExtentRow, MappingRow};
use crate::state_reads::StateReads;
use gh_base::{
    Access, CpuNo, Errno, NoMemory, PAGE_BYTES, PageNo, Reply, SPACE_PAGES, SPACE_ROWS, Sequence,
    Serial, Stage,
};
use std::alloc::Global;

/// The object that the look of this place granted.
pub(crate) fn grant_at(grants: &[Serial], at: usize) -> Serial
    ensures { result ≡ grant_at grants.now at }
{
    match grants.get(at) {
        None => Serial(0),
        Some(grant) => *grant,
    }
}

/// The address space that a call names; 0 is the caller's own.
pub(crate) fn named_space<R: StateReads>(
    rows: &R,
    cpu: CpuNo,
    space: u64,
    grants: &[Serial],
) -> Serial
    ensures { result ≡ named_space (R.rows rows.now) cpu.0 space grants.now }
{
    if space != 0 {
        return grant_at(grants, 0);
    }
    match rows.cpu(cpu) {
        None => Serial(0),
        Some(row) => row.space,
    }
}

/// The extent that map and unmap name.
pub(crate) fn named_extent(space: u64, grants: &[Serial]) -> Serial
    ensures { result ≡ named_extent space grants.now }
{
    grant_at(grants, if space == 0 { 0 } else { 1 })
}

fn has_partial(flags: u64) -> bool
    ensures { result ≡ has_partial flags }
{
    flags % 2 == 1
}

fn meant_offset(flags: u64, offset: u64) -> u64
    ensures { result ≡ meant_offset flags offset }
{
    if has_partial(flags) {
        offset / PAGE_BYTES
    } else {
        0
    }
}

fn meant_count(row: ExtentRow, flags: u64, size: u64) -> u64
    ensures { result ≡ meant_count row flags size }
{
    if has_partial(flags) {
        size / PAGE_BYTES
    } else {
        row.count as u64
    }
}

fn fits(access: u64, wider: Access) -> bool
    ensures { result ≡ access_fits access wider.0 }
{
    access & wider.0 as u64 == access
}

/// Where and how map puts pages of an extent.
#[derive(Clone, Copy)]
struct Mapping {
    base: u64,
    offset: u64,
    count: u64,
    access: u8,
}

fn mapped_at<R: StateReads>(
    alloc: Global,
    rows: &R,
    space: Serial,
    extent: Serial,
    row: ExtentRow,
    new: Mapping,
) -> Result<Decision, NoMemory>
    ensures { IfOk result
        (λ decision. decision
        ≡ mapped_at (R.rows rows.now) space extent row new.base new.offset new.count new.access) }
{
    let errno = if new.base as u128 + new.count as u128 > SPACE_PAGES as u128 {
        Errno::AddrOvfl
    } else if new.offset as u128 + new.count as u128 > row.count as u128 {
        Errno::ArgSize
    } else if !fits(new.access as u64, row.access) {
        Errno::Denied
    } else if rows.overlaps(space, new.base, new.count) {
        Errno::Busy
    } else if rows.mappings(space) >= SPACE_ROWS {
        Errno::Nomem
    } else {
        let row = MappingRow {
            space,
            extent,
            base: new.base,
            offset: new.offset,
            count: new.count,
            access: Access(new.access),
            handle: 0,
        };
        return make_one(alloc, Change::PutMapping { row }, done());
    };
    Ok(Decision::Refuse { errno })
}

pub(crate) fn map<R: StateReads>(
    alloc: Global,
    rows: &R,
    space: Serial,
    extent: Serial,
    base: u64,
    attributes: u64,
    flags: u64,
    offset: u64,
    size: u64,
) -> Result<Decision, NoMemory>
    ensures { IfOk result
        (λ decision. decision
        ≡ map_of (R.rows rows.now) space extent base attributes flags offset size) }
{
    match rows.extent(extent) {
        None => Ok(Decision::Refuse {
            errno: Errno::Denied,
        }),
        Some(row) => {
            let new = Mapping {
                base: base / PAGE_BYTES,
                offset: meant_offset(flags, offset),
                count: meant_count(row, flags, size),
                access: (attributes % 8) as u8,
            };
            mapped_at(alloc, rows, space, extent, row, new)
        }
    }
}

fn unmapped_row(alloc: Global, row: Option<MappingRow>) -> Result<Decision, NoMemory>
    ensures { IfOk result (λ decision. decision ≡ unmapped_row row) }
{
    match row {
        None => Ok(Decision::Refuse {
            errno: Errno::AddrInval,
        }),
        Some(row) => make_one(alloc, Change::DropMapping { row }, done()),
    }
}

pub(crate) fn unmap<R: StateReads>(
    alloc: Global,
    rows: &R,
    space: Serial,
    extent: Serial,
    base: u64,
    flags: u64,
    offset: u64,
    size: u64,
) -> Result<Decision, NoMemory>
    ensures { IfOk result
        (λ decision. decision ≡ unmap_of (R.rows rows.now) space extent base flags offset size) }
{
    match rows.extent(extent) {
        None => Ok(Decision::Refuse {
            errno: Errno::AddrInval,
        }),
        Some(row) => {
            let offset = meant_offset(flags, offset);
            let count = meant_count(row, flags, size);
            unmapped_row(
                alloc,
                rows.mapping(space, extent, base / PAGE_BYTES, offset, count),
            )
        }
    }
}

/// The changes of a derive.
fn derive_changes(alloc: Global, child: Serial, row: ExtentRow) -> Result<Decision, NoMemory>
    ensures { IfOk result
        (λ decision. decision
        ≡ Decision.Make
        (Change.SetStage child Stage.Ready ∷ Change.AddExtent row
        ∷ Change.MovePages row.first.0 row.count child ∷ []) done) }
{
    let mut changes = Sequence::new(alloc);
    changes.push(Change::SetStage {
        object: child,
        stage: Stage::Ready,
    })?;
    changes.push(Change::AddExtent { row })?;
    changes.push(Change::MovePages {
        first: row.first.0,
        count: row.count,
        holder: child,
    })?;
    let reply = done();
    Ok(Decision::Make { changes, reply })
}

fn derived_at<R: StateReads>(
    alloc: Global,
    rows: &R,
    child: Serial,
    parent: Serial,
    row: ExtentRow,
    offset: u64,
    count: u64,
    access: u64,
) -> Result<Decision, NoMemory>
    requires { IsSmall (R.rows rows.now) }
    ensures { IfOk result
        (λ decision. decision ≡ derived_at (R.rows rows.now) child parent row offset count access) }
{
    let first = row.first.0 as u128 + offset as u128;
    if offset as u128 + count as u128 > row.count as u128 {
        return Ok(Decision::Refuse {
            errno: Errno::ArgSize,
        });
    }
    if !rows.holds_run(parent, first, count as u128) || !fits(access, row.access) {
        return Ok(Decision::Refuse {
            errno: Errno::Denied,
        });
    }
    let new = ExtentRow {
        serial: child,
        parent,
        first: PageNo(first as u16),
        count: count as u16,
        access: Access((access & row.access.0 as u64) as u8),
        parcel: false,
    };
    derive_changes(alloc, child, new)
}

pub(crate) fn derive<R: StateReads>(
    alloc: Global,
    rows: &R,
    child: Serial,
    parent: Serial,
    offset: u64,
    size: u64,
    access: u64,
) -> Result<Decision, NoMemory>
    requires { IsSmall (R.rows rows.now) }
    ensures { IfOk result
        (λ decision. decision ≡ derive_of (R.rows rows.now) child parent offset size access) }
{
    match rows.extent(parent) {
        None => Ok(Decision::Refuse {
            errno: Errno::ArgSize,
        }),
        Some(row) => derived_at(
            alloc,
            rows,
            child,
            parent,
            row,
            offset / PAGE_BYTES,
            size / PAGE_BYTES,
            access,
        ),
    }
}

/// Whether the receiver is so related to the giver: 0 its child, 1 its parent, 2 its sibling.
fn are_related(relation: u64, giver: ExtentRow, receiver: ExtentRow) -> bool
    ensures { result ≡ are_related relation giver receiver }
{
    if relation == 0 {
        receiver.parent == giver.serial
    } else if relation == 1 {
        giver.parent == receiver.serial
    } else {
        relation == 2 && giver.parent == receiver.parent && giver.serial != receiver.serial
    }
}

fn is_within_span(row: ExtentRow, first: u128, count: u64) -> bool
    requires { first < 1000000000000000000000000 }
    ensures { result ≡ is_within_span row first count }
{
    let span = row.first.0 as u128;
    span <= first && first + count as u128 <= span + row.count as u128
}

fn donated_at<R: StateReads>(
    alloc: Global,
    rows: &R,
    relation: u64,
    giver: ExtentRow,
    receiver: ExtentRow,
    first: u128,
    count: u64,
) -> Result<Decision, NoMemory>
    requires small { IsSmall (R.rows rows.now) }
    requires first { first < 1000000000000000000000000 }
    ensures { IfOk result
        (λ decision. decision ≡ donated_at (R.rows rows.now) relation giver receiver first count) }
{
    let errno = if !are_related(relation, giver, receiver) {
        Errno::ArgInval
    } else if !is_within_span(receiver, first, count) {
        Errno::AddrInval
    } else if !rows.holds_run(giver.serial, first, count as u128) {
        Errno::Denied
    } else {
        let change = Change::MovePages {
            first: first as u16,
            count: count as u16,
            holder: receiver.serial,
        };
        return make_one(alloc, change, done());
    };
    Ok(Decision::Refuse { errno })
}

fn donated_to<R: StateReads>(
    alloc: Global,
    rows: &R,
    relation: u64,
    offset: u64,
    count: u64,
    giver: ExtentRow,
    receiver: Option<ExtentRow>,
) -> Result<Decision, NoMemory>
    requires { IsSmall (R.rows rows.now) }
    ensures { IfOk result
        (λ decision. decision ≡ donated_to (R.rows rows.now) relation offset count giver receiver) }
{
    match receiver {
        None => Ok(Decision::Refuse {
            errno: Errno::ArgInval,
        }),
        Some(receiver) => {
            let first = giver.first.0 as u128 + offset as u128;
            donated_at(alloc, rows, relation, giver, receiver, first, count)
        }
    }
}

pub(crate) fn donate<R: StateReads>(
    alloc: Global,
    rows: &R,
    options: u64,
    giver: Serial,
    receiver: Serial,
    offset: u64,
    size: u64,
) -> Result<Decision, NoMemory>
    requires { IsSmall (R.rows rows.now) }
    ensures { IfOk result
        (λ decision. decision ≡ donate_of (R.rows rows.now) options giver receiver offset size) }
{
    match rows.extent(giver) {
        None => Ok(Decision::Refuse {
            errno: Errno::ArgInval,
        }),
        Some(giver) => donated_to(
            alloc,
            rows,
            options % 256,
            offset / PAGE_BYTES,
            size / PAGE_BYTES,
            giver,
            rows.extent(receiver),
        ),
    }
}

fn looked_up(alloc: Global, found: Option<(PageNo, Access)>) -> Decision
    ensures { result ≡ looked_up found }
{
    match found {
        None => Decision::Refuse {
            errno: Errno::AddrInval,
        },
        Some(found) => Decision::Make {
            changes: Sequence::new(alloc),
            reply: Reply::registers(0, found.0.0 as u64 * PAGE_BYTES, found.1.0 as u64, 0),
        },
    }
}

pub(crate) fn as_lookup<R: StateReads>(
    alloc: Global,
    rows: &R,
    space: Serial,
    address: u64,
) -> Decision
    requires { IsSmall (R.rows rows.now) }
    ensures { result ≡ as_lookup_of (R.rows rows.now) space address }
{
    let page = address / PAGE_BYTES;
    if page < SPACE_PAGES {
        looked_up(alloc, rows.access(space, page as u16))
    } else {
        Decision::Refuse {
            errno: Errno::AddrInval,
        }
    }
}
