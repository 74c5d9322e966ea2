//! What the calls on objects come to.

ghost use Rattle.std.specs.Prelude.{◌≡◌, ◌≤◌, ◌∷◌, [], Option, IfOk};
ghost use Rattle.gh_base.specs.declared.limits.TheConstants.{MESSAGE_BYTES, QUEUE_DEPTH};
ghost use Rattle.gh_model.specs.Boot.{queue_cost};
ghost use Rattle.gh_model.specs.ObjectCalls.{is_full, lacks_room, new_object};
ghost use Rattle.gh_model.specs.ObjectCalls.{master_rights, new_master, created_in};
ghost use Rattle.gh_model.specs.ObjectCalls.{created, create as create_of, quota_given};
ghost use Rattle.gh_model.specs.ObjectCalls.{configure_partition as configure_partition_of};
ghost use Rattle.gh_model.specs.ObjectCalls.{room_cost, room_given};
ghost use Rattle.gh_model.specs.ObjectCalls.{configure_queue as configure_queue_of};
ghost use Rattle.gh_model.specs.ObjectCalls.{activated, activate as activate_of};

use crate::boot::cost_of_queue;
use crate::capability_calls::{done, done_with, make_one};
use crate::change::{Change, Decision};
use crate::rows::{CapabilityRow, ObjectRow, PartitionRow};
use crate::state_reads::StateReads;
use gh_base::{
    CSPACES, Errno, Kind, MESSAGE_BYTES, NoMemory, PARTITION_UNITS, PARTITIONS, QUEUE_DEPTH, Reply,
    Rights, Sequence, Serial, Stage,
};
use std::alloc::Global;

/// Two changes in order.
fn make_two(
    alloc: Global,
    first: Change,
    second: Change,
    reply: Reply,
) -> Result<Decision, NoMemory>
    ensures { IfOk result (λ decision. decision ≡ Decision.Make (first ∷ second ∷ []) reply) }
{
    let mut changes = Sequence::new(alloc);
    changes.push(first)?;
    changes.push(second)?;
    Ok(Decision::Make { changes, reply })
}

fn is_full<R: StateReads>(rows: &R, kind: Kind) -> bool
    ensures { result ≡ is_full (R.rows rows.now) kind }
{
    match kind {
        Kind::Partition => rows.kind_count(Kind::Partition) >= PARTITIONS,
        Kind::Cspace => rows.kind_count(Kind::Cspace) >= CSPACES,
        _ => false,
    }
}

fn lacks_room<R: StateReads>(rows: &R, partition: Serial, kind: Kind) -> bool
    ensures { result ≡ lacks_room (R.rows rows.now) partition kind }
{
    rows.free_units(partition) < kind.cost() || is_full(rows, kind)
}

fn new_object<R: StateReads>(rows: &R, partition: Serial, kind: Kind) -> ObjectRow
    ensures { result ≡ new_object (R.rows rows.now) partition kind }
{
    ObjectRow {
        serial: rows.next_serial(),
        kind,
        partition,
        stage: kind.first_stage(),
        cost: kind.cost(),
        retired: None,
    }
}

/// All rights of the kind but the resource manager's.
fn master_rights(kind: Kind) -> Rights
    ensures { result.0 ≡ master_rights kind }
{
    match kind {
        Kind::Partition => Rights(Rights::CREATE.0 + Rights::ACTIVATE.0),
        _ => kind.rights(),
    }
}

fn new_master<R: StateReads>(rows: &R, cspace: Serial, slot: u8, kind: Kind) -> CapabilityRow
    ensures { result ≡ new_master (R.rows rows.now) cspace slot kind }
{
    CapabilityRow {
        cspace,
        slot,
        serial: rows.next_serial(),
        kind,
        rights: master_rights(kind),
        master: true,
        valid: true,
    }
}

fn created_in<R: StateReads>(
    alloc: Global,
    rows: &R,
    partition: Serial,
    cspace: Serial,
    kind: Kind,
    slot: Option<u8>,
) -> Result<Decision, NoMemory>
    ensures { IfOk result
        (λ decision. decision ≡ created_in (R.rows rows.now) partition cspace kind slot) }
{
    match slot {
        None => Ok(Decision::Refuse {
            errno: Errno::CspaceFull,
        }),
        Some(slot) => {
            if lacks_room(rows, partition, kind) {
                return Ok(Decision::Refuse {
                    errno: Errno::Nomem,
                });
            }
            let object = Change::AddObject {
                row: new_object(rows, partition, kind),
            };
            let master = Change::PutCapability {
                row: new_master(rows, cspace, slot, kind),
            };
            make_two(alloc, object, master, done_with(slot as u64))
        }
    }
}

fn created<R: StateReads>(
    alloc: Global,
    rows: &R,
    partition: Serial,
    cspace: Serial,
    kind: Option<Kind>,
) -> Result<Decision, NoMemory>
    ensures { IfOk result (λ decision. decision ≡ created (R.rows rows.now) partition cspace kind) }
{
    match kind {
        None => Ok(Decision::Refuse {
            errno: Errno::ArgInval,
        }),
        Some(kind) => created_in(alloc, rows, partition, cspace, kind, rows.free_slot(cspace)),
    }
}

pub(crate) fn create<R: StateReads>(
    alloc: Global,
    rows: &R,
    partition: Serial,
    cspace: Serial,
    number: u64,
) -> Result<Decision, NoMemory>
    ensures { IfOk result
        (λ decision. decision ≡ create_of (R.rows rows.now) partition cspace number) }
{
    created(alloc, rows, partition, cspace, Kind::of_number(number))
}

fn quota_given<R: StateReads>(
    alloc: Global,
    rows: &R,
    partition: Serial,
    quota: u16,
    row: Option<PartitionRow>,
) -> Result<Decision, NoMemory>
    ensures { IfOk result
        (λ decision. decision ≡ quota_given (R.rows rows.now) partition quota row) }
{
    match row {
        Some(row) if rows.free_units(row.parent) >= quota => {
            let given = Change::GiveQuota { partition, quota };
            let ready = Change::SetStage {
                object: partition,
                stage: Stage::Ready,
            };
            make_two(alloc, ready, given, done())
        }
        _ => Ok(Decision::Refuse {
            errno: Errno::Nomem,
        }),
    }
}

pub(crate) fn configure_partition<R: StateReads>(
    alloc: Global,
    rows: &R,
    partition: Serial,
    quota: u64,
) -> Result<Decision, NoMemory>
    ensures { IfOk result
        (λ decision. decision ≡ configure_partition_of (R.rows rows.now) partition quota) }
{
    if quota > PARTITION_UNITS as u64 {
        return Ok(Decision::Refuse {
            errno: Errno::ArgInval,
        });
    }
    quota_given(
        alloc,
        rows,
        partition,
        quota as u16,
        rows.partition(partition),
    )
}

/// The room of a queue's messages in pages, rounded up.
fn room_cost(depth: u16, size: u16) -> u16
    requires depth { depth ≤ QUEUE_DEPTH }
    requires size { size ≤ MESSAGE_BYTES }
    ensures { result ≡ room_cost depth size }
{
    let bytes = depth as u32 * size as u32;
    ((bytes + 4095) / 4096) as u16
}

fn room_given<R: StateReads>(
    alloc: Global,
    rows: &R,
    queue: Serial,
    depth: u16,
    size: u16,
    row: Option<ObjectRow>,
) -> Result<Decision, NoMemory>
    requires depth { depth ≤ QUEUE_DEPTH }
    requires size { size ≤ MESSAGE_BYTES }
    ensures { IfOk result
        (λ decision. decision ≡ room_given (R.rows rows.now) queue depth size row) }
{
    match row {
        Some(row) if rows.free_units(row.partition) >= room_cost(depth, size) => {
            let room = Change::ConfigureQueue {
                queue,
                depth,
                size,
                cost: cost_of_queue(depth, size),
            };
            let ready = Change::SetStage {
                object: queue,
                stage: Stage::Ready,
            };
            make_two(alloc, ready, room, done())
        }
        _ => Ok(Decision::Refuse {
            errno: Errno::Nomem,
        }),
    }
}

pub(crate) fn configure_queue<R: StateReads>(
    alloc: Global,
    rows: &R,
    queue: Serial,
    depth: u64,
    size: u64,
) -> Result<Decision, NoMemory>
    ensures { IfOk result
        (λ decision. decision ≡ configure_queue_of (R.rows rows.now) queue depth size) }
{
    if depth > QUEUE_DEPTH || size > MESSAGE_BYTES as u64 {
        return Ok(Decision::Refuse {
            errno: Errno::ArgInval,
        });
    }
    room_given(
        alloc,
        rows,
        queue,
        depth as u16,
        size as u16,
        rows.object(queue),
    )
}

fn activated(alloc: Global, object: Serial, row: Option<ObjectRow>) -> Result<Decision, NoMemory>
    ensures { IfOk result (λ decision. decision ≡ activated object row) }
{
    match row {
        None => Ok(Decision::Refuse {
            errno: Errno::ObjState,
        }),
        Some(row) => match row.stage {
            Stage::Init => Ok(Decision::Refuse {
                errno: Errno::ObjConfig,
            }),
            _ => make_one(
                alloc,
                Change::SetStage {
                    object,
                    stage: Stage::Active,
                },
                done(),
            ),
        },
    }
}

pub(crate) fn activate<R: StateReads>(
    alloc: Global,
    rows: &R,
    object: Serial,
) -> Result<Decision, NoMemory>
    ensures { IfOk result (λ decision. decision ≡ activate_of (R.rows rows.now) object) }
{
    activated(alloc, object, rows.object(object))
}
