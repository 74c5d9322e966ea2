//! What the calls on capabilities come to.

ghost use Rattle.std.specs.Prelude.{◌≡◌, ◌∷◌, [], length, Option, IfOk};
ghost use Rattle.gh_model.specs.Decisions.{make_one, done, done_with};
ghost use Rattle.gh_model.specs.Boot.{cpu_cspace};
ghost use Rattle.gh_model.specs.CapabilityCalls.{copy_of, copied_into, is_valid_of};
ghost use Rattle.gh_model.specs.CapabilityCalls.{copied, cap_copy as cap_copy_of};
ghost use Rattle.gh_model.specs.CapabilityCalls.{deleted, cap_delete as cap_delete_of};
ghost use Rattle.gh_model.specs.CapabilityCalls.{revoked, cap_revoke as cap_revoke_of};
ghost use Rattle.gh_model.specs.CapabilityCalls.{caps_revoke as caps_revoke_of};

use crate::change::{Change, Decision};
use crate::rows::{CapabilityRow, CpuRow};
use crate::state_reads::StateReads;
use gh_base::{CpuNo, Errno, NoMemory, Reply, Rights, Sequence, Serial};
use std::alloc::Global;

/// One change.
pub(crate) fn make_one(alloc: Global, change: Change, reply: Reply) -> Result<Decision, NoMemory>
    ensures { IfOk result (λ decision. decision ≡ make_one change reply) }
{
    let mut changes = Sequence::new(alloc);
    changes.push(change)?;
    Ok(Decision::Make { changes, reply })
}

/// The reply of a call that is done, with a register more.
pub(crate) fn done_with(x1: u64) -> Reply
    ensures { result ≡ done_with x1 }
{
    Reply::registers(0, x1, 0, 0)
}

pub(crate) fn done() -> Reply
    ensures { result ≡ done }
{
    Reply::registers(0, 0, 0, 0)
}

fn copy_of(row: CapabilityRow, cspace: Serial, slot: u8, mask: u64) -> CapabilityRow
    ensures { result ≡ copy_of row cspace slot mask }
{
    let rights = row.rights.0 as u64 & mask;
    CapabilityRow {
        cspace,
        slot,
        rights: Rights(rights as u16),
        master: false,
        ..row
    }
}

fn copied_into(
    alloc: Global,
    row: CapabilityRow,
    cspace: Serial,
    mask: u64,
    slot: Option<u8>,
) -> Result<Decision, NoMemory>
    ensures { IfOk result (λ decision. decision ≡ copied_into row cspace mask slot) }
{
    match slot {
        None => Ok(Decision::Refuse {
            errno: Errno::CspaceFull,
        }),
        Some(slot) => {
            let row = copy_of(row, cspace, slot, mask);
            make_one(alloc, Change::PutCapability { row }, done_with(slot as u64))
        }
    }
}

fn copied<R: StateReads>(
    alloc: Global,
    rows: &R,
    cspace: Serial,
    object: Serial,
    mask: u64,
    source: Option<CapabilityRow>,
) -> Result<Decision, NoMemory>
    ensures { IfOk result
        (λ decision. decision ≡ copied (R.rows rows.now) cspace object mask source) }
{
    match source {
        Some(row) if row.valid && row.serial == object => {
            copied_into(alloc, row, cspace, mask, rows.free_slot(cspace))
        }
        _ => Ok(Decision::Refuse {
            errno: Errno::Retry,
        }),
    }
}

/// The capability space of a CPU; serial 0 where there is no such CPU.
fn cspace_of<R: StateReads>(rows: &R, cpu: CpuNo) -> Serial
    ensures { result.0 ≡ cpu_cspace (R.rows rows.now).cpus cpu.0 }
{
    match rows.cpu(cpu) {
        None => Serial(0),
        Some(row) => row.cspace,
    }
}

pub(crate) fn cap_copy<R: StateReads>(
    alloc: Global,
    rows: &R,
    cpu: CpuNo,
    cspace: Serial,
    object: Serial,
    source: u64,
    mask: u64,
) -> Result<Decision, NoMemory>
    ensures { IfOk result
        (λ decision. decision ≡ cap_copy_of (R.rows rows.now) cpu.0 cspace object source mask) }
{
    let word = rows.word(cspace_of(rows, cpu), source);
    copied(alloc, rows, cspace, object, mask, word.row)
}

fn deleted(alloc: Global, row: Option<CapabilityRow>) -> Result<Decision, NoMemory>
    ensures { IfOk result (λ decision. decision ≡ deleted row) }
{
    match row {
        None => Ok(Decision::Refuse {
            errno: Errno::CapNull,
        }),
        Some(row) => make_one(
            alloc,
            Change::DropCapability {
                cspace: row.cspace,
                slot: row.slot,
            },
            done(),
        ),
    }
}

pub(crate) fn cap_delete<R: StateReads>(
    alloc: Global,
    rows: &R,
    cspace: Serial,
    slot: u64,
) -> Result<Decision, NoMemory>
    ensures { IfOk result (λ decision. decision ≡ cap_delete_of (R.rows rows.now) cspace slot) }
{
    deleted(alloc, rows.word(cspace, slot).row)
}

fn revoked(alloc: Global, row: Option<CapabilityRow>) -> Result<Decision, NoMemory>
    ensures { IfOk result (λ decision. decision ≡ revoked row) }
{
    let errno = match row {
        None => Errno::CapNull,
        Some(row) if !row.valid => Errno::CapRevoked,
        Some(row) if row.master => Errno::InsufRights,
        Some(row) => {
            let change = Change::RevokeCapability {
                cspace: row.cspace,
                slot: row.slot,
            };
            return make_one(alloc, change, done());
        }
    };
    Ok(Decision::Refuse { errno })
}

pub(crate) fn cap_revoke<R: StateReads>(
    alloc: Global,
    rows: &R,
    cspace: Serial,
    slot: u64,
) -> Result<Decision, NoMemory>
    ensures { IfOk result (λ decision. decision ≡ cap_revoke_of (R.rows rows.now) cspace slot) }
{
    revoked(alloc, rows.word(cspace, slot).row)
}

pub(crate) fn caps_revoke<R: StateReads>(alloc: Global, rows: &R, object: Serial) -> Decision
    ensures { result ≡ caps_revoke_of (R.rows rows.now) object }
{
    if rows.finished(object) {
        Decision::Make {
            changes: Sequence::new(alloc),
            reply: done_with(rows.taken() as u64),
        }
    } else {
        Decision::Unfinished
    }
}
