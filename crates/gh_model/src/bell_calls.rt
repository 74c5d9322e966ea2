//! What the calls on doorbells come to.

ghost use Rattle.std.specs.Prelude.{◌≡◌, ◌∷◌, [], Option, IfOk};
ghost use Rattle.gh_model.specs.BellCalls.{sent, bell_send as bell_send_of, received};
ghost use Rattle.gh_model.specs.BellCalls.{bell_receive as bell_receive_of, masked};
ghost use Rattle.gh_model.specs.BellCalls.{bell_set_mask as bell_set_mask_of};
ghost use Rattle.gh_model.specs.BellCalls.{bell_reset as bell_reset_of};

use crate::capability_calls::{done, done_with, make_one};
use crate::change::{Change, Decision};
use crate::rows::BellRow;
use crate::state_reads::StateReads;
use gh_base::{NEW_BELL_ACK, NEW_BELL_ENABLE, NEW_BELL_FLAGS, NoMemory, Reply, Sequence, Serial};
use std::alloc::Global;

/// No change.
fn make_none(alloc: Global, reply: Reply) -> Decision
    ensures { result ≡ Decision.Make [] reply }
{
    Decision::Make {
        changes: Sequence::new(alloc),
        reply,
    }
}

fn sent(alloc: Global, flags: u64, row: Option<BellRow>) -> Result<Decision, NoMemory>
    ensures { IfOk result (λ decision. decision ≡ sent flags row) }
{
    match row {
        None => Ok(make_none(alloc, done_with(0))),
        Some(row) => {
            let new = BellRow {
                flags: row.flags | flags,
                ..row
            };
            make_one(alloc, Change::SetBell { row: new }, done_with(row.flags))
        }
    }
}

pub(crate) fn bell_send<R: StateReads>(
    alloc: Global,
    rows: &R,
    bell: Serial,
    flags: u64,
) -> Result<Decision, NoMemory>
    ensures { IfOk result (λ decision. decision ≡ bell_send_of (R.rows rows.now) bell flags) }
{
    sent(alloc, flags, rows.bell(bell))
}

fn received(alloc: Global, clear: u64, row: Option<BellRow>) -> Result<Decision, NoMemory>
    ensures { IfOk result (λ decision. decision ≡ received clear row) }
{
    match row {
        None => Ok(make_none(alloc, done_with(0))),
        Some(row) => {
            let new = BellRow {
                flags: row.flags & !clear,
                ..row
            };
            make_one(alloc, Change::SetBell { row: new }, done_with(row.flags))
        }
    }
}

pub(crate) fn bell_receive<R: StateReads>(
    alloc: Global,
    rows: &R,
    bell: Serial,
    clear: u64,
) -> Result<Decision, NoMemory>
    ensures { IfOk result (λ decision. decision ≡ bell_receive_of (R.rows rows.now) bell clear) }
{
    received(alloc, clear, rows.bell(bell))
}

fn masked(alloc: Global, enable: u64, ack: u64, row: Option<BellRow>) -> Result<Decision, NoMemory>
    ensures { IfOk result (λ decision. decision ≡ masked enable ack row) }
{
    match row {
        None => Ok(make_none(alloc, done())),
        Some(row) => {
            let new = BellRow { enable, ack, ..row };
            make_one(alloc, Change::SetBell { row: new }, done())
        }
    }
}

pub(crate) fn bell_set_mask<R: StateReads>(
    alloc: Global,
    rows: &R,
    bell: Serial,
    enable: u64,
    ack: u64,
) -> Result<Decision, NoMemory>
    ensures { IfOk result
        (λ decision. decision ≡ bell_set_mask_of (R.rows rows.now) bell enable ack) }
{
    masked(alloc, enable, ack, rows.bell(bell))
}

pub(crate) fn bell_reset(alloc: Global, bell: Serial) -> Result<Decision, NoMemory>
    ensures { IfOk result (λ decision. decision ≡ bell_reset_of bell) }
{
    let row = BellRow {
        serial: bell,
        flags: NEW_BELL_FLAGS,
        enable: NEW_BELL_ENABLE,
        ack: NEW_BELL_ACK,
    };
    make_one(alloc, Change::SetBell { row }, done())
}
