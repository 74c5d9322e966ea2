//! The entries of the history that are no acts, made on the rows.

ghost use Rattle.std.specs.Prelude.{◌≡◌, ◌&&◌, ◌<◌, find};
ghost use Rattle.std.specs.Prelude.{if◌then◌else◌, IfOk, OnOk, OnErr};
ghost use Rattle.gh_base.specs.declared.limits.TheConstants.{HISTORY_ENTRIES};
ghost use Rattle.gh_model.specs.Changes.{revoke_capability as revoke_capability_of};
ghost use Rattle.gh_model.specs.History.{is_retired, is_unretired, may_part};
ghost use Rattle.gh_model.specs.History.{numbered, parted, reclaimed, retired, took};
ghost use Rattle.gh_model.specs.References.{is_doomed};
ghost use Rattle.gh_model.specs.Rows.{fills, object_row as object_row_of};

use crate::act::count;
use crate::lookup::{capability_row, object_row};
use crate::object_changes::{reclaim_object, retire_object};
use crate::references::doomed;
use crate::rows::{CapabilityRow, ObjectRow, TakenSlot};
use crate::slots::{drop_last, revoke_capability};
use crate::state::State;
use gh_base::{NoMemory, Serial};
use std::alloc::Global;

fn may_part(row: Option<CapabilityRow>) -> bool
    ensures { result ≡ may_part row }
{
    match row {
        None => false,
        Some(row) => row.valid && !row.master,
    }
}

/// A slot is revoked and taken by the next entry.
fn make_part(state: &mut State, space: Serial, slot: u8) -> Result<(), NoMemory>
    requires { state.old.entries < HISTORY_ENTRIES }
    ensures ok { OnOk result
        (state.new ≡ numbered (took (revoke_capability_of space slot state.old) space slot)) }
    ensures err { OnErr result (state.new ≡ state.old) }
{
    state.taken.push(TakenSlot {
        cspace: space,
        slot,
    })?;
    let revoked = revoke_capability(state, space, slot);
    if revoked.is_err() {
        drop_last(&mut state.taken);
    } else {
        state.entries += 1;
    }
    revoked
}

/// A slot of a revoke, where it has a valid capability without master mark.
pub(crate) fn part(state: &mut State, space: Serial, slot: u8) -> Result<bool, NoMemory>
    requires { state.old.entries < HISTORY_ENTRIES }
    ensures may { IfOk result (λ made. made ≡ may_part (find (fills space.0 slot) state.old.caps)) }
    ensures made { IfOk result
        (λ made. state.new ≡ (if made then parted state.old space slot else state.old)) }
    ensures no_memory { OnErr result (state.new ≡ state.old) }
{
    if !may_part(capability_row(state.caps.as_slice(), space, slot as u64)) {
        return Ok(false);
    }
    make_part(state, space, slot)?;
    Ok(true)
}

fn is_retired(row: Option<ObjectRow>) -> bool
    ensures { result ≡ is_retired row }
{
    match row {
        None => false,
        Some(row) => row.retired.is_some(),
    }
}

fn is_unretired(row: Option<ObjectRow>) -> bool
    ensures { result ≡ is_unretired row }
{
    match row {
        None => false,
        Some(row) => row.retired.is_none(),
    }
}

/// An object's row gets the counters of its retirement.
pub(crate) fn retire(state: &mut State, serial: Serial, seen: [u64; 9]) -> bool
    requires { state.old.entries < HISTORY_ENTRIES }
    ensures may { result
        ≡ (is_doomed state.old serial.0 && is_unretired (object_row_of state.old serial.0)) }
    ensures made { state.new ≡ (if result then retired state.old serial seen else state.old) }
{
    let may = doomed(state, serial) && is_unretired(object_row(state.objects.as_slice(), serial));
    if may {
        retire_object(state, serial, seen);
        count(state);
    }
    may
}

/// A retired object goes with all its rows.
pub(crate) fn reclaim(alloc: Global, state: &mut State, serial: Serial) -> bool
    requires { state.old.entries < HISTORY_ENTRIES }
    ensures may { result
        ≡ (is_doomed state.old serial.0 && is_retired (object_row_of state.old serial.0)) }
    ensures made { state.new ≡ (if result then reclaimed state.old serial else state.old) }
{
    let may = doomed(state, serial) && is_retired(object_row(state.objects.as_slice(), serial));
    if may {
        reclaim_object(alloc, state, serial);
        count(state);
    }
    may
}
