//! What the changes of slots make of the rows.

ghost use Rattle.std.specs.Prelude.{◌≡◌, ◌+◌, ◌-◌, ◌<◌, ◌++◌, ◌∷◌, [], length, position, take, OnOk, OnErr};
ghost use Rattle.gh_model.specs.Changes.{as_revoked, drop_capability as drop_capability_of, put_capability as put_capability_of, revoke_capability as revoke_capability_of, with_setting};
ghost use Rattle.gh_model.specs.Rows.{change_row, fills, tells_setting};

use crate::row_filter::empty_slot;
use crate::rows::{CapabilityRow, SetAtRow};
use crate::state::State;
use gh_base::{NoMemory, Sequence, Serial};
use std::alloc::Global;

fn setting_place(rows: &[SetAtRow], cspace: Serial, slot: u8) -> Option<usize>
    ensures { result ≡ position (tells_setting cspace.0 slot) rows.now }
{
    rows.iter()
        .position(|row| row.cspace == cspace && row.slot == slot)
}

/// A slot's setting becomes the number of an entry.
fn put_setting(
    rows: &mut Sequence<SetAtRow>,
    cspace: Serial,
    slot: u8,
    number: u32,
) -> Result<(), NoMemory>
    ensures ok { OnOk result (rows.new ≡ with_setting rows.old cspace slot number) }
    ensures err { OnErr result (rows.new ≡ rows.old) }
{
    match setting_place(rows.as_slice(), cspace, slot) {
        None => rows.push(SetAtRow {
            cspace,
            slot,
            number,
        }),
        Some(at) => {
            let row = rows.as_slice()[at];
            rows.set(at, SetAtRow { number, ..row });
            Ok(())
        }
    }
}

/// Takes the row away that was put last.
pub(crate) fn drop_last<T: Drop>(rows: &mut Sequence<T>)
    ensures { rows.new ≡ take (length rows.old - 1) rows.old }
{
    let _ = rows.pop();
}

/// A slot is filled.
pub(crate) fn put_capability(state: &mut State, row: CapabilityRow) -> Result<(), NoMemory>
    requires { state.old.entries < 4294967295 }
    ensures ok { OnOk result (state.new ≡ put_capability_of row state.old) }
    ensures err { OnErr result (state.new ≡ state.old) }
{
    state.caps.push(row)?;
    let number = state.entries + 1;
    let set = put_setting(&mut state.set_at, row.cspace, row.slot, number);
    if set.is_err() {
        drop_last(&mut state.caps);
    }
    set
}

/// A slot is emptied.
pub(crate) fn drop_capability(
    alloc: Global,
    state: &mut State,
    cspace: Serial,
    slot: u8,
) -> Result<(), NoMemory>
    requires { state.old.entries < 4294967295 }
    ensures ok { OnOk result (state.new ≡ drop_capability_of cspace slot state.old) }
    ensures err { OnErr result (state.new ≡ state.old) }
{
    let number = state.entries + 1;
    put_setting(&mut state.set_at, cspace, slot, number)?;
    empty_slot(alloc, &mut state.caps, cspace, slot);
    Ok(())
}

fn capability_place(rows: &[CapabilityRow], cspace: Serial, slot: u8) -> Option<usize>
    ensures { result ≡ position (fills cspace.0 slot) rows.now }
{
    rows.iter()
        .position(|row| row.cspace == cspace && row.slot == slot)
}

fn revoke_slot(caps: &mut Sequence<CapabilityRow>, cspace: Serial, slot: u8)
    ensures { caps.new ≡ change_row (fills cspace.0 slot) as_revoked caps.old }
{
    match capability_place(caps.as_slice(), cspace, slot) {
        None => {}
        Some(at) => {
            let row = caps.as_slice()[at];
            caps.set(
                at,
                CapabilityRow {
                    valid: false,
                    ..row
                },
            );
        }
    }
}

/// A slot's capability is revoked.
pub(crate) fn revoke_capability(state: &mut State, cspace: Serial, slot: u8) -> Result<(), NoMemory>
    requires { state.old.entries < 4294967295 }
    ensures ok { OnOk result (state.new ≡ revoke_capability_of cspace slot state.old) }
    ensures err { OnErr result (state.new ≡ state.old) }
{
    let number = state.entries + 1;
    put_setting(&mut state.set_at, cspace, slot, number)?;
    revoke_slot(&mut state.caps, cspace, slot);
    Ok(())
}
