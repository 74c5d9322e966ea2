//! The capabilities that boot lines put into slots.

ghost use Rattle.std.specs.Prelude.{◌≡◌, false};
ghost use Rattle.gh_model.specs.Boot.{boot_capability, object_kind};

use crate::lookup::object_row;
use crate::rows::{CapabilityRow, ObjectRow};
use crate::state::State;
use gh_base::{Kind, Rights, Serial};

/// The kind of an object; a partition where there is none.
fn kind_of_object(objects: &[ObjectRow], serial: Serial) -> Kind
    ensures { result ≡ object_kind objects.now serial.0 }
{
    match object_row(objects, serial) {
        None => Kind::Partition,
        Some(row) => row.kind,
    }
}

/// A valid capability without a master mark.
pub(crate) fn plain_capability(
    state: &State,
    cspace: Serial,
    slot: u8,
    object: Serial,
    rights: Rights,
) -> CapabilityRow
    ensures { result ≡ boot_capability state.now cspace.0 slot object.0 rights.0 false }
{
    CapabilityRow {
        cspace,
        slot,
        serial: object,
        kind: kind_of_object(state.objects.as_slice(), object),
        rights,
        master: false,
        valid: true,
    }
}

/// A capability, with a master mark or without.
pub(crate) fn new_capability(
    state: &State,
    cspace: Serial,
    slot: u8,
    object: Serial,
    rights: Rights,
    master: bool,
) -> CapabilityRow
    ensures { result ≡ boot_capability state.now cspace.0 slot object.0 rights.0 master }
{
    CapabilityRow {
        master,
        ..plain_capability(state, cspace, slot, object, rights)
    }
}
