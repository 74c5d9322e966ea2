//! The calls that make, configure and activate objects.

ghost use Rattle.std.specs.Prelude.{◌≡◌};
ghost use Rattle.gh_model.specs.Registers.{call_of, function_number};

use crate::functions::{ACTIVATE, CONFIGURE_PARTITION, CREATE};
use crate::refusals::{accepted, is_outside};
use gh_base::{Call, Errno, Frame, PARTITION_UNITS};

/// The greatest number of a kind; the least is 1.
const KINDS: u64 = 6;

pub fn create(frame: &Frame) -> Result<Call, Errno>
    requires { function_number frame.now ≡ CREATE }
    ensures { result ≡ call_of frame.now }
{
    let [_, partition, cspace, kind, zero, ..] = frame.x;
    let refusals = [(is_outside(kind, KINDS), Errno::ArgInval)];
    let call = Call::Create {
        partition,
        cspace,
        kind,
    };
    accepted(call, zero, &refusals)
}

pub fn configure_partition(frame: &Frame) -> Result<Call, Errno>
    requires { function_number frame.now ≡ CONFIGURE_PARTITION }
    ensures { result ≡ call_of frame.now }
{
    let [_, cap, quota, zero, ..] = frame.x;
    let refusals = [(is_outside(quota, PARTITION_UNITS as u64), Errno::ArgInval)];
    accepted(Call::ConfigurePartition { cap, quota }, zero, &refusals)
}

pub fn activate(frame: &Frame) -> Result<Call, Errno>
    requires { function_number frame.now ≡ ACTIVATE }
    ensures { result ≡ call_of frame.now }
{
    let [_, cap, zero, ..] = frame.x;
    accepted(Call::Activate { cap }, zero, &[])
}
