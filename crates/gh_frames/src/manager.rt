//! The calls of the resource manager.

ghost use Rattle.std.specs.Prelude.{◌≡◌, ◌||◌, nat_lt};
ghost use Rattle.gh_model.specs.Registers.{call_of, function_number};

use crate::functions::{RM_ACT, RM_POLL};
use crate::refusals::{accepted, is_outside};
use gh_base::{Call, Errno, Frame, VMS};

/// Bytes of a request's number, with which each request begins.
const LEAST_BYTES: usize = 4;

/// Bytes of the longest request.
const MOST_BYTES: usize = 14_620;

pub fn rm_act(frame: &Frame) -> Result<Call, Errno>
    requires { function_number frame.now ≡ RM_ACT }
    ensures { result ≡ call_of frame.now }
{
    let [_, cap, vm, zero, ..] = frame.x;
    let refusals = [
        (is_outside(vm, VMS as u64), Errno::ArgInval),
        (is_no_request(frame.bytes.len()), Errno::ArgSize),
    ];
    accepted(Call::RmAct { cap, vm }, zero, &refusals)
}

pub fn rm_poll(frame: &Frame) -> Result<Call, Errno>
    requires { function_number frame.now ≡ RM_POLL }
    ensures { result ≡ call_of frame.now }
{
    let [_, cap, zero, ..] = frame.x;
    accepted(Call::RmPoll { cap }, zero, &[])
}

fn is_no_request(bytes: usize) -> bool
    ensures { result ≡ nat_lt bytes LEAST_BYTES || nat_lt MOST_BYTES bytes }
{
    bytes < LEAST_BYTES || bytes > MOST_BYTES
}
