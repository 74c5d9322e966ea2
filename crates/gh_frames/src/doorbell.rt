//! The calls on doorbells.

ghost use Rattle.std.specs.Prelude.{◌≡◌};
ghost use Rattle.gh_model.specs.Registers.{call_of, function_number};

use crate::functions::{BELL_RECEIVE, BELL_RESET, BELL_SEND, BELL_SET_MASK};
use crate::refusals::accepted;
use gh_base::{Call, Errno, Frame};

pub fn bell_send(frame: &Frame) -> Result<Call, Errno>
    requires { function_number frame.now ≡ BELL_SEND }
    ensures { result ≡ call_of frame.now }
{
    let [_, cap, flags, zero, ..] = frame.x;
    let refusals = [(flags == 0, Errno::ArgInval)];
    accepted(Call::BellSend { cap, flags }, zero, &refusals)
}

pub fn bell_set_mask(frame: &Frame) -> Result<Call, Errno>
    requires { function_number frame.now ≡ BELL_SET_MASK }
    ensures { result ≡ call_of frame.now }
{
    let [_, cap, enable, ack, zero, ..] = frame.x;
    accepted(Call::BellSetMask { cap, enable, ack }, zero, &[])
}

pub fn bell_receive(frame: &Frame) -> Result<Call, Errno>
    requires { function_number frame.now ≡ BELL_RECEIVE }
    ensures { result ≡ call_of frame.now }
{
    let [_, cap, clear, zero, ..] = frame.x;
    accepted(Call::BellReceive { cap, clear }, zero, &[])
}

pub fn bell_reset(frame: &Frame) -> Result<Call, Errno>
    requires { function_number frame.now ≡ BELL_RESET }
    ensures { result ≡ call_of frame.now }
{
    let [_, cap, zero, ..] = frame.x;
    accepted(Call::BellReset { cap }, zero, &[])
}
