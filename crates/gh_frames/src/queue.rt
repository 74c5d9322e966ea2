//! The calls on message queues.

ghost use Rattle.std.specs.Prelude.{◌≡◌, ◌==◌, ◌||◌, nat_lt};
ghost use Rattle.gh_model.specs.Registers.{call_of, function_number};

use crate::functions::{CONFIGURE_QUEUE, MSGQ_FLUSH, MSGQ_RECV, MSGQ_SEND};
use crate::refusals::{accepted, is_outside};
use gh_base::{Call, Errno, Frame, MESSAGE_BYTES, QUEUE_DEPTH};

/// The flag of a send that asks that the receiver be told at once. It has no effect.
const PUSH: u64 = 1;

pub fn msgq_send(frame: &Frame) -> Result<Call, Errno>
    requires { function_number frame.now ≡ MSGQ_SEND }
    ensures { result ≡ call_of frame.now }
{
    let [_, cap, size, buffer, flags, zero, ..] = frame.x;
    let refusals = [
        (flags > PUSH, Errno::ArgInval),
        (is_outside(size, MESSAGE_BYTES as u64), Errno::ArgSize),
        (size != frame.bytes.len() as u64, Errno::ArgSize),
    ];
    let call = Call::MsgqSend {
        cap,
        size,
        buffer,
        flags,
    };
    accepted(call, zero, &refusals)
}

pub fn msgq_recv(frame: &Frame) -> Result<Call, Errno>
    requires { function_number frame.now ≡ MSGQ_RECV }
    ensures { result ≡ call_of frame.now }
{
    let [_, cap, buffer, size, zero, ..] = frame.x;
    let refusals = [(size == 0, Errno::ArgSize)];
    accepted(Call::MsgqRecv { cap, buffer, size }, zero, &refusals)
}

pub fn msgq_flush(frame: &Frame) -> Result<Call, Errno>
    requires { function_number frame.now ≡ MSGQ_FLUSH }
    ensures { result ≡ call_of frame.now }
{
    let [_, cap, zero, ..] = frame.x;
    accepted(Call::MsgqFlush { cap }, zero, &[])
}

pub fn configure_queue(frame: &Frame) -> Result<Call, Errno>
    requires { function_number frame.now ≡ CONFIGURE_QUEUE }
    ensures { result ≡ call_of frame.now }
{
    let [_, cap, depth, size, zero, ..] = frame.x;
    let refusals = [
        (is_outside(depth, QUEUE_DEPTH), Errno::ArgInval),
        (is_outside(size, MESSAGE_BYTES as u64), Errno::ArgInval),
    ];
    accepted(Call::ConfigureQueue { cap, depth, size }, zero, &refusals)
}
