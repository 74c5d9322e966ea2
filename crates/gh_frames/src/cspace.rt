//! The calls on capabilities.

ghost use Rattle.std.specs.Prelude.{◌≡◌};
ghost use Rattle.gh_model.specs.Registers.{call_of, function_number};

use crate::functions::{CAP_COPY, CAP_DELETE, CAP_REVOKE, CAPS_REVOKE};
use crate::refusals::accepted;
use gh_base::{Call, Errno, Frame};

/// A mask of all rights.
const ALL_RIGHTS: u64 = 0xffff;

pub fn cap_copy(frame: &Frame) -> Result<Call, Errno>
    requires { function_number frame.now ≡ CAP_COPY }
    ensures { result ≡ call_of frame.now }
{
    let [_, cspace, source, mask, zero, ..] = frame.x;
    let refusals = [(mask > ALL_RIGHTS, Errno::ArgInval)];
    let call = Call::CapCopy {
        cspace,
        source,
        mask,
    };
    accepted(call, zero, &refusals)
}

pub fn cap_delete(frame: &Frame) -> Result<Call, Errno>
    requires { function_number frame.now ≡ CAP_DELETE }
    ensures { result ≡ call_of frame.now }
{
    let [_, cspace, slot, zero, ..] = frame.x;
    accepted(Call::CapDelete { cspace, slot }, zero, &[])
}

pub fn cap_revoke(frame: &Frame) -> Result<Call, Errno>
    requires { function_number frame.now ≡ CAP_REVOKE }
    ensures { result ≡ call_of frame.now }
{
    let [_, cspace, slot, zero, ..] = frame.x;
    accepted(Call::CapRevoke { cspace, slot }, zero, &[])
}

pub fn caps_revoke(frame: &Frame) -> Result<Call, Errno>
    requires { function_number frame.now ≡ CAPS_REVOKE }
    ensures { result ≡ call_of frame.now }
{
    let [_, cap, zero, ..] = frame.x;
    accepted(Call::CapsRevoke { cap }, zero, &[])
}
