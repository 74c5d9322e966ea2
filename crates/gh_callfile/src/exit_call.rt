//! The exit call, which ends every program.

ghost use Rattle.std.specs.Prelude.{◌≡◌};
ghost use Rattle.gh_model.specs.Program.{exit_frame, is_exit};

use gh_base::{Frame, Sequence};
use std::alloc::Global;

/// The exit call's function, in the lower half of x0.
const EXIT: u64 = 0xc600_8240;

pub fn exit_frame(alloc: Global) -> Frame
    ensures { result ≡ exit_frame }
{
    Frame {
        x: [EXIT, 0, 0, 0, 0, 0, 0, 0, 0],
        bytes: Sequence::new(alloc),
    }
}

/// Whether a frame is an exit call: the upper half of x0 doesn't count.
pub fn is_exit(frame: &Frame) -> bool
    ensures { result ≡ is_exit frame.now }
{
    frame.x[0] % 0x1_0000_0000 == EXIT
}
