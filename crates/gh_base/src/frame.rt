//! What goes into a hypercall and what comes out of it.

ghost use Rattle.std.specs.Prelude.{◌≡◌};
ghost use Rattle.gh_base.specs.Reply.{register_reply, refusal};

use crate::errno::Errno;
use crate::message_bytes::MessageBytes;
use crate::sequence::Sequence;

/// A hypercall as a VM makes it: registers x0 to x8, and the bytes of its message buffer.
#[derive(Debug, Drop)]
pub struct Frame {
    pub x: [u64; 9],
    pub bytes: Sequence<u8>,
}

/// The answer to a hypercall: registers x0 to x3, and the bytes that came.
#[derive(Debug, Drop)]
pub struct Reply {
    pub x: [u64; 4],
    /// At most 1,024.
    pub bytes: MessageBytes,
}

impl Reply {
    /// A reply of four registers and no bytes.
    pub fn registers(x0: u64, x1: u64, x2: u64, x3: u64) -> Reply
        ensures { result ≡ register_reply x0 x1 x2 x3 }
    {
        Reply {
            x: [x0, x1, x2, x3],
            bytes: MessageBytes::new(),
        }
    }

    /// The reply of a refusal: the error's number in x0, and nothing else.
    pub fn refusal(errno: Errno) -> Reply
        ensures { result ≡ refusal errno }
    {
        Reply::registers(errno.number(), 0, 0, 0)
    }
}
