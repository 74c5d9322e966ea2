//! Replies of the resource manager.

ghost use Rattle.std.specs.Prelude.{◌≡◌};
ghost use Rattle.gh_base.specs.RmLayout.{reply_bytes};

use arrayvec::ArrayVec;
use gh_base::RmError;

/// The most bytes of a reply behind its header: an error and a handle.
const REPLY_BYTES: usize = 8;

/// What a reply has behind its header: the error, and with no error the handle, if there is one.
pub fn write_reply(error: RmError, handle: Option<u32>) -> ArrayVec<u8, 8>
    ensures { result.items ≡ reply_bytes error handle }
{
    let mut bytes: ArrayVec<u8, REPLY_BYTES> = ArrayVec::new();
    let _ = bytes.try_extend_from_slice(&error.number().to_le_bytes());
    if let (RmError::Ok, Some(handle)) = (error, handle) {
        let _ = bytes.try_extend_from_slice(&handle.to_le_bytes());
    }
    bytes
}
