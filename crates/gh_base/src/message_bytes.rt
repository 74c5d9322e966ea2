//! The bytes of a message, which take memory only where there are some.

ghost use Rattle.std.specs.Prelude.{◌≡◌, ◌==◌, ◌≤◌, [], length, IfOk};

use crate::ids::NoMemory;
use crate::limits::MESSAGE_BYTES;
use std::alloc::Global;
use std::marker::Model;

/// At most 1,024 bytes in order. Without bytes it takes no memory.
#[derive(Debug, Drop)]
pub struct MessageBytes {
    bytes: Option<Vec<u8>>,
}

impl Model for MessageBytes {
    ghost use Rattle.std.specs.Prelude.{List, ℕ, length, ◌≤◌};
    ghost use Rattle.gh_base.specs.MessageBytes.{bytes_or_none};
    ghost use Rattle.gh_base.specs.declared.limits.TheConstants.{MESSAGE_BYTES};

    ghost Value = { List ℕ };

    ghost view = { λ m. bytes_or_none m.bytes };

    ghost invariant = { λ m. length (bytes_or_none m.bytes) ≤ MESSAGE_BYTES };
}

impl MessageBytes {
    /// No bytes.
    pub const fn new() -> MessageBytes
        ensures { result ≡ [] }
    {
        MessageBytes { bytes: None }
    }

    pub fn from_vec(bytes: Vec<u8>) -> MessageBytes
        requires { length bytes.items ≤ MESSAGE_BYTES }
        ensures { result ≡ bytes.items }
    {
        MessageBytes { bytes: Some(bytes) }
    }

    /// A copy of these bytes, which takes memory where there are some.
    pub fn from_slice(alloc: Global, bytes: &[u8]) -> Result<MessageBytes, NoMemory>
        requires { length bytes.now ≤ MESSAGE_BYTES }
        ensures { IfOk result (λ message. message ≡ bytes.now) }
    {
        if bytes.is_empty() {
            return Ok(MessageBytes::new());
        }
        Ok(MessageBytes::from_vec(Vec::from_slice(alloc, bytes)?))
    }

    pub fn as_slice(&self) -> &[u8]
        ensures bytes { result.now ≡ self.now }
        ensures room { length self.now ≤ MESSAGE_BYTES }
    {
        match &self.bytes {
            None => &[],
            Some(bytes) => bytes.as_slice(),
        }
    }

    pub fn is_empty(&self) -> bool
        ensures { result ≡ (length self.now == 0) }
    {
        self.as_slice().is_empty()
    }
}
