//! A slot of the ring: room for one message, which it keeps from one message to the next.

ghost use Rattle.std.specs.Prelude.{◌≡◌, ◌≤◌, ◌++◌, [], length, drop, IfOk};

use gh_base::NoMemory;
use std::alloc::Global;
use std::marker::Model;

/// Bytes for the longest message, of which the message in it takes the first.
#[derive(Debug, Drop)]
pub struct Slot {
    bytes: Vec<u8>,
    filled: usize,
}

impl Model for Slot {
    ghost use Rattle.std.specs.Prelude.{◌≤◌, length, take};
    ghost use Rattle.gh_msgqueue.specs.Slot.{Content, content};

    ghost Value = { Content };

    ghost view = { λ s. content (take s.filled s.bytes.items) (length s.bytes.items) };

    ghost invariant = { λ s. s.filled ≤ length s.bytes.items };
}

/// Writes the message over the first bytes, and leaves the others.
fn write_front(bytes: &mut [u8], message: &[u8])
    requires { length message.now ≤ length bytes.old }
    ensures { bytes.new ≡ message.now ++ drop (length message.now) bytes.old }
{
    bytes[..message.len()].copy_from_slice(message);
}

impl Slot {
    ghost use Rattle.gh_msgqueue.specs.Slot.{content};

    /// A slot with room for so many bytes, and no byte in it.
    pub fn new(alloc: Global, room: usize) -> Result<Slot, NoMemory>
        ensures { IfOk result (λ s. s ≡ content [] room) }
    {
        let bytes = vec![in alloc; 0; room]?;
        Ok(Slot { bytes, filled: 0 })
    }

    /// The message in the slot.
    pub fn message(&self) -> &[u8]
        ensures { result.now ≡ self.now.message }
    {
        &self.bytes.as_slice()[..self.filled]
    }

    /// Puts a message in the place of the one before. It takes no memory.
    pub fn write(&mut self, message: &[u8])
        requires { length message.now ≤ self.old.room }
        ensures { self.new ≡ content message.now self.old.room }
    {
        write_front(self.bytes.as_mut_slice(), message);
        self.filled = message.len();
    }
}
