//! A doorbell: flags that senders set and receivers clear, and two masks over them.
#![tactic(auto)]

ghost use Rattle.std.specs.Prelude.{◌≡◌, bit_or};

use gh_base::{NEW_BELL_ACK, NEW_BELL_ENABLE, NEW_BELL_FLAGS};
use std::marker::Model;

/// A doorbell's flags, enable mask and ack mask. The masks have no effect on the flags here.
#[derive(Debug, Drop)]
pub struct Bell {
    flags: u64,
    enable: u64,
    ack: u64,
}

impl Model for Bell {
    ghost use Rattle.gh_doorbell.specs.Bell.{BellWords};

    ghost Value = { BellWords };

    ghost view = { λ b. record { flags = b.flags; enable = b.enable; ack = b.ack } };
}

impl Default for Bell {
    ghost use Rattle.gh_doorbell.specs.Bell.{new_words};

    ghost is_default = { λ words. words ≡ new_words };

    fn default() -> Bell {
        Bell::new()
    }
}

impl Bell {
    ghost use Rattle.gh_doorbell.specs.Bell.{new_words, without};

    /// A doorbell whose flags are 0, whose enable mask is all ones and whose ack mask is 0.
    pub const fn new() -> Bell
        ensures { result ≡ new_words }
    {
        Bell {
            flags: NEW_BELL_FLAGS,
            enable: NEW_BELL_ENABLE,
            ack: NEW_BELL_ACK,
        }
    }

    /// Sets these flags, and answers the flags before.
    pub fn send(&mut self, flags: u64) -> u64
        ensures before { result ≡ self.old.flags }
        ensures set { self.new ≡ record self.old { flags = bit_or self.old.flags flags } }
    {
        let before = self.flags;
        self.flags |= flags;
        before
    }

    /// Clears these flags, and answers the flags before.
    pub fn receive(&mut self, clear: u64) -> u64
        ensures before { result ≡ self.old.flags }
        ensures cleared { self.new ≡ record self.old { flags = without self.old.flags clear } }
    {
        let before = self.flags;
        self.flags &= !clear;
        before
    }

    /// Sets both masks.
    pub fn set_mask(&mut self, enable: u64, ack: u64)
        ensures { self.new ≡ record self.old { enable = enable; ack = ack } }
    {
        self.enable = enable;
        self.ack = ack;
    }

    /// Makes it as after creation.
    pub fn reset(&mut self)
        ensures { self.new ≡ new_words }
    {
        *self = Bell::new();
    }

    /// The flags, the enable mask and the ack mask.
    pub fn words(&self) -> (u64, u64, u64)
        ensures { result ≡ (self.now.flags, self.now.enable, self.now.ack) }
    {
        (self.flags, self.enable, self.ack)
    }
}
