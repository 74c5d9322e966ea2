//! The call of a system that a stream is written by.

ghost use Rattle.std.specs.Prelude.{◌≡◌, ◌<◌, ◌≤◌, ℕ, List, Option};
ghost use Rattle.std.specs.Prelude.{Bool, false, length, take, IfOk, OnErr, IsErrOf};
ghost use Rattle.std.specs.Io.KnownBytes.{append_known};

use crate::sink::PutErr;

/// A stream that takes bytes in order.
pub trait Writer {
    /// The bytes taken so far, where they are told.
    ghost taken: { Self → Option (List ℕ) };

    /// Where this is true no write fails, and none takes nothing.
    ghost is_sure: { Self → Bool };

    /// Takes a prefix of the piece and answers its length. With an error it took nothing.
    fn write(&mut self, piece: &[u8]) -> Result<usize, PutErr>
        requires { 0 < length piece.now }
        ensures within { IfOk result (λ count. count ≤ length piece.now) }
        ensures taken { IfOk result
            (λ count. taken self.new ≡ append_known (taken self.old) (take count piece.now)) }
        ensures err { OnErr result (taken self.new ≡ taken self.old) }
        ensures none { IfOk result (λ count. count ≡ 0 → is_sure self.old ≡ false) }
        ensures unsure { IsErrOf result PutErr.Failed → is_sure self.old ≡ false }
        ensures sure { is_sure self.new ≡ is_sure self.old };
}
