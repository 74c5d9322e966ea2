//! A sink for the bytes of the output.

ghost use Rattle.std.specs.Prelude.{◌≡◌, ◌<◌, ◌≤◌, ℕ, List, Option};
ghost use Rattle.std.specs.Prelude.{Bool, false, length, take, IfOk, OnOk, OnErr, IsErrOf};
ghost use Rattle.std.specs.Io.KnownBytes.{append_known};
ghost use Rattle.gh_io.specs.Outside.{Rose};

use gh_base::NoMemory;
use std::alloc::{AllocError, Global};

/// Why a piece isn't taken.
#[derive(Clone, Copy, Debug, PartialEq, Eq)]
pub enum PutErr {
    /// The outside failed, and the count of faults rose.
    Failed,
    /// Memory ran out, which is no fault of the outside.
    NoMemory,
}

impl From<NoMemory> for PutErr {
    ghost use Rattle.gh_io.specs.declared.sink.PutErr.TheVariants.{NoMemory as NoMemoryLeft};

    ghost from_gives = { λ _ e. e ≡ NoMemoryLeft };

    fn from(_: NoMemory) -> PutErr {
        PutErr::NoMemory
    }
}

impl From<AllocError> for PutErr {
    ghost use Rattle.gh_io.specs.declared.sink.PutErr.TheVariants.{NoMemory as NoMemoryLeft};

    ghost from_gives = { λ _ e. e ≡ NoMemoryLeft };

    fn from(_: AllocError) -> PutErr {
        PutErr::NoMemory
    }
}

/// Takes bytes in order.
pub trait Sink {
    /// How often the outside has failed. The count never falls.
    ghost faults: { Self → ℕ };

    /// The bytes taken so far, where they are told.
    ghost taken: { Self → Option (List ℕ) };

    /// Where this is true no put fails.
    ghost is_sure: { Self → Bool };

    /// Takes a prefix of the piece and answers its length, which isn't 0.
    fn put(&mut self, alloc: Global, piece: &[u8]) -> Result<usize, PutErr>
        requires { 0 < length piece.now }
        ensures some { IfOk result (λ count. 0 < count) }
        ensures within { IfOk result (λ count. count ≤ length piece.now) }
        ensures taken { IfOk result
            (λ count. taken self.new ≡ append_known (taken self.old) (take count piece.now)) }

        // A fault has its cause, and nothing is taken then, nor where memory runs out.
        ensures failed { IsErrOf result PutErr.Failed → Rose (faults self.old) (faults self.new) }
        ensures unsure { IsErrOf result PutErr.Failed → is_sure self.old ≡ false }
        ensures err { OnErr result (taken self.new ≡ taken self.old) }

        ensures never_falls { faults self.old ≤ faults self.new }
        ensures ok { OnOk result (faults self.new ≡ faults self.old) }
        ensures no_memory { IsErrOf result PutErr.NoMemory → faults self.new ≡ faults self.old }
        ensures sure { is_sure self.new ≡ is_sure self.old };
}
