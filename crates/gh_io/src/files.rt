//! Files that are loaded by name.

ghost use Rattle.std.specs.Prelude.{◌≡◌, ◌≤◌, ℕ, List, Option};
ghost use Rattle.std.specs.Prelude.{Bool, false, IfOk, OnOk, IsErrOf, vec_len};
ghost use Rattle.gh_io.specs.Outside.{Rose, IsFront, Asks};

use gh_base::{NoMemory, Sequence};
use std::alloc::{AllocError, Global};

/// Why a file isn't loaded.
#[derive(Clone, Copy, Debug, PartialEq, Eq)]
pub enum LoadErr {
    /// The outside failed, and the count of faults rose.
    Failed,
    /// Memory ran out, which is no fault of the outside.
    NoMemory,
}

impl From<NoMemory> for LoadErr {
    ghost use Rattle.gh_io.specs.declared.files.LoadErr.TheVariants.{NoMemory as NoMemoryLeft};

    ghost from_gives = { λ _ e. e ≡ NoMemoryLeft };

    fn from(_: NoMemory) -> LoadErr {
        LoadErr::NoMemory
    }
}

impl From<AllocError> for LoadErr {
    ghost use Rattle.gh_io.specs.declared.files.LoadErr.TheVariants.{NoMemory as NoMemoryLeft};

    ghost from_gives = { λ _ e. e ≡ NoMemoryLeft };

    fn from(_: AllocError) -> LoadErr {
        LoadErr::NoMemory
    }
}

/// What a load asks for: the file of a name, and so many bytes of it at most.
#[derive(Debug, Drop)]
pub struct Request {
    pub name: Sequence<u8>,
    pub most: usize,
}

/// Files that are loaded by name.
pub trait Files {
    ghost use Rattle.gh_io.specs.declared.files.Request.{Request};

    /// How often the outside has failed. The count never falls.
    ghost faults: { Self → ℕ };

    /// What was asked for so far, oldest first.
    ghost asked: { Self → List Request };

    /// The contents by name, where they are told; no bytes for a name that they don't hold.
    ghost contents: { Self → Option (List ℕ → List ℕ) };

    /// Where this is true no load fails.
    ghost is_sure: { Self → Bool };

    /// The first `max` bytes of the file of this name, or all of them where there are fewer.
    fn load(&mut self, alloc: Global, name: &str, max: usize) -> Result<Vec<u8>, LoadErr>
        ensures bytes { IfOk result
            (λ bytes. IsFront (contents self.old) name.now max bytes.items) }
        ensures bound { IfOk result (λ bytes. vec_len bytes ≤ max) }

        // A fault has its cause.
        ensures failed { IsErrOf result LoadErr.Failed
            → Rose (faults self.old) (faults self.new) }
        ensures unsure { IsErrOf result LoadErr.Failed → is_sure self.old ≡ false }

        ensures asked { Asks result (asked self.old) (asked self.new) name.now max }
        ensures never_falls { faults self.old ≤ faults self.new }
        ensures ok { OnOk result (faults self.new ≡ faults self.old) }
        ensures no_memory { IsErrOf result LoadErr.NoMemory
            → faults self.new ≡ faults self.old }

        // What no call changes.
        ensures told { contents self.new ≡ contents self.old }
        ensures sure { is_sure self.new ≡ is_sure self.old };
}
