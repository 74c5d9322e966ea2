//! Why a file isn't read.

ghost use Rattle.std.specs.Prelude.{◌≡◌};

use gh_base::NoMemory;
use std::alloc::AllocError;

/// Why a file isn't read.
#[derive(Clone, Copy, Debug, PartialEq, Eq)]
pub enum FileErr {
    /// The first bad line of a boot file or call file, or the first bad item of a schedule. Lines
    /// and items count from 1.
    Bad(u32),
    NoMemory,
}

impl From<NoMemory> for FileErr {
    ghost use Rattle.gh_model.specs.declared.file_err.FileErr.TheVariants.{NoMemory as NoMemoryLeft};

    ghost from_gives = { λ _ e. e ≡ NoMemoryLeft };

    fn from(_: NoMemory) -> FileErr {
        FileErr::NoMemory
    }
}

impl From<AllocError> for FileErr {
    ghost use Rattle.gh_model.specs.declared.file_err.FileErr.TheVariants.{NoMemory as NoMemoryLeft};

    ghost from_gives = { λ _ e. e ≡ NoMemoryLeft };

    fn from(_: AllocError) -> FileErr {
        FileErr::NoMemory
    }
}
