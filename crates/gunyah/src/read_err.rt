//! Why the files of a command aren't read.

use gh_base::NoMemory;
use gh_io::LoadErr;
use std::alloc::AllocError;

/// The first fault of the files of a command. Files count from 1 in the order of the words, and
/// lines and items from 1.
#[derive(Clone, Copy, Debug, PartialEq, Eq)]
pub enum BadFile {
    /// The file has more than 8,388,608 bytes.
    TooLarge(u32),
    /// The first bad line of the boot file.
    Boot(u32),
    /// The first bad item of the schedule.
    Schedule(u32),
    /// A call file and its first bad line; line 0 where there is no VM for it.
    Calls(u32, u32),
}

/// Why the files of a command aren't read.
#[derive(Clone, Copy, Debug, PartialEq, Eq)]
pub enum ReadErr {
    /// A load failed.
    Failed,
    Bad(BadFile),
    NoMemory,
}

impl From<LoadErr> for ReadErr {
    ghost use Rattle.std.specs.Prelude.{◌≡◌};
    ghost use Rattle.gunyah.specs.Status.{stop_of_load};

    ghost from_gives = { λ error stop. stop ≡ stop_of_load error };

    fn from(error: LoadErr) -> ReadErr {
        match error {
            LoadErr::Failed => ReadErr::Failed,
            LoadErr::NoMemory => ReadErr::NoMemory,
        }
    }
}

impl From<NoMemory> for ReadErr {
    ghost use Rattle.std.specs.Prelude.{◌≡◌};
    ghost use Rattle.gunyah.specs.declared.read_err.ReadErr.TheVariants.{NoMemory as NoMemoryLeft};

    ghost from_gives = { λ _ stop. stop ≡ NoMemoryLeft };

    fn from(_: NoMemory) -> ReadErr {
        ReadErr::NoMemory
    }
}

impl From<AllocError> for ReadErr {
    ghost use Rattle.std.specs.Prelude.{◌≡◌};
    ghost use Rattle.gunyah.specs.declared.read_err.ReadErr.TheVariants.{NoMemory as NoMemoryLeft};

    ghost from_gives = { λ _ stop. stop ≡ NoMemoryLeft };

    fn from(_: AllocError) -> ReadErr {
        ReadErr::NoMemory
    }
}
