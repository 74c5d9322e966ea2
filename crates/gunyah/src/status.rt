//! How a command ended.

use crate::read_err::{BadFile, ReadErr};
use gh_io::PutErr;
use std::fmt;

/// How a command ended. Files, lines and items count from 1.
#[derive(Clone, Copy, Debug, PartialEq, Eq)]
pub enum Status {
    /// All output was taken.
    Done,
    /// The words are none of the forms.
    Usage,
    /// A file couldn't be loaded.
    ReadFault,
    /// The output couldn't be written. What was written is a front part of it.
    WriteFault,
    /// The first bad line of the boot file.
    BadBoot(u32),
    /// A call file and its first bad line; line 0 where there is no VM for it.
    BadCalls(u32, u32),
    /// The first bad item of the schedule.
    BadSchedule(u32),
    /// Memory ran out. What was written is a front part of the output.
    NoMemory,
    /// The first bad line of a history. It can't come yet.
    BadHistory(u32),
    /// The first file of more bytes than its limit.
    TooLarge(u32),
}

impl Status {
    ghost use Rattle.gunyah.specs.Status.{status_number};
    ghost use Rattle.std.specs.Prelude.{◌≡◌};

    /// The number with which the program ends.
    pub fn number(self) -> u8
        ensures { result ≡ status_number self }
    {
        match self {
            Status::Done => 0,
            Status::Usage => 1,
            Status::ReadFault => 2,
            Status::WriteFault => 3,
            Status::BadBoot(_) => 4,
            Status::BadCalls(_, _) => 5,
            Status::BadSchedule(_) => 6,
            Status::NoMemory => 7,
            Status::BadHistory(_) => 8,
            Status::TooLarge(_) => 9,
        }
    }
}

impl From<ReadErr> for Status {
    ghost use Rattle.std.specs.Prelude.{◌≡◌};
    ghost use Rattle.gunyah.specs.Status.{status_of_stop};

    ghost from_gives = { λ error status. status ≡ status_of_stop error };

    fn from(error: ReadErr) -> Status {
        match error {
            ReadErr::Failed => Status::ReadFault,
            ReadErr::NoMemory => Status::NoMemory,
            ReadErr::Bad(BadFile::TooLarge(file)) => Status::TooLarge(file),
            ReadErr::Bad(BadFile::Boot(line)) => Status::BadBoot(line),
            ReadErr::Bad(BadFile::Schedule(item)) => Status::BadSchedule(item),
            ReadErr::Bad(BadFile::Calls(file, line)) => Status::BadCalls(file, line),
        }
    }
}

impl From<PutErr> for Status {
    ghost use Rattle.std.specs.Prelude.{◌≡◌};
    ghost use Rattle.gunyah.specs.Status.{status_of_put};

    ghost from_gives = { λ error status. status ≡ status_of_put error };

    fn from(error: PutErr) -> Status {
        match error {
            PutErr::Failed => Status::WriteFault,
            PutErr::NoMemory => Status::NoMemory,
        }
    }
}

/// What stands on standard error; nothing where all is done.
impl fmt::Display for Status {
    ghost use Rattle.std.specs.Prelude.{Some};
    ghost use Rattle.gunyah.specs.Status.{status_text};

    ghost output = { λ status. Some (status_text status) };

    fn fmt<W: fmt::Write>(&self, f: &mut fmt::Formatter<W>) -> fmt::Result {
        match self {
            Status::Done => Ok(()),
            Status::Usage => f.write_str(
                "usage: gunyah step BOOT SCHEDULE CALLS.. | run BOOT CALLS.. \
                 | check BOOT HISTORY CALLS.. | gen SEED VMS CALLS [boot|VM]",
            ),
            Status::ReadFault => f.write_str("read fault"),
            Status::WriteFault => f.write_str("write fault"),
            Status::BadBoot(line) => write!(f, "boot line {line}"),
            Status::BadCalls(file, line) => write!(f, "calls file {file} line {line}"),
            Status::BadSchedule(item) => write!(f, "schedule item {item}"),
            Status::NoMemory => f.write_str("no memory"),
            Status::BadHistory(line) => write!(f, "history line {line}"),
            Status::TooLarge(file) => write!(f, "file {file} too large"),
        }
    }
}
