//! The command line that the program was started with.

ghost use Rattle.std.specs.Prelude.{◌≡◌, ◌≢◌, drop};
ghost use Rattle.std.specs.IoError.{error_kind};

use crate::status::Status;
use std::env::{self, Env};
use std::io::{self, ErrorKind};

/// The words behind the first, which is the program's name: all of them.
fn behind_name(mut words: Vec<String>) -> Vec<String>
    ensures { result.items ≡ drop 1 words.items }
{
    if !words.is_empty() {
        words.remove(0);
    }
    words
}

/// What the program ends with where its words couldn't be read. Where memory didn't run out, one of
/// them isn't text, which makes a faulty command line.
fn status_of_words(error: io::Error) -> Status
    ensures no_memory { error_kind error ≡ ErrorKind.OutOfMemory → result ≡ Status.NoMemory }
    ensures not_text { error_kind error ≢ ErrorKind.OutOfMemory → result ≡ Status.Usage }
{
    if error.kind() == ErrorKind::OutOfMemory {
        Status::NoMemory
    } else {
        Status::Usage
    }
}

/// The words behind the program's name.
pub(crate) fn command_line<R: Env + AllocGlobal>(rt: &R) -> Result<Vec<String>, Status> {
    match env::args(rt) {
        Ok(words) => match words.collect(rt.alloc()) {
            Ok(words) => Ok(behind_name(words)),
            Err(_) => Err(Status::NoMemory),
        },
        Err(error) => Err(status_of_words(error)),
    }
}
