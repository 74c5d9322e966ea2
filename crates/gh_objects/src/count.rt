//! What is counted of a live object.

ghost use Rattle.std.specs.Prelude.{◌≡◌};
ghost use Rattle.gh_objects.specs.Counts.{new_count, doomed_serial, retired_serial};

use gh_base::Serial;

/// The references to an object, and whether it is retired.
#[derive(Clone, Copy, Debug, PartialEq, Eq)]
pub struct Count {
    pub serial: Serial,
    pub references: u64,
    pub retired: bool,
}

impl Count {
    /// That of an object that was made just now.
    pub fn new(serial: Serial) -> Count
        ensures { result ≡ new_count serial }
    {
        Count {
            serial,
            references: 0,
            retired: false,
        }
    }
}

/// The serial of an object that is doomed and not retired.
pub fn doomed_serial(count: Option<Count>) -> Option<Serial>
    ensures { result ≡ doomed_serial count }
{
    let count = count?;
    (count.references == 0 && !count.retired).then_some(count.serial)
}

/// The serial of a retired object.
pub fn retired_serial(count: Option<Count>) -> Option<Serial>
    ensures { result ≡ retired_serial count }
{
    let count = count?;
    count.retired.then_some(count.serial)
}
