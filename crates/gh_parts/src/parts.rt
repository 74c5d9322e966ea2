//! The parts of the hypervisor.

ghost use Rattle.std.specs.Prelude.{◌≡◌, ◌<◌, IfOk, IfSome};
ghost use Rattle.gh_model.specs.Boot.{empty_state};
ghost use Rattle.gh_parts.specs.Stands.{Stands};
ghost use Rattle.gh_objects.specs.Headers.{header_at};
ghost use Rattle.gh_parts.specs.Index.{AreIndexed, found_index, home_in, partition_in, serial_at};

use crate::journal::Journal;
use crate::shares::Shares;
use gh_base::{NoMemory, OBJECT_INDICES, ObjIndex, Serial};
use gh_objects::Headers;
use std::alloc::Global;

/// The headers of the live objects, what belongs to the objects of each partition place, and the
/// journal.
#[derive(Debug, Drop)]
pub struct Parts {
    pub table: Headers,
    pub shares: Shares,
    pub journal: Journal,
}

impl Parts {
    /// The parts before any boot line.
    pub fn new(alloc: Global) -> Result<Parts, NoMemory>
        ensures { IfOk result (λ parts. Stands parts empty_state) }
    {
        Ok(Parts {
            table: Headers::new(alloc)?,
            shares: Shares::new(alloc)?,
            journal: Journal::new(alloc)?,
        })
    }

    /// The index of the live object with this serial, by a binary search; none where no live object
    /// has it.
    pub fn index(&self, serial: Serial) -> Option<ObjIndex>
        requires { AreIndexed self.now.table.headers }
        ensures found { result ≡ found_index self.now.table.headers serial.0 }
        ensures within { IfSome result (λ index. index.0 < OBJECT_INDICES) }
    {
        self.table.index_of(serial)
    }

    /// The serial of the object at an index; 0 where there is none.
    pub(crate) fn serial_at(&self, index: ObjIndex) -> Serial
        ensures { result ≡ serial_at self.now.table.headers index.0 }
    {
        match self.table.get(index) {
            None => Serial(0),
            Some(header) => header.serial,
        }
    }

    /// The serial of the partition that the object at an index lives in; 0 where there is none.
    pub(crate) fn home_at(&self, index: ObjIndex) -> Serial
        ensures { result ≡ serial_at self.now.table.headers
            (partition_in (header_at self.now.table.headers index.0)) }
    {
        match self.table.get(index) {
            None => Serial(0),
            Some(header) => self.serial_at(header.partition),
        }
    }

    /// The serial of the partition that an object lives in; 0 where there is no such object.
    pub(crate) fn home(&self, object: Serial) -> Serial
        requires { AreIndexed self.now.table.headers }
        ensures { result ≡ home_in self.now.table.headers object.0 }
    {
        match self.index(object) {
            None => Serial(0),
            Some(index) => self.home_at(index),
        }
    }
}
