//! The names of the live objects, rising: each is a serial above the index of its object.

ghost use Rattle.std.specs.Prelude.{◌≡◌, ◌+◌, ◌<◌, ◌≤◌, ℕ, [], IfOk, IfSome};
ghost use Rattle.std.specs.Prelude.{IsSomeAnd, Contains, length, nat_eq, nat_lt, slice_get};
ghost use Rattle.std.specs.List.Sorted.{IsNonDecreasingBy};
ghost use Rattle.std.specs.List.{prefix_len};
ghost use Rattle.std.specs.Option.{option_to_list};
ghost use Rattle.gh_objects.specs.Names.{itself, name_of, name_at};
ghost use Rattle.gh_objects.specs.Names.{index_in, times, once_if, Renames};

use crate::header::Header;
use gh_base::{NoMemory, OBJECT_INDICES, Serial};
use std::alloc::Global;
use std::marker::Model;

/// How many values an index can have. A serial counts in a name by this.
pub const INDEX_VALUES: u64 = 65536;

/// Names in rising order. No call but `new` takes memory.
#[derive(Debug, Drop)]
pub struct Names {
    names: Vec<u64>,
}

impl Model for Names {
    ghost use Rattle.std.specs.Prelude.{List, ℕ, vec_capacity};
    ghost use Rattle.gh_objects.specs.Names.{NamesRise};

    ghost Value = { List ℕ };

    ghost view = { λ n. n.names.items };

    ghost invariant = { λ n. NamesRise n.names.items (vec_capacity n.names) };
}

impl Names {
    /// No name, with the room taken.
    pub fn new(alloc: Global) -> Result<Names, NoMemory>
        ensures { IfOk result (λ n. n ≡ []) }
    {
        let names = Vec::with_capacity(alloc, OBJECT_INDICES)?;
        Ok(Names { names })
    }

    /// Puts a name to its place.
    pub fn insert(&mut self, name: u64)
        requires { length self.old < OBJECT_INDICES }
        ensures each { (other : ℕ) → times self.new other
            ≡ times self.old other + once_if (nat_eq other name) }
        ensures len { length self.new ≡ length self.old + 1 }
    {
        let at = place_of(self.names.as_slice(), name);
        self.names.insert(at, name).unwrap();
    }

    /// Takes a name out.
    pub fn remove(&mut self, name: u64)
        requires { Contains self.old name }
        ensures each { (other : ℕ) → times self.new other + once_if (nat_eq other name)
            ≡ times self.old other }
        ensures len { length self.new + 1 ≡ length self.old }
    {
        let at = place_of(self.names.as_slice(), name);
        self.names.remove(at);
    }

    /// The least name that isn't less than this one.
    pub fn first_from(&self, name: u64) -> Option<u64>
        ensures there { IfSome result (λ found. Contains self.now found) }
        ensures from { IfSome result (λ found. name ≤ found) }
        ensures least { (other : ℕ) → Contains self.now other → name ≤ other
            → IsSomeAnd result (λ found. found ≤ other) }
    {
        let at = place_of(self.names.as_slice(), name);
        nth(self.names.as_slice(), at)
    }
}

/// The name of the object with this serial at this index.
pub fn name_of(serial: Serial, index: usize) -> u64
    requires { index < OBJECT_INDICES }
    ensures { result ≡ name_of serial.0 index }
{
    serial.0 as u64 * INDEX_VALUES + index as u64
}

/// The name of the object with this header at this index, if there is one.
pub fn name_at(index: usize, header: Option<Header>) -> Option<u64>
    requires { index < OBJECT_INDICES }
    ensures { result ≡ name_at index header }
{
    match header {
        Some(header) => Some(name_of(header.serial, index)),
        None => None,
    }
}

/// The index in a name, if there is one and it has this serial.
pub fn index_in(name: Option<u64>, serial: Serial) -> Option<usize>
    ensures { result ≡ index_in serial.0 name }
{
    let name = name?;
    (name / INDEX_VALUES == serial.0 as u64).then_some((name % INDEX_VALUES) as usize)
}

/// Puts one name in the place of another, where there are such. A name that is to stay isn't
/// touched.
pub fn rename(names: &mut Names, old: Option<u64>, new: Option<u64>)
    requires there { IfSome old (Contains names.old) }
    requires room { length names.old < OBJECT_INDICES + length (option_to_list old) }
    ensures { Renames old new names.old names.new }
{
    if old == new {
        return;
    }
    if let Some(name) = old {
        names.remove(name);
    }
    if let Some(name) = new {
        names.insert(name);
    }
}

/// The name at a place, if there is one.
fn nth(names: &[u64], place: usize) -> Option<u64>
    ensures { result ≡ slice_get names.now place }
{
    names.get(place).copied()
}

/// The place of the first name that isn't less, by a binary search.
fn place_of(names: &[u64], name: u64) -> usize
    requires { IsNonDecreasingBy itself names.now }
    ensures place { result ≡ prefix_len (λ other. nat_lt other name) names.now }
    ensures within { result ≤ length names.now }
{
    names.partition_point(|other| *other < name)
}
