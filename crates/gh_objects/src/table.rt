//! The header of each index, which indices are free, and which index a serial has.

ghost use Rattle.std.specs.Prelude.{◌≡◌, ◌<◌, ℕ, false, true, None, IfOk};
ghost use Rattle.std.specs.Prelude.{IfSome, is_some, count_by, replicate, slice_set};
ghost use Rattle.gh_objects.specs.Headers.{header_at, headers_in, free_index, has_kind};
ghost use Rattle.gh_objects.specs.Headers.{has_serial};

use crate::header::Header;
use crate::kinds::{KINDS, lower, number_of, raise};
use crate::names::{INDEX_VALUES, Names, index_in, name_at, name_of, rename};
use gh_base::{
    Kind, NoMemory, OBJECT_INDICES, PARTITION_PLACES, PARTITIONS, Serial, first_free_place,
    with_place,
};
use std::alloc::Global;
use std::marker::Model;

/// The headers by index. No call but `new` takes memory.
#[derive(Debug, Drop)]
pub struct Table {
    headers: Vec<Option<Header>>,
    // The word of each partition place has a bit for each of its indices that has a header.
    taken: [u128; PARTITIONS],
    names: Names,
    kinds: [u16; KINDS],
}

impl Model for Table {
    ghost use Rattle.std.specs.Prelude.{List, Option};
    ghost use Rattle.gh_objects.specs.declared.header.Header.{Header};
    ghost use Rattle.gh_objects.specs.Table.{IsKept};

    ghost Value = { List (Option Header) };

    ghost view = { λ t. t.headers.items };

    ghost invariant = { λ t. IsKept t.headers.items t.taken t.names t.kinds };
}

impl Table {
    /// No header, with all the room taken.
    pub fn new(alloc: Global) -> Result<Table, NoMemory>
        ensures { IfOk result (λ t. t ≡ replicate OBJECT_INDICES None) }
    {
        Ok(Table {
            headers: no_headers(alloc, OBJECT_INDICES)?,
            taken: [0; PARTITIONS],
            names: Names::new(alloc)?,
            kinds: [0; KINDS],
        })
    }

    /// The header of an index; none past the indices.
    pub fn get(&self, index: usize) -> Option<Header>
        ensures { result ≡ header_at self.now index }
    {
        self.headers.get(index).copied().flatten()
    }

    /// Puts a header to an index, or takes away the one that is there.
    pub fn set(&mut self, index: usize, header: Option<Header>)
        requires { index < OBJECT_INDICES }
        ensures { self.new ≡ slice_set self.old index header }
    {
        let old = self.get(index);
        rename(&mut self.names, name_at(index, old), name_at(index, header));
        lower(&mut self.kinds, old);
        raise(&mut self.kinds, header);
        let place = index / PARTITION_PLACES;
        let bits = self.taken[place];
        self.taken[place] = with_place(bits, index % PARTITION_PLACES, header.is_none());
        self.headers[index] = header;
    }

    /// How many headers are those of objects of the kind. It looks at no header.
    pub fn kind_count(&self, kind: Kind) -> usize
        ensures { result ≡ count_by (has_kind kind) self.now }
    {
        number_of(&self.kinds, kind) as usize
    }

    /// The least free index of a partition place. It looks at no header.
    pub fn first_free(&self, place: usize) -> usize
        requires place { place < PARTITIONS }
        requires free { count_by is_some (headers_in self.now place) < PARTITION_PLACES }
        ensures least { result ≡ free_index self.now place }
        ensures within { result < OBJECT_INDICES }
        ensures free { header_at self.now result ≡ None }
    {
        place * PARTITION_PLACES + first_free_place(self.taken[place])
    }

    /// An index whose header has the serial. It looks at no header.
    pub fn index_of(&self, serial: Serial) -> Option<usize>
        ensures found { IfSome result
            (λ index. has_serial serial.0 (header_at self.now index) ≡ true) }
        ensures within { IfSome result (λ index. index < INDEX_VALUES) }
        ensures none { result ≡ None
            → (index : ℕ) → has_serial serial.0 (header_at self.now index) ≡ false }
    {
        index_in(self.names.first_from(name_of(serial, 0)), serial)
    }
}

/// So many indices without a header.
fn no_headers(alloc: Global, count: usize) -> Result<Vec<Option<Header>>, NoMemory>
    ensures { IfOk result (λ v. v.items ≡ replicate count None) }
{
    let headers = vec![in alloc; None; count]?;
    Ok(headers)
}
