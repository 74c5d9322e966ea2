//! The headers of the live objects, and the partition places that the live partitions have.

ghost use Rattle.std.specs.Prelude.{◌≡◌, ◌/◌, ◌<◌, ℕ, false, true, None};
ghost use Rattle.std.specs.Prelude.{is_some, is_none, IfOk, IfSome, IsSome, count_by};
ghost use Rattle.std.specs.List.{position_or_len};
ghost use Rattle.gh_objects.specs.Headers.{no_headers, header_at, headers_in, is_partition};
ghost use Rattle.gh_objects.specs.Headers.{place_of, free_index, IsBootPlace, HasIndex, new_index};
ghost use Rattle.gh_objects.specs.Headers.{with_header, header_inserted, header_removed};
ghost use Rattle.gh_objects.specs.Headers.{boot_index, header_staged, has_kind};
ghost use Rattle.gh_objects.specs.Headers.{has_partition_place};
ghost use Rattle.gh_objects.specs.Headers.{has_serial};
ghost use Rattle.gh_objects.specs.Partitions.{HavePlaces, place_if};

use crate::header::Header;
use crate::partitions::{find_free, free_place, has_free_place, is_partition_kind, place_of};
use crate::table::Table;
use gh_base::{
    Kind, NoMemory, OBJECT_INDICES, ObjIndex, PARTITION_PLACES, PARTITIONS, Serial, Stage,
};
use std::alloc::Global;
use std::marker::Model;

/// The headers by index. An object's index is its partition's place times 128 and its own place
/// there, and is given again once the object is removed. No call but `new` takes memory.
#[derive(Debug, Drop)]
pub struct Headers {
    table: Table,
    // The index of the live partition that has the partition place.
    partitions: [Option<ObjIndex>; PARTITIONS],
}

impl Model for Headers {
    ghost use Rattle.gh_objects.specs.Headers.{HeaderTable};
    ghost use Rattle.gh_objects.specs.Partitions.{HavePlaces};

    ghost Value = { HeaderTable };

    ghost view = { λ h. record { headers = h.table; partitions = h.partitions } };

    ghost invariant = { λ h. HavePlaces h.table h.partitions };
}

impl Headers {
    /// No header, with all the room taken.
    pub fn new(alloc: Global) -> Result<Headers, NoMemory>
        ensures { IfOk result (λ h. h ≡ no_headers) }
    {
        Ok(Headers {
            table: Table::new(alloc)?,
            partitions: [None; PARTITIONS],
        })
    }

    /// The header of a live object; none exactly where no object lives at the index.
    pub fn get(&self, object: ObjIndex) -> Option<Header>
        ensures header { result ≡ header_at self.now.headers object.0 }
        ensures places { HavePlaces self.now.headers self.now.partitions }
    {
        self.table.get(object.0 as usize)
    }

    /// The partition place of a live partition; none where the index has no live partition.
    pub fn place(&self, partition: ObjIndex) -> Option<usize>
        ensures place { result ≡ place_if (is_partition (header_at self.now.headers partition.0))
            (place_of self.now.partitions partition.0) }
        ensures within { IfSome result (λ place. place < PARTITIONS) }
    {
        place_of(&self.partitions, partition)
    }

    /// Whether fewer than eight partitions live, so that one more may be made.
    pub fn has_partition_place(&self) -> bool
        ensures { result ≡ has_partition_place self.now }
    {
        has_free_place(&self.partitions)
    }

    /// How many live objects are of the kind. It looks at no header.
    pub fn kind_count(&self, kind: Kind) -> usize
        ensures { result ≡ count_by (has_kind kind) self.now.headers }
    {
        self.table.kind_count(kind)
    }

    /// The index for the next boot partition: the first of the least partition place that no live
    /// partition has; none where each is had.
    pub fn boot_index(&self) -> Option<ObjIndex>
        ensures { result ≡ boot_index self.now }
    {
        let place = find_free(&self.partitions)?;
        Some(ObjIndex((PARTITION_PLACES * place) as u16))
    }

    /// The index of the live object with this serial, by a binary search; none exactly where no
    /// live object has it.
    pub fn index_of(&self, serial: Serial) -> Option<ObjIndex>
        ensures found { IfSome result
            (λ index. has_serial serial.0 (header_at self.now.headers index.0) ≡ true) }
        ensures none { result ≡ None
            → (index : ℕ) → has_serial serial.0 (header_at self.now.headers index) ≡ false }
    {
        let index = self.table.index_of(serial)?;
        Some(ObjIndex(index as u16))
    }

    /// Puts the header of a new object to its index, and answers that: the least that is free in
    /// its partition. A boot partition lives in itself and has its own index. A partition that is
    /// made in another gets the least partition place that no live partition has.
    pub fn insert(&mut self, header: Header) -> ObjIndex
        requires index { HasIndex self.old header.kind header.partition.0 }
        requires place { header.kind ≡ Kind.Partition
            → count_by is_partition self.old.headers < PARTITIONS }
        ensures index { result.0 ≡ new_index self.old header.partition.0 }
        ensures within { result.0 < OBJECT_INDICES }
        ensures inserted { self.new ≡ header_inserted self.old header }
    {
        match self.place(header.partition) {
            Some(home) => self.insert_in(home, header),
            None => self.insert_boot(header),
        }
    }

    /// Puts the header of a live object into another stage.
    pub fn set_stage(&mut self, object: ObjIndex, stage: Stage)
        requires { IsSome (header_at self.old.headers object.0) }
        ensures { self.new ≡ header_staged stage self.old object.0 }
    {
        let mut header = self.table.get(object.0 as usize).unwrap();
        header.stage = stage;
        self.table.set(object.0 as usize, Some(header));
    }

    /// Takes away the header of a live object. Its index is free again, and the partition place of
    /// a partition.
    pub fn remove(&mut self, object: ObjIndex)
        requires { IsSome (header_at self.old.headers object.0) }
        ensures { self.new ≡ header_removed self.old object.0 }
    {
        if let Some(place) = self.place(object) {
            self.partitions[place] = None;
        }
        self.table.set(object.0 as usize, None);
    }

    /// Puts a new header to the least free index of a partition place.
    fn insert_in(&mut self, home: usize, header: Header) -> ObjIndex
        requires home { home < PARTITIONS }
        requires free { count_by is_some (headers_in self.old.headers home) < PARTITION_PLACES }
        requires place { header.kind ≡ Kind.Partition
            → count_by is_partition self.old.headers < PARTITIONS }
        ensures index { result.0 ≡ free_index self.old.headers home }
        ensures within { result.0 < OBJECT_INDICES }
        ensures inserted { self.new ≡ with_header self.old header
            (position_or_len is_none self.old.partitions) (free_index self.old.headers home) }
    {
        let index = self.table.first_free(home);
        if is_partition_kind(header.kind) {
            let place = free_place(&self.partitions);
            self.partitions[place] = Some(ObjIndex(index as u16));
        }
        self.table.set(index, Some(header));
        ObjIndex(index as u16)
    }

    /// Puts the header of a new boot partition to its own index.
    fn insert_boot(&mut self, header: Header) -> ObjIndex
        requires place { IsBootPlace self.old.partitions header.kind header.partition.0 }
        requires vacant { is_partition (header_at self.old.headers header.partition.0) ≡ false }
        ensures index { result ≡ header.partition }
        ensures within { result.0 < OBJECT_INDICES }
        ensures inserted { self.new ≡ with_header self.old header
            (header.partition.0 / PARTITION_PLACES) header.partition.0 }
    {
        let index = header.partition.0 as usize;
        self.partitions[index / PARTITION_PLACES] = Some(header.partition);
        self.table.set(index, Some(header));
        header.partition
    }
}
