//! The live objects: their headers and their counts.

ghost use Rattle.std.specs.Prelude.{◌≡◌, ◌≢◌, ◌<◌, ℕ, false, true, None};
ghost use Rattle.std.specs.Prelude.{Some, IfOk, IfSome, IsSome, IsSomeAnd, count_by, slice_set};
ghost use Rattle.std.specs.List.Sorted.{IsNonDecreasingBy};
ghost use Rattle.gh_objects.specs.Counts.{count_at, new_count, with_reference, without_reference};
ghost use Rattle.gh_objects.specs.Counts.{as_retired, is_doomed, doomed, retired};
ghost use Rattle.gh_objects.specs.Headers.{header_at, is_partition, place_of, HasIndex, new_index};
ghost use Rattle.gh_objects.specs.Headers.{header_staged, has_partition_place, has_serial};
ghost use Rattle.gh_objects.specs.Objects.{ArePaired, no_objects, inserted, removed, changed};
ghost use Rattle.gh_objects.specs.Partitions.{HavePlaces, place_if};
ghost use Rattle.gh_objects.specs.Serials.{number};

use crate::count::Count;
use crate::counts::Counts;
use crate::header::Header;
use crate::headers::Headers;
use gh_base::{Kind, NoMemory, OBJECT_INDICES, ObjIndex, PARTITIONS, Serial, Stage};
use std::alloc::Global;
use std::marker::Model;

/// The live objects by index. No call but `new` takes memory.
#[derive(Debug, Drop)]
pub struct Objects {
    headers: Headers,
    counts: Counts,
}

impl Model for Objects {
    ghost use Rattle.gh_objects.specs.Objects.{Objects as State, ArePaired};

    ghost Value = { State };

    ghost view = { λ o. record { table = o.headers; counts = o.counts } };

    ghost invariant = { λ o. ArePaired (record { table = o.headers; counts = o.counts }) };
}

impl Objects {
    /// No object, with all the room taken.
    pub fn new(alloc: Global) -> Result<Objects, NoMemory>
        ensures { IfOk result (λ o. o ≡ no_objects) }
    {
        Ok(Objects {
            headers: Headers::new(alloc)?,
            counts: Counts::new(alloc)?,
        })
    }

    /// Makes an object without references, and answers its index: the least that is free in its
    /// partition. A boot partition lives in itself and is given its own index. A partition that is
    /// made in another gets the least partition place that no live partition has.
    pub fn insert(
        &mut self,
        kind: Kind,
        partition: ObjIndex,
        serial: Serial,
        stage: Stage,
    ) -> ObjIndex
        requires index { HasIndex self.old.table kind partition.0 }
        requires place { kind ≡ Kind.Partition
            → count_by is_partition self.old.table.headers < PARTITIONS }
        ensures index { result.0 ≡ new_index self.old.table partition.0 }
        ensures within { result.0 < OBJECT_INDICES }
        ensures inserted { self.new ≡ inserted self.old
            (record { kind = kind; partition = partition; serial = serial; stage = stage }) }
        ensures header { header_at self.new.table.headers result.0 ≡ Some
            (record { kind = kind; partition = partition; serial = serial; stage = stage }) }
        ensures count { count_at self.new.counts result.0 ≡ Some (new_count serial) }
    {
        let header = Header {
            kind,
            partition,
            serial,
            stage,
        };
        let index = self.headers.insert(header);
        self.counts.set(index.0 as usize, Some(Count::new(serial)));
        index
    }

    /// What a live object is; none exactly where no object lives at the index.
    pub fn header(&self, object: ObjIndex) -> Option<Header>
        ensures header { result ≡ header_at self.now.table.headers object.0 }
        ensures places { HavePlaces self.now.table.headers self.now.table.partitions }
        ensures paired { ArePaired self.now }
    {
        self.headers.get(object)
    }

    /// The partition place of a live partition; none where the index has no live partition.
    pub fn place(&self, partition: ObjIndex) -> Option<usize>
        ensures place { result ≡ place_if
            (is_partition (header_at self.now.table.headers partition.0))
            (place_of self.now.table.partitions partition.0) }
        ensures within { IfSome result (λ place. place < PARTITIONS) }
    {
        self.headers.place(partition)
    }

    /// Whether fewer than eight partitions live, so that one more may be made.
    pub fn has_partition_place(&self) -> bool
        ensures { result ≡ has_partition_place self.now.table }
    {
        self.headers.has_partition_place()
    }

    /// The index of the live object with this serial, by a binary search; none exactly where no
    /// live object has it.
    pub fn index_of(&self, serial: Serial) -> Option<ObjIndex>
        ensures found { IfSome result
            (λ index. has_serial serial.0 (header_at self.now.table.headers index.0) ≡ true) }
        ensures none { result ≡ None
            → (index : ℕ)
            → has_serial serial.0 (header_at self.now.table.headers index) ≡ false }
    {
        self.headers.index_of(serial)
    }

    /// Adds a reference to a live object.
    pub fn add_ref(&mut self, object: ObjIndex)
        requires { IsSomeAnd (count_at self.old.counts object.0) (λ c. c.references < u64.MAX) }
        ensures { self.new ≡ changed with_reference self.old object.0 }
    {
        let mut count = self.counts.get(object.0 as usize).unwrap();
        count.references += 1;
        self.change(object, count);
    }

    /// Takes a reference from a live object, and answers whether it is doomed now.
    pub fn drop_ref(&mut self, object: ObjIndex) -> bool
        requires { IsSomeAnd (count_at self.old.counts object.0) (λ c. c.references ≢ 0) }
        ensures doomed { result ≡ is_doomed (count_at self.new.counts object.0) }
        ensures state { self.new ≡ changed without_reference self.old object.0 }
    {
        let mut count = self.counts.get(object.0 as usize).unwrap();
        count.references -= 1;
        self.change(object, count);
        count.references == 0
    }

    /// Whether the object is doomed: a live object without references.
    pub fn is_doomed(&self, object: ObjIndex) -> bool
        ensures { result ≡ is_doomed (count_at self.now.counts object.0) }
    {
        match self.counts.get(object.0 as usize) {
            Some(count) => count.references == 0,
            None => false,
        }
    }

    /// Puts a live object into another stage.
    pub fn set_stage(&mut self, object: ObjIndex, stage: Stage)
        requires { IsSome (header_at self.old.table.headers object.0) }
        ensures { self.new ≡ record self.old
            { table = header_staged stage self.old.table object.0 } }
    {
        self.headers.set_stage(object, stage);
    }

    /// Retires an object that is doomed and not retired. It stays live until it is removed.
    pub fn retire(&mut self, object: ObjIndex)
        requires doomed { IsSomeAnd (count_at self.old.counts object.0) (λ c. c.references ≡ 0) }
        requires not_retired { IsSomeAnd (count_at self.old.counts object.0)
            (λ c. c.retired ≡ false) }
        ensures { self.new ≡ changed as_retired self.old object.0 }
    {
        let mut count = self.counts.get(object.0 as usize).unwrap();
        count.retired = true;
        self.change(object, count);
    }

    /// Removes a retired object. Its index is free again, and the partition place of a partition.
    pub fn remove(&mut self, object: ObjIndex)
        requires { IsSomeAnd (count_at self.old.counts object.0) (λ c. c.retired ≡ true) }
        ensures { self.new ≡ removed self.old object.0 }
    {
        self.headers.remove(object);
        self.counts.set(object.0 as usize, None);
    }

    /// The serials of the doomed objects that aren't retired, rising.
    pub fn doomed(&self) -> &[Serial]
        ensures listed { result.now ≡ doomed self.now.counts }
        ensures rising { IsNonDecreasingBy number result.now }
    {
        self.counts.doomed()
    }

    /// The serials of the retired objects, rising.
    pub fn retired(&self) -> &[Serial]
        ensures listed { result.now ≡ retired self.now.counts }
        ensures rising { IsNonDecreasingBy number result.now }
    {
        self.counts.retired()
    }

    /// Puts another count of the same object in the place of the one that is there.
    fn change(&mut self, object: ObjIndex, count: Count)
        requires { IsSomeAnd (count_at self.old.counts object.0)
            (λ c. c.serial ≡ count.serial) }
        ensures { self.new ≡ record self.old
            { counts = slice_set self.old.counts object.0 (Some count) } }
    {
        self.counts.set(object.0 as usize, Some(count));
    }
}
