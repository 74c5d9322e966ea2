//! Objects that are made.

ghost use Rattle.std.specs.Prelude.{◌≡◌, ◌<◌, ◌≤◌, IfOk, OnErr, OnOk, count_by, length};
ghost use Rattle.gh_model.specs.Changes.{add_object, add_partition};
ghost use Rattle.gh_model.specs.declared.change.Change.TheVariants.{AddObject, AddPartition};
ghost use Rattle.gh_model.specs.declared.state.State.{State};
ghost use Rattle.gh_objects.specs.Headers.{HasIndex, is_partition, new_index};
ghost use Rattle.gh_parts.specs.Making.{CanMake};
ghost use Rattle.gh_parts.specs.ObjectChanges.{IsNewBody, booted, entered, new_header, opened};
ghost use Rattle.gh_parts.specs.Shares.{AreShares};
ghost use Rattle.gh_parts.specs.Stands.{Stands};

use crate::body::Body;
use crate::journal::Account;
use crate::parts::Parts;
use crate::shares::Place;
use crate::slots::Slots;
use gh_addrspace::Space;
use gh_base::{Kind, NoMemory, OBJECT_INDICES, ObjIndex, PARTITIONS, Serial, Stage};
use gh_doorbell::Bell;
use gh_model::ObjectRow;
use gh_objects::{Count, Header};
use gh_partition::Partition;
use std::alloc::Global;

/// An address space without rows.
fn new_space(alloc: Global) -> Result<Body, NoMemory>
    ensures { IfOk result (IsNewBody Kind.Space) }
{
    let space = Space::new(alloc)?;
    Ok(Body::Space(space))
}

/// The body of a new object.
fn new_body(alloc: Global, kind: Kind) -> Result<Body, NoMemory>
    ensures { IfOk result (IsNewBody kind) }
{
    match kind {
        Kind::Partition | Kind::Cspace => Ok(Body::Nothing),
        Kind::Space => new_space(alloc),
        Kind::Extent => Ok(Body::Extent(None)),
        Kind::Bell => Ok(Body::Bell(Bell::new())),
        Kind::Queue => Ok(Body::NewQueue),
    }
}

/// The header of a new object in the partition at an index.
fn new_header(home: ObjIndex, row: ObjectRow) -> Header
    ensures { result ≡ new_header home.0 row }
{
    Header {
        kind: row.kind,
        partition: home,
        serial: row.serial,
        stage: row.stage,
    }
}

/// The units of a boot partition, which uses one for itself.
fn boot_units(quota: u16) -> Partition
    requires { 1 ≤ quota }
    ensures { result ≡ record { quota = quota; used = 1; given = 0 } }
{
    let mut units = Partition::new(quota);
    let _ = units.take(1);
    units
}

impl Parts {
    /// Opens the slots of a new capability space, or the account of a new partition.
    fn open(&mut self, row: ObjectRow) -> Result<(), NoMemory>
        ensures ok { OnOk result (self.new ≡ opened row self.old) }
        ensures err { OnErr result (self.new ≡ self.old) }
    {
        match row.kind {
            Kind::Cspace => self.journal.slots.push(Slots::new(row.serial)),
            Kind::Partition => self.journal.accounts.push(Account {
                partition: row.serial,
                parent: row.partition,
                units: Partition::new(0),
            }),
            Kind::Space | Kind::Extent | Kind::Bell | Kind::Queue => Ok(()),
        }
    }

    /// Puts a new object to its index, with so many references.
    fn enter(&mut self, header: Header, cost: u16, body: Body, references: u64)
        requires index { HasIndex self.old.table header.kind header.partition.0 }
        requires place { header.kind ≡ Kind.Partition
            → count_by is_partition self.old.table.headers < PARTITIONS }
        requires room { length self.old.journal.retirements ≡ OBJECT_INDICES }
        requires serials { self.old.journal.next_serial < u32.MAX }
        ensures entered { self.new ≡ entered header cost body references self.old }
        ensures counted { length self.old.journal.counts ≡ OBJECT_INDICES }
    {
        let index = self.table.insert(header);
        self.shares.set_place(index, Place { cost, body });
        let count = Count {
            serial: header.serial,
            references,
            retired: false,
        };
        self.journal.counts.set(index.0 as usize, Some(count));
        self.journal.retirements.set(index.0 as usize, None);
        self.journal.next_serial += 1;
    }

    /// An object of the next serial is made, in a partition that has the units.
    pub fn add_object(&mut self, alloc: Global, row: ObjectRow) -> Result<(), NoMemory>
        ghost s: { State }
        requires { CanMake self.old s (AddObject row) }
        ensures ok { OnOk result (Stands self.new (add_object row s)) }
        ensures err { OnErr result (self.new ≡ self.old) }
    {
        let body = new_body(alloc, row.kind)?;
        self.open(row)?;
        if let Some(home) = self.index(row.partition) {
            self.owe(row.partition);
            self.take_units(row.partition, row.cost);
            self.enter(new_header(home, row), row.cost, body, 0);
        }
        Ok(())
    }

    /// Opens the account of a boot partition.
    fn boot(&mut self, partition: Serial, quota: u16) -> Result<(), NoMemory>
        requires { 1 ≤ quota }
        ensures ok { OnOk result (self.new ≡ booted partition quota self.old) }
        ensures err { OnErr result (self.new ≡ self.old) }
    {
        self.journal.accounts.push(Account {
            partition,
            parent: Serial(0),
            units: boot_units(quota),
        })
    }

    /// A boot partition of the next serial is made, which lives in itself.
    pub fn add_partition(&mut self, quota: u16) -> Result<(), NoMemory>
        ghost s: { State }
        requires { CanMake self.old s (AddPartition quota) }
        ensures ok { OnOk result (Stands self.new (add_partition quota s)) }
        ensures err { OnErr result (self.new ≡ self.old) }
    {
        let serial = Serial(self.journal.next_serial);
        self.boot(serial, quota)?;
        if let Some(index) = self.table.boot_index() {
            let header = Header {
                kind: Kind::Partition,
                partition: index,
                serial,
                stage: Stage::Active,
            };
            self.enter(header, 1, Body::Nothing, 1);
        }
        Ok(())
    }
}
