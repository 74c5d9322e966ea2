//! What the slow machine tells of its state at once. These reads take no memory.

ghost use Rattle.std.specs.Prelude.{◌≡◌, Some};
ghost use Rattle.gh_base.specs.declared.kind.Kind.TheVariants as kind;
ghost use Rattle.gh_model.specs.Access.{access_at};
ghost use Rattle.gh_model.specs.Boot.{is_kind, is_of_kind};
ghost use Rattle.gh_model.specs.Reads.{last_serial, partition_units, look_word, plain_object};
ghost use Rattle.gh_model.specs.Reads.{plain_cap, is_doomed_object, retired_counters};
ghost use Rattle.gh_model.specs.Word.{look_reply};

use crate::act::cspace_of;
use crate::lookup::{capability_row, object_row};
use crate::plain::Plain;
use crate::references::doomed;
use crate::rows::{CapabilityRow, ObjectRow};
use crate::word::Word;
use gh_base::{Access, CpuNo, Errno, Kind, Need, PageNo, Serial};

fn is_of_kind(row: Option<ObjectRow>, kind: Kind) -> bool
    ensures { result ≡ is_of_kind kind row }
{
    match row {
        None => false,
        Some(row) => row.kind == kind,
    }
}

fn object_of(row: Option<CapabilityRow>) -> Option<Serial>
    ensures { result ≡ plain_object row }
{
    match row {
        Some(row) if row.valid && !row.master => Some(row.serial),
        _ => None,
    }
}

impl Plain {
    /// The greatest serial given so far; 0 where none was.
    pub fn last_serial(&self) -> Serial
        ensures { result.0 ≡ last_serial self.now }
    {
        Serial(self.state().next_serial.saturating_sub(1))
    }

    /// The used, free and given units of a live partition; none for any other serial.
    pub fn units(&self, serial: Serial) -> Option<(u16, u16, u16)>
        ensures { result ≡ partition_units self.now serial.0 }
    {
        let state = self.state();
        if !is_of_kind(
            object_row(state.objects.as_slice(), serial),
            Kind::Partition,
        ) {
            return None;
        }
        Some((
            state.used_units(serial),
            state.free_units(serial),
            state.given_units(serial),
        ))
    }

    /// Whether this is a live address space.
    pub fn is_space(&self, serial: Serial) -> bool
        ensures { result ≡ is_kind self.now serial.0 kind.Space }
    {
        is_of_kind(
            object_row(self.state().objects.as_slice(), serial),
            Kind::Space,
        )
    }

    /// The machine page and the access at a page of an address space, where it has any.
    pub fn access(&self, space: Serial, page: u16) -> Option<(PageNo, Access)>
        ensures { result ≡ access_at self.now space.0 page }
    {
        self.state().access(space, page)
    }

    /// The word that a CPU's look at a capability number finds now.
    fn found(&self, cpu: CpuNo, slot: u64) -> Word
        ensures { result ≡ look_word self.now cpu.0 slot }
    {
        self.word(cspace_of(self.state(), cpu), slot)
    }

    /// What a CPU's look at a capability number answers now, and the number of the entry that last
    /// set the slot, 0 where none did.
    pub fn look(&self, cpu: CpuNo, slot: u64, need: &Need) -> (Result<Serial, Errno>, u32)
        ensures reply { result.0 ≡ look_reply (look_word self.now cpu.0 slot) need.now }
        ensures set_at { result.1 ≡ (look_word self.now cpu.0 slot).set_at }
    {
        let word = self.found(cpu, slot);
        (word.reply(*need), word.set_at)
    }

    /// The object of the valid capability without master mark in a slot; none where there is none.
    pub fn cap(&self, space: Serial, slot: u8) -> Option<Serial>
        ensures { result ≡ plain_cap self.now space.0 slot }
    {
        object_of(capability_row(self.state().caps.as_slice(), space, slot as u64))
    }

    /// Whether this is an object that nothing refers to.
    pub fn doomed(&self, serial: Serial) -> bool
        ensures { result ≡ is_doomed_object self.now serial.0 }
    {
        let state = self.state();
        object_row(state.objects.as_slice(), serial).is_some() && doomed(state, serial)
    }

    /// The CPUs' counters at an object's retirement; none where it isn't a retired object.
    pub fn retired(&self, serial: Serial) -> Option<[u64; 9]>
        ensures { result ≡ retired_counters self.now serial.0 }
    {
        let row = object_row(self.state().objects.as_slice(), serial)?;
        row.retired
    }
}
