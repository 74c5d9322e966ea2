//! The count of each index, and the serials of the doomed and of the retired objects.

ghost use Rattle.std.specs.Prelude.{◌≡◌, ◌+◌, ◌<◌, IfOk, IfSome};
ghost use Rattle.std.specs.Prelude.{Contains, None, length, replicate, slice_set};
ghost use Rattle.std.specs.Option.{option_to_list};
ghost use Rattle.std.specs.List.Sorted.{IsNonDecreasingBy};
ghost use Rattle.gh_objects.specs.Counts.{count_at, doomed, no_counts, retired};
ghost use Rattle.gh_objects.specs.Rising.{Relists};
ghost use Rattle.gh_objects.specs.Serials.{number};

use crate::count::{Count, doomed_serial, retired_serial};
use crate::rising::Rising;
use gh_base::{NoMemory, OBJECT_INDICES, Serial};
use std::alloc::Global;
use std::marker::Model;

/// The counts by index. No call but `new` takes memory.
#[derive(Debug, Drop)]
pub struct Counts {
    counts: Vec<Option<Count>>,
    doomed: Rising,
    retired: Rising,
}

impl Model for Counts {
    ghost use Rattle.std.specs.Prelude.{List, Option};
    ghost use Rattle.gh_objects.specs.declared.count.Count.{Count};
    ghost use Rattle.gh_objects.specs.Table.{AreListed};

    ghost Value = { List (Option Count) };

    ghost view = { λ t. t.counts.items };

    ghost invariant = { λ t. AreListed t.counts.items t.doomed t.retired };
}

impl Counts {
    /// No count, with all the room taken.
    pub fn new(alloc: Global) -> Result<Counts, NoMemory>
        ensures { IfOk result (λ t. t ≡ no_counts) }
    {
        Ok(Counts {
            counts: nothing_counted(alloc, OBJECT_INDICES)?,
            doomed: Rising::new(alloc)?,
            retired: Rising::new(alloc)?,
        })
    }

    /// The count of an index; none where no object lives there.
    pub fn get(&self, index: usize) -> Option<Count>
        ensures count { result ≡ count_at self.now index }
        ensures size { length self.now ≡ OBJECT_INDICES }
    {
        self.counts.get(index).copied().flatten()
    }

    /// Puts a count to an index, or takes away the one that is there.
    pub fn set(&mut self, index: usize, count: Option<Count>)
        requires { index < OBJECT_INDICES }
        ensures count { self.new ≡ slice_set self.old index count }
        ensures size { length self.old ≡ OBJECT_INDICES }
    {
        let old = self.get(index);
        relist(&mut self.doomed, doomed_serial(old), doomed_serial(count));
        relist(
            &mut self.retired,
            retired_serial(old),
            retired_serial(count),
        );
        self.counts[index] = count;
    }

    /// The serials of the doomed objects that aren't retired, rising.
    pub fn doomed(&self) -> &[Serial]
        ensures listed { result.now ≡ doomed self.now }
        ensures rising { IsNonDecreasingBy number result.now }
    {
        self.doomed.as_slice()
    }

    /// The serials of the retired objects, rising.
    pub fn retired(&self) -> &[Serial]
        ensures listed { result.now ≡ retired self.now }
        ensures rising { IsNonDecreasingBy number result.now }
    {
        self.retired.as_slice()
    }
}

/// So many indices without a count.
fn nothing_counted(alloc: Global, count: usize) -> Result<Vec<Option<Count>>, NoMemory>
    ensures { IfOk result (λ v. v.items ≡ replicate count None) }
{
    let counts = vec![in alloc; None; count]?;
    Ok(counts)
}

/// Puts one serial in the place of another, where there are such. A list that is to stay isn't
/// touched.
fn relist(list: &mut Rising, old: Option<Serial>, new: Option<Serial>)
    requires listed { IfSome old (Contains list.old) }
    requires room { length list.old < OBJECT_INDICES + length (option_to_list old) }
    ensures { Relists old new list.old list.new }
{
    if old == new {
        return;
    }
    if let Some(serial) = old {
        list.remove(serial);
    }
    if let Some(serial) = new {
        list.insert(serial);
    }
}
