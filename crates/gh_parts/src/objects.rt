//! Changes of objects.

ghost use Rattle.std.specs.Prelude.{◌≡◌, ◌<◌, length};
ghost use Rattle.gh_model.specs.Changes.{retire_object, set_stage};
ghost use Rattle.gh_model.specs.declared.change.Change.TheVariants.{Retire};
ghost use Rattle.gh_model.specs.declared.state.State.{State};
ghost use Rattle.gh_objects.specs.Counts.{as_retired, count_changed};
ghost use Rattle.gh_parts.specs.Index.{index_of};
ghost use Rattle.gh_parts.specs.Making.{CanMake};
ghost use Rattle.gh_parts.specs.NumberChanges.{with_retired};
ghost use Rattle.gh_parts.specs.Stands.{Stands};

use crate::parts::Parts;
use gh_base::{Counters, OBJECT_INDICES, ObjIndex, Serial, Stage};
use gh_objects::Counts;

/// Marks the object at an index as retired, if there is one.
fn mark_retired(counts: &mut Counts, index: ObjIndex)
    requires { index.0 < OBJECT_INDICES }
    ensures { counts.new ≡ count_changed as_retired counts.old index.0 }
{
    if let Some(mut count) = counts.get(index.0 as usize) {
        count.retired = true;
        counts.set(index.0 as usize, Some(count));
    }
}

impl Parts {
    /// An object comes to another stage.
    pub fn set_stage(&mut self, object: Serial, stage: Stage)
        ghost s: { State }
        requires { Stands self.old s }
        ensures { Stands self.new (set_stage object stage s) }
    {
        if let Some(index) = self.index(object) {
            self.table.set_stage(index, stage);
        }
    }

    /// Retires the object at an index.
    fn retire_at(&mut self, index: ObjIndex, seen: Counters)
        requires index { index.0 < OBJECT_INDICES }
        requires room { length self.old.journal.retirements ≡ OBJECT_INDICES }
        ensures { self.new ≡ with_retired seen index.0 self.old }
    {
        mark_retired(&mut self.journal.counts, index);
        self.journal.retirements.set(index.0 as usize, Some(seen));
    }

    /// An object's row gets the CPUs' counters at its retirement.
    pub fn retire(&mut self, object: Serial, seen: Counters)
        ghost s: { State }
        requires { CanMake self.old s (Retire object seen) }
        ensures { Stands self.new (retire_object object seen s) }
    {
        if let Some(index) = self.index(object) {
            self.retire_at(index, seen);
        }
    }
}
