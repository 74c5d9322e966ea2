//! Objects that are reclaimed.

ghost use Rattle.std.specs.Prelude.{◌≡◌, ◌<◌, IsSome, length};
ghost use Rattle.gh_model.specs.Changes.{reclaim_object};
ghost use Rattle.gh_model.specs.declared.change.Change.TheVariants.{Reclaim};
ghost use Rattle.gh_model.specs.declared.state.State.{State};
ghost use Rattle.gh_objects.specs.Headers.{header_at};
ghost use Rattle.gh_parts.specs.Making.{CanMake};
ghost use Rattle.gh_parts.specs.Reclaims.{closed, removed};
ghost use Rattle.gh_parts.specs.Stands.{Stands};

use crate::body::Body;
use crate::parts::Parts;
use crate::shares::Place;
use crate::slots::close_slots;
use crate::units::{close_account, quota_in};
use gh_base::{OBJECT_INDICES, ObjIndex, Serial};

impl Parts {
    /// Closes the slots of a capability space, or the account of a partition.
    fn close(&mut self, object: Serial)
        ensures { self.new ≡ closed object.0 self.old }
    {
        close_slots(&mut self.journal.slots, object);
        close_account(&mut self.journal.accounts, object);
    }

    /// Takes away all that stands at the index of an object.
    fn remove(&mut self, index: ObjIndex)
        requires index { index.0 < OBJECT_INDICES }
        requires lives { IsSome (header_at self.old.table.headers index.0) }
        requires room { length self.old.journal.retirements ≡ OBJECT_INDICES }
        ensures { self.new ≡ removed index.0 self.old }
    {
        self.table.remove(index);
        self.shares.set_place(
            index,
            Place {
                cost: 0,
                body: Body::Nothing,
            },
        );
        self.journal.counts.set(index.0 as usize, None);
        self.journal.retirements.set(index.0 as usize, None);
    }

    /// An object goes with all its rows, and an extent's pages go to its parent. It takes no
    /// memory.
    pub fn reclaim(&mut self, object: Serial)
        ghost s: { State }
        requires { CanMake self.old s (Reclaim object) }
        ensures { Stands self.new (reclaim_object object s) }
    {
        if let Some(index) = self.index(object) {
            let home = self.home_at(index);
            let parent = self.parent(object);
            let cost = self.shares.cost(index);
            let quota = quota_in(self.journal.accounts.as_slice(), object);
            self.return_pages(object, parent);
            self.close(object);
            self.return_units(home, cost, quota);
            self.remove(index);
            self.settle(home);
            self.settle_some(parent);
        }
    }
}
