//! References that are counted before a row has them, and still counted once it has them no more.

ghost use Rattle.std.specs.Prelude.{◌≡◌, ◌<◌, ◌≤◌, IfSome};
ghost use Rattle.gh_objects.specs.Counts.{count_at, count_changed, with_reference};
ghost use Rattle.gh_objects.specs.Counts.{without_reference};
ghost use Rattle.gh_parts.specs.Owing.{HasCount, recounted};

use crate::parts::Parts;
use gh_base::{OBJECT_INDICES, ObjIndex, Serial};
use gh_objects::Counts;

/// Counts a reference more, if an object is at the index.
fn raise(counts: &mut Counts, index: ObjIndex)
    requires index { index.0 < OBJECT_INDICES }
    requires few { IfSome (count_at counts.old index.0) (λ count. count.references < u64.MAX) }
    ensures { counts.new ≡ count_changed with_reference counts.old index.0 }
{
    if let Some(mut count) = counts.get(index.0 as usize) {
        count.references += 1;
        counts.set(index.0 as usize, Some(count));
    }
}

/// Counts a reference less, if an object is at the index.
fn lower(counts: &mut Counts, index: ObjIndex)
    requires index { index.0 < OBJECT_INDICES }
    requires some { IfSome (count_at counts.old index.0) (λ count. 1 ≤ count.references) }
    ensures { counts.new ≡ count_changed without_reference counts.old index.0 }
{
    if let Some(mut count) = counts.get(index.0 as usize) {
        count.references -= 1;
        counts.set(index.0 as usize, Some(count));
    }
}

impl Parts {
    /// Counts a reference to an object, which a row is about to have.
    pub(crate) fn owe(&mut self, object: Serial)
        requires { HasCount self.old object.0 (λ n. n < u64.MAX) }
        ensures { self.new ≡ recounted with_reference self.old object.0 }
    {
        if let Some(index) = self.index(object) {
            raise(&mut self.journal.counts, index);
        }
    }

    /// Counts a reference to an object no more, which a row had.
    pub(crate) fn settle(&mut self, object: Serial)
        requires { HasCount self.old object.0 (λ n. 1 ≤ n) }
        ensures { self.new ≡ recounted without_reference self.old object.0 }
    {
        if let Some(index) = self.index(object) {
            lower(&mut self.journal.counts, index);
        }
    }
}
