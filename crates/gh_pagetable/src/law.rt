//! What a page table is beside its answers: nothing.

ghost use Rattle.std.specs.Prelude.{◌≡◌, ◌<◌, ℕ};
ghost use Rattle.gh_base.specs.declared.limits.TheConstants.{SPACE_PAGES};
ghost use Rattle.gh_pagetable.specs.Map.{at};

use crate::page_table::PageTable;

/// A law, with nothing to run. Two page tables that answer the same at every page are equal,
/// however they were made.
pub fn tables_are_their_answers(first: &PageTable, second: &PageTable)
    ensures { ((v : ℕ) → v < SPACE_PAGES → at first.now v ≡ at second.now v)
        → first.now ≡ second.now }
{
    let _first = first.get(0);
    let _second = second.get(0);
}
