//! What an address space is beside its rows: nothing.

ghost use Rattle.std.specs.Prelude.{◌≡◌, ℕ, List, Option};
ghost use Rattle.gh_base.specs.declared.ids.Serial.{Serial as Number};
ghost use Rattle.gh_addrspace.specs.Space.{Shows, rows_of};
ghost use Rattle.gh_model.specs.declared.memory.Span.{Span as Spanned};

use crate::space::Space;

/// A law, with nothing to run. Two address spaces with the same rows, which show who holds the
/// pages, are equal, however they were made: a page table that was changed step by step is the one
/// that is made from nothing, in where each page leads and in the number of tables.
pub fn spaces_are_their_rows(first: &Space, second: &Space)
    ensures pages { (spans : ℕ → Option Spanned) (holders : List Number)
        → Shows spans holders first.now → Shows spans holders second.now
        → rows_of first.now ≡ rows_of second.now → first.now.pages ≡ second.now.pages }
    ensures same { (spans : ℕ → Option Spanned) (holders : List Number)
        → Shows spans holders first.now → Shows spans holders second.now
        → rows_of first.now ≡ rows_of second.now → first.now ≡ second.now }
{
    first.compare_tables(second);
}
