//! What is owed behind an entry.

ghost use Rattle.std.specs.Prelude.{◌≡◌, ◌++◌, false, map, true, IfOk, OnOk};
ghost use Rattle.gh_core.specs.Owing.{CoversAll, covers_there, held_in, owed_behind as owed_behind_of};
ghost use Rattle.gh_core.specs.Owing.{owed_in, owing, owing_row};
ghost use Rattle.gh_core.specs.Running.{index_in};

use crate::indices::{index_of, references_at};
use crate::reads::narrow;
use crate::table::{Written, last_number};
use gh_base::{NoMemory, OBJECT_INDICES, Sequence};
use gh_model::{ObjectRow, State};
use std::alloc::Global;

/// An entry's states, and the indices of objects before it and behind it.
#[derive(Clone, Copy)]
pub struct Behind<'a> {
    pub old: &'a State,
    pub new: &'a State,
    pub first: &'a [Written],
    pub given: &'a [Written],
    pub later: &'a [Written],
}

/// What is owed at an index, with the references of its object.
fn held(behind: Behind, owed: &[Written], at: u64) -> u128
    ensures { result ≡ held_in owed.now behind.entry.old.now (index_in behind.entry.first.now behind.entry.given.now) at }
{
    let before = last_number(owed, at).unwrap_or(0);
    before as u128 + references_at(behind.old, behind.first, behind.given, at)
}

/// What is owed at an index behind the entry.
fn owed_there(behind: Behind, owed: &[Written], at: u64) -> Result<Written, NoMemory>
    ensures { IfOk result (λ written. written ≡ owing (owed_in owed.now behind.entry.old.now
        behind.entry.new.now (index_in behind.entry.first.now behind.entry.given.now)
        (index_in behind.entry.first.now behind.entry.later.now)) at) }
{
    let references = references_at(behind.new, behind.first, behind.later, at);
    let value = narrow(held(behind, owed, at).saturating_sub(references))?;
    Ok(Written { at, value })
}

/// The same at the index of an object of the old state.
fn old_row(behind: Behind, owed: &[Written], row: &ObjectRow) -> Result<Written, NoMemory>
    ensures { IfOk result (λ written. written ≡ owing_row (owed_in owed.now
        behind.entry.old.now behind.entry.new.now
        (index_in behind.entry.first.now behind.entry.given.now)
        (index_in behind.entry.first.now behind.entry.later.now))
        (index_in behind.entry.first.now behind.entry.given.now) row.now) }
{
    let at = index_of(behind.first, behind.given, row.serial);
    owed_there(behind, owed, at)
}

/// And of one of the new state.
fn new_row(behind: Behind, owed: &[Written], row: &ObjectRow) -> Result<Written, NoMemory>
    ensures { IfOk result (λ written. written ≡ owing_row (owed_in owed.now
        behind.entry.old.now behind.entry.new.now
        (index_in behind.entry.first.now behind.entry.given.now)
        (index_in behind.entry.first.now behind.entry.later.now))
        (index_in behind.entry.first.now behind.entry.later.now) row.now) }
{
    let at = index_of(behind.first, behind.later, row.serial);
    owed_there(behind, owed, at)
}

/// The same at the index of each object of the old state.
fn put_old(behind: Behind, owed: &[Written], all: &mut Sequence<Written>) -> Result<(), NoMemory>
    ensures { OnOk result (all.new ≡ all.old ++ map (owing_row (owed_in owed.now behind.entry.old.now
        behind.entry.new.now (index_in behind.entry.first.now behind.entry.given.now)
        (index_in behind.entry.first.now behind.entry.later.now))
        (index_in behind.entry.first.now behind.entry.given.now)) behind.entry.old.now.objects) }
{
    let rows = behind.old.objects.as_slice();
    for row in rows {
        all.push(old_row(behind, owed, row)?)?;
    }
    Ok(())
}

/// And at that of each object of the new one.
fn put_new(behind: Behind, owed: &[Written], all: &mut Sequence<Written>) -> Result<(), NoMemory>
    ensures { OnOk result (all.new ≡ all.old ++ map (owing_row (owed_in owed.now behind.entry.old.now
        behind.entry.new.now (index_in behind.entry.first.now behind.entry.given.now)
        (index_in behind.entry.first.now behind.entry.later.now))
        (index_in behind.entry.first.now behind.entry.later.now)) behind.entry.new.now.objects) }
{
    let rows = behind.new.objects.as_slice();
    for row in rows {
        all.push(new_row(behind, owed, row)?)?;
    }
    Ok(())
}

/// What is owed behind the entry.
pub(crate) fn owed_behind(
    alloc: Global,
    behind: Behind,
    owed: &[Written],
) -> Result<Sequence<Written>, NoMemory>
    ensures { IfOk result (λ all. all ≡ owed_behind_of owed.now behind.entry.old.now behind.entry.new.now
        (index_in behind.entry.first.now behind.entry.given.now)
        (index_in behind.entry.first.now behind.entry.later.now)) }
{
    let mut all = Sequence::from_slice(alloc, owed)?;
    put_old(behind, owed, &mut all)?;
    put_new(behind, owed, &mut all)?;
    Ok(all)
}

fn covers_at(behind: Behind, owed: &[Written], at: u64) -> bool
    ensures { result ≡ covers_there owed.now behind.entry.old.now behind.entry.new.now
        (index_in behind.entry.first.now behind.entry.given.now)
        (index_in behind.entry.first.now behind.entry.later.now) at }
{
    references_at(behind.new, behind.first, behind.later, at) <= held(behind, owed, at)
}

/// Whether no owed amount falls below 0.
pub(crate) fn covers(behind: Behind, owed: &[Written]) -> bool
    ensures yes { result ≡ true → CoversAll owed.now behind.entry.old.now behind.entry.new.now
        (index_in behind.entry.first.now behind.entry.given.now)
        (index_in behind.entry.first.now behind.entry.later.now) }
    ensures no { result ≡ false → CoversAll owed.now behind.entry.old.now behind.entry.new.now
        (index_in behind.entry.first.now behind.entry.given.now)
        (index_in behind.entry.first.now behind.entry.later.now) → ⊥ }
{
    for at in 0..OBJECT_INDICES {
        if !covers_at(behind, owed, at as u64) {
            return false;
        }
    }
    true
}
