//! Lists of a few changes.

ghost use Rattle.std.specs.Prelude.{◌≡◌, ◌∷◌, [], IfOk};

use crate::change::Change;
use gh_base::{NoMemory, Sequence};
use std::alloc::Global;

pub(crate) fn one(alloc: Global, change: Change) -> Result<Sequence<Change>, NoMemory>
    ensures { IfOk result (λ changes. changes ≡ change ∷ []) }
{
    let mut changes = Sequence::new(alloc);
    changes.push(change)?;
    Ok(changes)
}

pub(crate) fn two(
    alloc: Global,
    first: Change,
    second: Change,
) -> Result<Sequence<Change>, NoMemory>
    ensures { IfOk result (λ changes. changes ≡ first ∷ second ∷ []) }
{
    let mut changes = one(alloc, first)?;
    changes.push(second)?;
    Ok(changes)
}

pub(crate) fn three(
    alloc: Global,
    first: Change,
    second: Change,
    third: Change,
) -> Result<Sequence<Change>, NoMemory>
    ensures { IfOk result (λ changes. changes ≡ first ∷ second ∷ third ∷ []) }
{
    let mut changes = two(alloc, first, second)?;
    changes.push(third)?;
    Ok(changes)
}
