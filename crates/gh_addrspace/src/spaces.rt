//! Live address spaces, each by its serial.

ghost use Rattle.std.specs.Prelude.{◌≡◌, ℕ, ◌+◌, ◌≤◌, List};
ghost use Rattle.std.specs.Prelude.{Option, IfOk, IsSome, IsSomeAnd, OnErr, OnOk};
ghost use Rattle.std.specs.Result.{result_err};
ghost use Rattle.gh_base.specs.declared.ids.Serial.{Serial as Number};
ghost use Rattle.gh_addrspace.specs.Space.{Follows, LeavesOthers, MapsIn};
ghost use Rattle.gh_addrspace.specs.Space.{Space as State, row_at, span_map_refusal};
ghost use Rattle.gh_addrspace.specs.Spaces.{Becomes, Changes, KeepsShowing, Stay};
ghost use Rattle.gh_model.specs.Boot.{move_pages};
ghost use Rattle.gh_model.specs.Memory.{HoldsRun};
ghost use Rattle.gh_model.specs.declared.memory.Span.{Span as Spanned};

use crate::mapping::Chosen;
use gh_base::{Errno, NoMemory, PageNo, Serial};
use gh_model::{Holders, MapRow};
use gh_pagetable::NUMBERED_PAGES;

/// Live address spaces. No call changes which are live.
pub trait Spaces {
    // The live address space with a serial; none where no live one has it.
    ghost space_of: { Self → ℕ → Option State };

    /// Maps a row into a space, as its own call does.
    fn map<H: Holders>(
        &mut self,
        space: Serial,
        row: MapRow,
        holders: &H,
    ) -> Result<Result<(), Errno>, NoMemory>
        requires live { IsSome (space_of self.old space.0) }
        requires span { IsSomeAnd (H.span_of holders.now row.extent.0)
            (λ span. span.first.0 + span.count ≤ NUMBERED_PAGES) }
        ensures refusal { IfOk result (λ answer. IsSomeAnd (space_of self.old space.0)
            (λ s. result_err answer
            ≡ span_map_refusal s row (H.span_of holders.now row.extent.0))) }
        ensures mapped { IfOk result (λ answer. OnOk answer
            (Changes (space_of self.old) (space_of self.new) space.0
            (λ s t. MapsIn s t (H.holders holders.now) row
            (H.span_of holders.now row.extent.0)))) }
        ensures refused { IfOk result (λ answer. OnErr answer
            (Stay (space_of self.old) (space_of self.new))) }
        ensures no_memory { OnErr result (Stay (space_of self.old) (space_of self.new)) }
        ensures shows { Becomes (KeepsShowing (H.span_of holders.now)
            (H.holders holders.now) (H.holders holders.now))
            (space_of self.old space.0) (space_of self.new space.0) };

    /// Takes the rows of a parcel's handle away from a space.
    fn clear(&mut self, space: Serial, handle: u32)
        requires { IsSome (space_of self.old space.0) }
        ensures cleared { Changes (space_of self.old) (space_of self.new) space.0
            (λ s t. LeavesOthers s t (Chosen.Parcel handle)) }
        ensures shows { (spans : ℕ → Option Spanned) (holders : List Number)
            → Becomes (KeepsShowing spans holders holders)
            (space_of self.old space.0) (space_of self.new space.0) };

    /// The row that covers a page of a space; none where no row does.
    fn row_at(&self, space: Serial, v: u16) -> Option<MapRow>
        requires { IsSome (space_of self.now space.0) }
        ensures { IsSomeAnd (space_of self.now space.0) (λ s. result ≡ row_at s v) };

    /// Follows a run of machine pages that moved from one extent to another, in every space.
    fn moved(&mut self, from: Serial, to: Serial, first: PageNo, count: u16)
        ensures followed { (space : ℕ) → Becomes
            (λ s t. Follows s t from.0 to.0 first.0 count)
            (space_of self.old space) (space_of self.new space) }
        ensures shows { (spans : ℕ → Option Spanned) (holders : List Number)
            → HoldsRun holders from.0 first.0 count
            → (space : ℕ) → Becomes
            (KeepsShowing spans holders (move_pages first.0 count to holders))
            (space_of self.old space) (space_of self.new space) };
}
