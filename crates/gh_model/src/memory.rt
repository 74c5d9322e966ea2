//! What extents and address spaces know of each other: spans, mapping rows, and who holds a page.

ghost use Rattle.std.specs.Prelude.{◌≡◌, ℕ, List, Option};
ghost use Rattle.gh_base.specs.declared.ids.Serial.{Serial as Number};
ghost use Rattle.gh_model.specs.Memory.{holds_page};
ghost use Rattle.gh_model.specs.declared.memory.Span.{Span as Spanned};

use gh_base::{Access, PageNo, Serial};

/// The machine pages that an extent spans. It may hold some of them, or none.
#[derive(Clone, Copy, Debug, PartialEq, Eq)]
pub struct Span {
    pub first: PageNo,
    /// Pages.
    pub count: u16,
    /// The most access that a mapping of the extent may have.
    pub access: Access,
}

/// A mapping row of an address space: `count` pages of an extent at as many pages of the space.
#[derive(Clone, Copy, Debug, PartialEq, Eq)]
pub struct MapRow {
    pub extent: Serial,
    /// The first page in the address space.
    pub base: u64,
    /// The first page, from the start of the extent's span.
    pub offset: u64,
    /// Pages.
    pub count: u64,
    pub access: Access,
    /// The memory parcel whose accept made the row; 0 for a row of the map call.
    pub handle: u32,
}

/// Who tells which extent holds a page, and which pages an extent spans.
pub trait Holders {
    // For each page of the machine the extent that holds it.
    ghost holders: { Self → List Number };

    // The span of the extent with a serial; none for a serial without an extent.
    ghost span_of: { Self → ℕ → Option Spanned };

    /// Whether the extent holds the page; false for a page that the machine hasn't.
    fn holds(&self, extent: Serial, page: PageNo) -> bool
        ensures { result ≡ holds_page (holders self.now) extent.0 page.0 };

    /// The span of an extent; none exactly for a serial without an extent.
    fn span(&self, extent: Serial) -> Option<Span>
        ensures { result ≡ span_of self.now extent.0 };
}
