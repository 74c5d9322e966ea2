//! A mapping row with the machine page at which it begins.

ghost use Rattle.std.specs.Prelude.{◌≡◌};
ghost use Rattle.gh_addrspace.specs.Rows.{covers, is_chosen, overlaps};

use gh_base::{PageNo, Serial};
use gh_model::MapRow;

/// A mapping row, with the machine page that its first page names.
#[derive(Clone, Copy, Debug)]
pub struct Mapping {
    pub row: MapRow,
    /// The first page of the extent's span and the row's offset. Neither changes while the row
    /// stands.
    pub page: PageNo,
}

impl Mapping {
    /// Whether the row covers the page.
    pub(crate) fn covers(&self, v: u16) -> bool
        ensures { result ≡ covers v self.now }
    {
        let end = self.row.base as u128 + self.row.count as u128;
        self.row.base <= v as u64 && (v as u128) < end
    }

    /// Whether the row has a page of the space in common with another.
    pub(crate) fn overlaps(&self, row: MapRow) -> bool
        ensures { result ≡ overlaps row self.now }
    {
        let end = self.row.base as u128 + self.row.count as u128;
        let other_end = row.base as u128 + row.count as u128;
        (row.base as u128) < end && (self.row.base as u128) < other_end
    }
}

/// Rows that are chosen to go.
#[derive(Clone, Copy, Debug)]
pub enum Chosen {
    /// Rows of the map call, of these pages.
    Pages {
        extent: Serial,
        base: u64,
        offset: u64,
        count: u64,
    },
    /// Rows of the parcel with this handle.
    Parcel(u32),
}

impl Chosen {
    /// Whether the row is one of them.
    pub(crate) fn has(self, mapping: &Mapping) -> bool
        ensures { result ≡ is_chosen self mapping.now }
    {
        let row = mapping.row;
        match self {
            Chosen::Pages {
                extent,
                base,
                offset,
                count,
            } => {
                row.handle == 0
                    && row.extent == extent
                    && row.base == base
                    && row.offset == offset
                    && row.count == count
            }
            Chosen::Parcel(handle) => row.handle == handle,
        }
    }
}
