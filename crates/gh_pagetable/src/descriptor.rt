//! What an entry says of its range of pages.

ghost use Rattle.std.specs.Prelude.{◌≡◌, ◌↔◌, IsTrue};
ghost use Rattle.gh_pagetable.specs.Entry.{AreNumbered};
ghost use Rattle.gh_pagetable.specs.Map.{further};

use gh_base::PageNo;

/// The machine pages that a page table can name have numbers below this. It is this project's own.
pub const NUMBERED_PAGES: u16 = 4096;

/// Where a page leads: nowhere, or to a machine page with a mode.
pub type Target = Option<(PageNo, u8)>;

/// The target `pages` further on: the machine page is as much further on, with the same mode.
pub fn further(target: Target, pages: u16) -> Target
    requires { AreNumbered target pages }
    ensures { result ≡ further target pages }
{
    let (page, mode) = target?;
    Some((PageNo(page.0 + pages), mode))
}

/// What an entry says of its range.
#[derive(Clone, Copy, Debug, PartialEq, Eq)]
pub enum Descriptor {
    /// The range is uniform: empty or a block. This is where its first page leads.
    Uniform(Target),
    /// The range isn't uniform, and its table says more.
    Table,
}

impl Descriptor {
    /// Whether the range is uniform with this target first.
    pub fn is_from(self, target: Target) -> bool
        ensures { IsTrue result ↔ (self ≡ Descriptor.Uniform target) }
    {
        self == Descriptor::Uniform(target)
    }
}
