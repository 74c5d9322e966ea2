//! The holder of each page, as runs of pages.

ghost use Rattle.std.specs.Prelude.{◌≡◌, ◌+◌, ◌<◌, ◌≤◌, IfOk};
ghost use Rattle.std.specs.Prelude.{Some, length, drop, replicate, slice_get};
ghost use Rattle.std.specs.List.{prefix_len};
ghost use Rattle.gh_extent.specs.Extents.{first_run};
ghost use Rattle.gh_model.specs.Boot.{move_pages};
ghost use Rattle.gh_model.specs.Memory.{HoldsRun, holds_all, is_serial};

use crate::run_list::{Run, first_held, give, held_to, place_of};
use gh_base::{NoMemory, PageNo, Serial};
use std::alloc::Global;
use std::marker::Model;

/// The holder of each page. No call but `new` takes memory.
#[derive(Debug, Drop)]
pub struct Runs {
    pages: u16,
    runs: Vec<Run>,
}

impl Model for Runs {
    ghost use Rattle.std.specs.Prelude.{List, vec_capacity};
    ghost use Rattle.gh_base.specs.declared.ids.Serial.{Serial};
    ghost use Rattle.gh_extent.specs.Runs.{Lie, spread};

    ghost Value = { List Serial };

    ghost view = { λ r. spread 0 r.runs.items };

    ghost invariant = { λ r. Lie r.pages (vec_capacity r.runs) r.runs.items };
}

impl Runs {
    /// All pages with one holder, with room for a run of each page.
    pub fn new(alloc: Global, pages: u16, holder: Serial) -> Result<Runs, NoMemory>
        requires { 0 < pages }
        ensures { IfOk result (λ r. r ≡ replicate pages holder) }
    {
        let mut runs = Vec::with_capacity(alloc, pages as usize)?;
        runs.push(Run { end: pages, holder })?;
        Ok(Runs { pages, runs })
    }

    /// How many pages there are.
    pub fn pages(&self) -> u16
        ensures { result ≡ length self.now }
    {
        self.pages
    }

    /// The holder of a page. It finds the run by a binary search.
    pub fn holder(&self, page: u16) -> Serial
        requires { page < length self.now }
        ensures { slice_get self.now page ≡ Some result }
    {
        self.runs[place_of(&self.runs, page)].holder
    }

    /// The holder of a page, and how many pages from it on, `most` at most, it holds without a gap.
    pub fn run_at(&self, page: u16, most: u16) -> (Serial, u16)
        requires some { 0 < most }
        requires within { page + most ≤ length self.now }
        ensures some { 0 < result.1 }
        ensures most { result.1 ≤ most }
        ensures held { HoldsRun self.now result.0.0 page result.1 }
    {
        let holder = self.holder(page);
        (holder, self.held_from(holder, page).min(most))
    }

    /// Whether the extent holds each of these pages.
    pub fn holds(&self, extent: Serial, first: u16, count: u16) -> bool
        requires { first + count ≤ length self.now }
        ensures { result ≡ holds_all self.now extent.0 first count }
    {
        self.held_from(extent, first) >= count
    }

    /// The extent's first run: its first page and the number of pages; none where it holds no page.
    pub fn first_run(&self, extent: Serial) -> Option<(PageNo, u16)>
        ensures { result ≡ first_run extent.0 self.now }
    {
        let first = first_held(&self.runs, extent)?;
        Some((PageNo(first), self.held_from(extent, first)))
    }

    /// Gives pages to another holder.
    pub fn give(&mut self, first: u16, count: u16, holder: Serial)
        requires { first + count ≤ length self.old }
        ensures { self.new ≡ move_pages first count holder self.old }
    {
        if count == 0 {
            return;
        }
        give(&mut self.runs, first, first + count, holder);
    }

    /// How many pages from the first on the extent holds without a gap.
    fn held_from(&self, extent: Serial, first: u16) -> u16
        requires { first ≤ length self.now }
        ensures { result ≡ prefix_len (is_serial extent.0) (drop first self.now) }
    {
        let at = place_of(&self.runs, first);
        held_to(&self.runs[at..], extent, first) - first
    }
}
