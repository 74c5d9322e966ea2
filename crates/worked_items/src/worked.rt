//! Worked histories.

use crate::entries::{Entered, are_entries};
use crate::marks::{Line, are_lines};
use crate::names::{ONE, TWO};
use crate::row::Row;
use crate::walk::run_along;
use gh_base::NoMemory;
use gh_bootfile::read_boot;
use gh_items::Progress;
use std::alloc::Global;

/// A worked history: its rows, and then its entries and the lines of its calls.
#[derive(Clone, Copy)]
pub(crate) struct Worked<'a> {
    pub boot: &'a str,
    pub rows: &'a [Row],
    pub entries: &'a [Entered],
    /// The calls of VM 1.
    pub first: &'a [Line],
    /// Those of VM 2.
    pub second: &'a [Line],
}

fn ends(progress: &Progress, worked: &Worked) -> bool {
    let marks = progress.marks.as_slice();
    are_entries(progress.entries.as_slice(), worked.entries)
        && are_lines(ONE, marks, worked.first)
        && are_lines(TWO, marks, worked.second)
}

/// Whether the history comes as it is worked.
pub(crate) fn holds(alloc: Global, worked: &Worked) -> Result<bool, NoMemory> {
    match read_boot(alloc, worked.boot.as_bytes()) {
        Err(_) => Ok(false),
        Ok(boot) => match run_along(alloc, &boot, worked.rows)? {
            None => Ok(false),
            Some(progress) => Ok(ends(&progress, worked)),
        },
    }
}
