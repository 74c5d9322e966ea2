//! Runs of pages, one after another, as they lie in a list.

ghost use Rattle.std.specs.Prelude.{◌≡◌, ◌∷◌, ◌++◌, ◌+◌, ◌<◌, ◌≤◌};
ghost use Rattle.std.specs.Prelude.{◌-◌, length, take, drop, vec_len, vec_capacity};
ghost use Rattle.std.specs.List.{prefix_len, position};
ghost use Rattle.std.specs.Option.{option_map};
ghost use Rattle.gh_extent.specs.Runs.{end_of, Rising, ends_by, spread};
ghost use Rattle.gh_model.specs.Boot.{move_pages};
ghost use Rattle.gh_model.specs.Memory.{is_serial};

use gh_base::Serial;

/// A run of pages with one holder. It begins where the run before it ends.
#[derive(Clone, Copy, Debug)]
pub struct Run {
    /// The page behind its last.
    pub end: u16,
    pub holder: Serial,
}

/// How many runs end at or before the page, by a binary search: the place of the page's run.
pub fn place_of(runs: &[Run], page: u16) -> usize
    requires { Rising 0 runs.now }
    ensures place { result ≡ prefix_len (ends_by page) runs.now }
    ensures within { result ≤ length runs.now }
{
    runs.partition_point(|run| run.end <= page)
}

/// The first page of the run at a place.
fn start_of(runs: &[Run], at: usize) -> u16
    requires { at ≤ length runs.now }
    ensures { result ≡ end_of 0 (take at runs.now) }
{
    if at == 0 { 0 } else { runs[at - 1].end }
}

/// Parts the run of a page so that a run begins there, and answers its place. No page changes its
/// holder.
fn part_at(runs: &mut Vec<Run>, page: u16) -> usize
    requires order { Rising 0 runs.old.items }
    requires within { page < length (spread 0 runs.old.items) }
    requires room { length (spread 0 runs.old.items) ≤ vec_capacity runs.old }
    ensures same { spread 0 runs.new.items ≡ spread 0 runs.old.items }
    ensures order { Rising 0 runs.new.items }
    ensures place { result ≡ prefix_len (ends_by page) runs.new.items }
    ensures begins { end_of 0 (take result runs.new.items) ≡ page }
    ensures room { vec_capacity runs.old ≤ vec_capacity runs.new }
{
    let at = place_of(runs, page);
    if start_of(runs, at) == page {
        return at;
    }
    let run = Run {
        end: page,
        holder: runs[at].holder,
    };
    runs.insert(at, run).unwrap();
    at + 1
}

/// Puts one run in the place of those from one place up to another.
fn replace(runs: &mut Vec<Run>, from: usize, to: usize, run: Run)
    requires order { from ≤ to }
    requires within { to ≤ vec_len runs.old }
    requires room { from + vec_len runs.old < to + vec_capacity runs.old }
    ensures items { runs.new.items ≡ take from runs.old.items ++ run ∷ drop to runs.old.items }
    ensures room { vec_capacity runs.old ≤ vec_capacity runs.new }
{
    for _ in from..to {
        runs.remove(from);
    }
    runs.insert(from, run).unwrap();
}

/// Joins the run at a place to the one behind it where they have one holder. No page changes its
/// holder.
fn join_at(runs: &mut Vec<Run>, at: usize)
    requires order { Rising 0 runs.old.items }
    requires within { at < vec_len runs.old }
    ensures same { spread 0 runs.new.items ≡ spread 0 runs.old.items }
    ensures order { Rising 0 runs.new.items }
    ensures one { vec_len runs.old ≤ vec_len runs.new + 1 }
    ensures room { vec_capacity runs.old ≤ vec_capacity runs.new }
{
    if at + 1 < runs.len() && runs[at].holder == runs[at + 1].holder {
        runs.remove(at);
    }
}

/// Joins the run at a place to those beside it that have its holder. No page changes its holder.
fn join_beside(runs: &mut Vec<Run>, at: usize)
    requires order { Rising 0 runs.old.items }
    requires within { at < vec_len runs.old }
    ensures same { spread 0 runs.new.items ≡ spread 0 runs.old.items }
    ensures order { Rising 0 runs.new.items }
    ensures room { vec_capacity runs.old ≤ vec_capacity runs.new }
{
    join_at(runs, at);
    if at > 0 {
        join_at(runs, at - 1);
    }
}

/// Gives the pages from the first up to the end to another holder.
pub fn give(runs: &mut Vec<Run>, first: u16, end: u16, holder: Serial)
    requires order { Rising 0 runs.old.items }
    requires some { first < end }
    requires within { end ≤ length (spread 0 runs.old.items) }
    requires room { length (spread 0 runs.old.items) ≤ vec_capacity runs.old }
    ensures order { Rising 0 runs.new.items }
    ensures given { spread 0 runs.new.items
        ≡ move_pages first (end - first) holder (spread 0 runs.old.items) }
    ensures room { vec_capacity runs.old ≤ vec_capacity runs.new }
{
    let from = part_at(runs, first);
    let to = place_of(runs, end);
    replace(runs, from, to, Run { end, holder });
    join_beside(runs, from);
}

/// The first page of the extent; none where it holds none.
pub fn first_held(runs: &[Run], extent: Serial) -> Option<u16>
    requires { Rising 0 runs.now }
    ensures { result ≡ position (is_serial extent.0) (spread 0 runs.now) }
{
    let mut first = 0;
    for run in runs {
        if run.holder == extent {
            return Some(first);
        }
        first = run.end;
    }
    None
}

/// The page behind those that the extent holds without a gap from the first on.
pub fn held_to(runs: &[Run], extent: Serial, first: u16) -> u16
    requires { Rising first runs.now }
    ensures { result ≡ first + prefix_len (is_serial extent.0) (spread first runs.now) }
{
    let mut end = first;
    for run in runs {
        if run.holder != extent {
            return end;
        }
        end = run.end;
    }
    end
}
