//! What a change of the live objects does at its index and leaves at every other. Each law is the
//! contract of a function that does nothing.

ghost use Rattle.std.specs.Prelude.{◌≡◌, ◌≢◌, ℕ, None};
ghost use Rattle.std.specs.Option.{option_map};
ghost use Rattle.gh_base.specs.declared.kind.Stage.{Stage};
ghost use Rattle.gh_objects.specs.declared.count.Count.{Count};
ghost use Rattle.gh_objects.specs.declared.header.Header.{Header};
ghost use Rattle.gh_objects.specs.Counts.{count_at};
ghost use Rattle.gh_objects.specs.Headers.{HeaderTable, header_at};
ghost use Rattle.gh_objects.specs.Headers.{header_staged, in_stage, new_index};
ghost use Rattle.gh_objects.specs.Objects.{Objects, changed, inserted, removed};

/// A new object leaves the header and the count of every index but its own.
pub fn insert_leaves_others()
    ensures headers { (s : Objects) (header : Header) (index : ℕ) →
        index ≢ new_index s.table header.partition.0 →
        header_at (inserted s header).table.headers index ≡ header_at s.table.headers index }
    ensures counts { (s : Objects) (header : Header) (index : ℕ) →
        index ≢ new_index s.table header.partition.0 →
        count_at (inserted s header).counts index ≡ count_at s.counts index }
{}

/// Another stage is that of the header at its index, and every other header stays.
pub fn stage_changes_one_header()
    ensures here { (stage : Stage) (s : HeaderTable) (index : ℕ) →
        header_at (header_staged stage s index).headers index
        ≡ option_map (in_stage stage) (header_at s.headers index) }
    ensures others { (stage : Stage) (s : HeaderTable) (index other : ℕ) → other ≢ index →
        header_at (header_staged stage s index).headers other ≡ header_at s.headers other }
{}

/// A reference that is added or dropped, and a retirement, change the count at their index. Every
/// other count stays.
pub fn change_changes_one_count()
    ensures here { (change : Count → Count) (s : Objects) (index : ℕ) →
        count_at (changed change s index).counts index
        ≡ option_map change (count_at s.counts index) }
    ensures others { (change : Count → Count) (s : Objects) (index other : ℕ) →
        other ≢ index →
        count_at (changed change s index).counts other ≡ count_at s.counts other }
    ensures headers { (change : Count → Count) (s : Objects) (index : ℕ) →
        (changed change s index).table ≡ s.table }
{}

/// An object that is removed leaves neither header nor count at its index, and all others stay.
pub fn remove_clears_one_index()
    ensures header { (s : Objects) (index : ℕ) →
        header_at (removed s index).table.headers index ≡ None }
    ensures count { (s : Objects) (index : ℕ) →
        count_at (removed s index).counts index ≡ None }
    ensures other_headers { (s : Objects) (index other : ℕ) → other ≢ index →
        header_at (removed s index).table.headers other ≡ header_at s.table.headers other }
    ensures other_counts { (s : Objects) (index other : ℕ) → other ≢ index →
        count_at (removed s index).counts other ≡ count_at s.counts other }
{}
