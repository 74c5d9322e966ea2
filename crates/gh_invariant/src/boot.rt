//! A boot file is a list of changes that may be made, and the first state of a machine is valid and
//! unused. The functions do nothing; their clauses are laws.

ghost use Rattle.std.specs.Prelude.{◌≡◌, ◌+◌, ◌<◌, ℕ, List, IsTrue, false, is_some, true};
ghost use Rattle.gh_invariant.specs.BootChanges.{boot_changes};
ghost use Rattle.gh_invariant.specs.Effects.{gained, takes_all, times, units_of};
ghost use Rattle.gh_invariant.specs.Grants.{is_running};
ghost use Rattle.gh_invariant.specs.Premises.{MayChangeAll};
ghost use Rattle.gh_invariant.specs.Valid.{IsValid};
ghost use Rattle.gh_model.specs.Boot.{boot_fits, boot_state, empty_state};
ghost use Rattle.gh_model.specs.Changes.{changed_all};
ghost use Rattle.gh_model.specs.History.{is_retired};
ghost use Rattle.gh_model.specs.References.{references};
ghost use Rattle.gh_model.specs.Rows.{cpu_row, object_row};
ghost use Rattle.gh_model.specs.Units.{given_units, used_units};
ghost use Rattle.gh_model.specs.declared.boot_line.BootLine.{BootLine};

/// The changes of a boot file may be made in their order, and make its state of nothing.
pub fn boot_changes_make_boot()
    ensures may { (lines : List BootLine) → IsTrue (boot_fits lines)
        → MayChangeAll empty_state (boot_changes lines) }
    ensures make { (lines : List BootLine)
        → changed_all empty_state (boot_changes lines) ≡ boot_state lines }
{}

/// The state that a boot file makes is valid.
pub fn boot_is_valid()
    ensures { (lines : List BootLine) → IsTrue (boot_fits lines) → IsValid (boot_state lines) }
{}

/// In it no object is retired, and no CPU has exited.
pub fn boot_is_unused()
    ensures objects { (lines : List BootLine) (object : ℕ) → IsTrue (boot_fits lines)
        → is_retired (object_row (boot_state lines) object) ≡ false }
    ensures cpus { (lines : List BootLine) (cpu : ℕ) → IsTrue (boot_fits lines)
        → is_some (cpu_row (boot_state lines) cpu) ≡ true
        → is_running (cpu_row (boot_state lines) cpu) ≡ true }
{}

/// An object's references are those that the changes of the lines give it.
pub fn boot_references_are_gains()
    ensures { (lines : List BootLine) (object : ℕ) → IsTrue (boot_fits lines) → 0 < object
        → references (boot_state lines) object
        ≡ times object (gained empty_state (boot_changes lines)) }
{}

/// What a partition uses and gives is what the changes of the lines take from it.
pub fn boot_units_are_taken()
    ensures { (lines : List BootLine) (partition : ℕ) → IsTrue (boot_fits lines)
        → used_units (boot_state lines) partition + given_units (boot_state lines) partition
        ≡ units_of partition (takes_all empty_state (boot_changes lines)) }
{}
