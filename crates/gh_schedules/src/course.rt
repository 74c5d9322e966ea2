//! What programs and a schedule make of a boot file, item by item and then by whole calls, is a
//! run, and so is every interleaving of programs. The functions do nothing; their clauses are laws.

ghost use Rattle.std.specs.Prelude.{◌≡◌, ◌+◌, ℕ, List, None, IsSome, IsTrue, false, filter, length, map};
ghost use Rattle.std.specs.List.{last_or, list_any};
ghost use Rattle.gh_base.specs.declared.ids.CpuNo.{CpuNo};
ghost use Rattle.gh_events.specs.Config.{IsBetween, present};
ghost use Rattle.gh_schedules.specs.Course.{IsInterleaving, IsCourse, begin, behind_steps, marks_by};
ghost use Rattle.gh_schedules.specs.Schedule.{boot_start, course_of, scheduled};
ghost use Rattle.gh_events.specs.Sound.{IsAtRest, IsSound, Step, after_steps, made_by};
ghost use Rattle.gh_events.specs.Start.{AreIndices, MayGive, start};
ghost use Rattle.gh_model.specs.Boot.{boot_fits, boot_state, has_manager};
ghost use Rattle.gh_model.specs.History.{entry_of};
ghost use Rattle.gh_model.specs.Legal.{exits, is_exit_call};
ghost use Rattle.gh_model.specs.Programs.{frames_made};
ghost use Rattle.gh_model.specs.Rows.{cpu_row};
ghost use Rattle.gh_model.specs.Run.{IsRun, is_mark_of};
ghost use Rattle.gh_model.specs.declared.boot_line.BootLine.{BootLine};

use gh_model::Program;

/// A course is an interleaving of its programs from the start of its boot file on, leaves the
/// configuration steady, and has the marks of each CPU's calls in order: behind the items of the
/// schedule, and at the end.
pub fn courses_are_sound<P: Program>()
    ensures schedule { (boot : List BootLine) (programs : ℕ → P) (schedule : List CpuNo)
        → IsTrue (boot_fits boot) → IsCourse P.answer P.after (boot_start boot) programs
        (scheduled P.answer P.after boot programs schedule) }
    ensures end { (boot : List BootLine) (programs : ℕ → P) (schedule : List CpuNo)
        → IsTrue (boot_fits boot) → IsCourse P.answer P.after (boot_start boot) programs
        (course_of P.answer P.after boot programs schedule) }
{}

/// At its end all is at rest, and the last call of each CPU of the boot is its exit call.
pub fn courses_end<P: Program>()
    ensures rest { (boot : List BootLine) (programs : ℕ → P) (schedule : List CpuNo)
        → IsTrue (boot_fits boot)
        → IsAtRest (course_of P.answer P.after boot programs schedule).conf }
    ensures exits { (boot : List BootLine) (programs : ℕ → P) (schedule : List CpuNo) (cpu : ℕ)
        → IsTrue (boot_fits boot) → IsSome (cpu_row (boot_state boot) cpu)
        → IsTrue (is_exit_call (last_or None
        (made_by (course_of P.answer P.after boot programs schedule).conf cpu))) }
{}

/// So a whole course of a boot file without a resource manager is a run: its history is legal and
/// graced, and each CPU's calls are, in order, those of its program for the replies in them.
pub fn courses_are_runs<P: Program>()
    ensures { (boot : List BootLine) (programs : ℕ → P) (schedule : List CpuNo)
        → IsTrue (boot_fits boot) → has_manager boot ≡ false
        → IsRun boot (λ cpu. frames_made P.answer P.after (programs cpu))
        (map entry_of (course_of P.answer P.after boot programs schedule).conf.history)
        (course_of P.answer P.after boot programs schedule).marks
        (present (course_of P.answer P.after boot programs schedule).conf) }
{}

/// And so is every interleaving of programs: where CPUs are given their programs' calls in turn,
/// and possible events come as they may, the configuration is sound, and the marks of each CPU's
/// calls are in order; and once all is at rest and each CPU of the boot has made its exit call, it
/// is a run. Until then a CPU between calls may be given its program's next one.
pub fn interleavings_are_runs<P: Program>()
    ensures sound { (boot : List BootLine) (index : ℕ → ℕ) (programs : ℕ → P) (steps : List Step)
        → IsTrue (boot_fits boot) → AreIndices (boot_state boot) index
        → IsInterleaving P.answer P.after
        (begin (start (boot_state boot) index) programs) steps
        → IsSound (after_steps (start (boot_state boot) index) steps) }
    ensures marks { (boot : List BootLine) (index : ℕ → ℕ) (programs : ℕ → P) (steps : List Step)
        (cpu : ℕ) → IsTrue (boot_fits boot) → AreIndices (boot_state boot) index
        → IsInterleaving P.answer P.after
        (begin (start (boot_state boot) index) programs) steps
        → filter (is_mark_of cpu) (behind_steps P.answer P.after
        (begin (start (boot_state boot) index) programs) steps).marks
        ≡ marks_by (after_steps (start (boot_state boot) index) steps) cpu }
    ensures goes_on { (boot : List BootLine) (index : ℕ → ℕ) (programs : ℕ → P) (steps : List Step)
        (cpu : ℕ) → IsTrue (boot_fits boot) → AreIndices (boot_state boot) index
        → IsInterleaving P.answer P.after
        (begin (start (boot_state boot) index) programs) steps
        → IsSome (cpu_row (boot_state boot) cpu)
        → IsBetween ((after_steps (start (boot_state boot) index) steps).cpu cpu)
        → ((after_steps (start (boot_state boot) index) steps).cpu cpu).next ≡ None
        → list_any exits (made_by (after_steps (start (boot_state boot) index) steps) cpu) ≡ false
        → MayGive (after_steps (start (boot_state boot) index) steps) cpu
        (length (made_by (after_steps (start (boot_state boot) index) steps) cpu) + 1) }
    ensures run { (boot : List BootLine) (index : ℕ → ℕ) (programs : ℕ → P) (steps : List Step)
        → IsTrue (boot_fits boot) → has_manager boot ≡ false → AreIndices (boot_state boot) index
        → IsInterleaving P.answer P.after
        (begin (start (boot_state boot) index) programs) steps
        → IsAtRest (after_steps (start (boot_state boot) index) steps)
        → ((cpu : ℕ) → IsSome (cpu_row (boot_state boot) cpu)
        → IsTrue (is_exit_call (last_or None
        (made_by (after_steps (start (boot_state boot) index) steps) cpu))))
        → IsRun boot (λ cpu. frames_made P.answer P.after (programs cpu))
        (map entry_of (after_steps (start (boot_state boot) index) steps).history)
        (behind_steps P.answer P.after
        (begin (start (boot_state boot) index) programs) steps).marks
        (present (after_steps (start (boot_state boot) index) steps)) }
{}
