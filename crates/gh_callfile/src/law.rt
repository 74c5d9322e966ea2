//! How call lines are spelled, what a call file's program makes, and which CPUs a schedule names.

ghost use Rattle.std.specs.Prelude.{◌≡◌, ℕ, None, Some, is_some};
ghost use Rattle.gh_model.specs.declared.program.Line.{Line};
ghost use Rattle.gh_model.specs.Boot.{boot_state};
ghost use Rattle.gh_model.specs.Program.{program_frames};
ghost use Rattle.gh_model.specs.Programs.{frames_made};
ghost use Rattle.gh_callfile.specs.Grammar.{line_of};
ghost use Rattle.gh_model.specs.Rows.{cpu_row};
ghost use Rattle.gh_callfile.specs.Schedule.{is_cpu_of};
ghost use Rattle.gh_callfile.specs.Spelling.{IsWellWritten, Spells, Written, meant, spelled};
ghost use Rattle.gh_callfile.specs.VmProgress.{fresh, vm_after, vm_answer};

use gh_base::Reply;
use gh_model::{Boot, Line};

/// Whatever replies come, the frames that a call file's program makes are those that its lines say.
/// The function does nothing; its clause is the law.
pub fn program_makes_its_lines(lines: &[Line], replies: &[Reply])
    ensures { frames_made vm_answer vm_after (fresh lines.now) replies.now
        ≡ program_frames lines.now replies.now }
{
    let _ = lines;
    let _ = replies;
}

/// A text that reads as a line is spelled by words of the grammar that mean this line. The function
/// does nothing; its clause is the law.
pub fn line_read_is_spelled(text: &[u8])
    ensures { (line : Line) → line_of text.now ≡ Some line → Spells text.now line }
{
    let _ = text;
}

/// A line that is well written reads as what its words mean. The function does nothing; its clause
/// is the law.
pub fn line_spelled_is_read(text: &[u8])
    ensures { (written : Written) → spelled written ≡ text.now → IsWellWritten written
        → line_of text.now ≡ meant written }
{
    let _ = text;
}

/// The CPUs of a boot file's lines are those for which its boot state has a row. The function does
/// nothing; its clause is the law.
pub fn cpus_have_rows(boot: &Boot)
    ensures { (cpu : ℕ) → is_cpu_of boot.now cpu ≡ is_some (cpu_row (boot_state boot.now) cpu) }
{
    let _ = boot;
}
