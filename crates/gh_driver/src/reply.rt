//! The reply to a CPU's last call.

ghost use Rattle.std.specs.Prelude.{◌≡◌, filter, None};
ghost use Rattle.std.specs.List.{last_or};
ghost use Rattle.std.specs.Option.{option_map};
ghost use Rattle.gh_base.specs.declared.mark.Mark.{Mark as Finished};
ghost use Rattle.std.specs.Borrow.{Bor};
ghost use Rattle.gh_model.specs.Programs.{told};
ghost use Rattle.gh_model.specs.Run.{is_mark_of};

use gh_base::{CpuNo, Mark, Reply};

/// The mark of the CPU's last call, if it has made one.
fn last_mark(marks: &[Mark], cpu: CpuNo) -> Option<&Mark>
    ensures { option_map (λ (mark : Bor Finished). mark.now) result
        ≡ last_or None (filter (is_mark_of cpu.0) marks.now) }
{
    let mut at = marks.len();
    while at > 0 {
        at -= 1;
        let mark = &marks[at];
        if mark.cpu == cpu {
            return Some(mark);
        }
    }
    None
}

/// The reply to the CPU's last call, if it has made one.
pub(crate) fn last_reply(marks: &[Mark], cpu: CpuNo) -> Option<&Reply>
    ensures { told result
        ≡ option_map (λ (mark : Finished). mark.reply)
        (last_or None (filter (is_mark_of cpu.0) marks.now)) }
{
    match last_mark(marks, cpu) {
        None => None,
        Some(mark) => Some(&mark.reply),
    }
}
