//! What holds of the run of every boot file, schedule and call files.

ghost use Rattle.std.specs.Prelude.{◌≡◌, false};
ghost use Rattle.gh_driver.specs.FileRun.{file_run};
ghost use Rattle.gh_model.specs.Boot.{has_manager};
ghost use Rattle.gh_model.specs.Run.{IsRun, file_frames};

use gh_base::{CpuNo, Sequence};
use gh_model::{Boot, Line};

/// The run of a boot file without a resource manager, by whatever schedule, is a legal history,
/// graced, and each CPU's calls are those of its VM's call file. The function does nothing; its
/// clause is the law.
pub fn file_run_is_legal(boot: &Boot, schedule: &[CpuNo], files: &[Sequence<Line>])
    ensures { has_manager boot.now ≡ false
        → IsRun boot.now (file_frames files.now)
        (file_run boot.now schedule.now files.now).entries
        (file_run boot.now schedule.now files.now).marks
        (file_run boot.now schedule.now files.now).state }
{
    let _lines = boot.lines();
    let _ = schedule;
    let _ = files;
}
