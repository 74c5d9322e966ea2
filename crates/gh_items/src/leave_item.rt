//! The item of a call that ends where it leaves its section.

ghost use Rattle.std.specs.Prelude.{◌≡◌, ◌<◌, ◌⊎◌, OnOk, Some};
ghost use Rattle.gh_base.specs.declared.limits.TheConstants.{CPUS};
ghost use Rattle.gh_events.specs.CallEvents.{end_of_looks, reply_of_looks};
ghost use Rattle.gh_events.specs.Config.{Config, Failed, Undone, came_to};
ghost use Rattle.gh_schedules.specs.Items.{leave_ended};
ghost use Rattle.gh_core.specs.Running.{current_of, stage_of};
ghost use Rattle.gh_events.specs.Sound.{IsSound};
ghost use Rattle.gh_schedules.specs.Trace.{after_all};
ghost use Rattle.gh_items.specs.Calling.{AddsMark};
ghost use Rattle.gh_items.specs.Stands.{Stands, with_call};

use crate::end::end_call;
use crate::progress::{Progress, seat_of};
use gh_base::{CpuNo, End, NoMemory, Reply};
use gh_core::CurrentCall;

/// The call, which was refused or whose pin came too late, leaves its section. That ends it, and
/// its pins are dropped.
pub(crate) fn leave_ended(
    progress: &mut Progress,
    cpu: CpuNo,
    call: &CurrentCall,
    end: End,
    reply: Reply,
) -> Result<(), NoMemory>
    ghost conf: { Config }
    requires stands { Stands (with_call progress.old cpu.0 (Some call.now)) conf }
    requires sound { IsSound conf }
    requires within { cpu.0 < CPUS }
    requires ended { (stage_of call.now.stage ≡ Undone) ⊎ (stage_of call.now.stage ≡ Failed) }
    requires its_end { end ≡ end_of_looks (came_to (current_of call.now)) }
    requires its_reply { reply ≡ reply_of_looks (came_to (current_of call.now)) }
    ensures stands { OnOk result
        (Stands progress.new (after_all conf (leave_ended cpu.0 conf))) }
    ensures marks { OnOk result (AddsMark progress.old.marks progress.new.marks) }
{
    let seat = seat_of(progress, cpu);
    end_call(progress, cpu, seat, call, end, reply)
}
