//! The items of a call outside its act.

ghost use Rattle.std.specs.Prelude.{◌≡◌, ◌<◌, true, Ok};
ghost use Rattle.gh_base.specs.declared.limits.TheConstants.{CPUS};
ghost use Rattle.gh_events.specs.CallEvents.{entered, has_needs};
ghost use Rattle.gh_events.specs.Calls.{HasCalls};
ghost use Rattle.gh_events.specs.Config.{Config};
ghost use Rattle.gh_core.specs.Running.{given_of};
ghost use Rattle.gh_events.specs.Start.{MayGive, given as given_next};
ghost use Rattle.gh_items.specs.Stands.{Stands, begun_call};
ghost use Rattle.gh_model.specs.Registers.{call_of};

use crate::progress::{Progress, put_call, seat_of};
use gh_base::{BoundedSequence, CpuNo};
use gh_core::{CallStage, CurrentCall, GivenCall};

/// A call at its begin.
fn begun(given: GivenCall, section: u64) -> CurrentCall
    ensures { result ≡ begun_call given section }
{
    CurrentCall {
        given,
        section,
        seen: BoundedSequence::new(),
        stage: CallStage::Reading,
    }
}

/// The CPU is given its next call, and opens its section.
pub(crate) fn enter(progress: &mut Progress, cpu: CpuNo, given: GivenCall)
    ghost conf: { Config }
    requires stands { Stands progress.old conf }
    requires calls { HasCalls conf }
    requires within { cpu.0 < CPUS }
    requires may { MayGive conf cpu.0 given.number }
    requires of_frame { call_of given.frame ≡ Ok given.call }
    requires looks { has_needs (given_of given) ≡ true }
    ensures stands { Stands progress.new
        (entered (given_next conf cpu.0 given.number given.frame) cpu.0) }
    ensures marks { progress.new.marks ≡ progress.old.marks }
{
    let seat = seat_of(progress, cpu);
    let call = begun(given, 2 * seat.sections as u64 + 1);
    put_call(progress, cpu, call);
}
