//! Which CPUs and links fit.

ghost use Rattle.std.specs.Prelude.{◌≡◌, ◌==◌, ◌≤◌, ◌&&◌, true, is_some};
ghost use Rattle.std.specs.List.{list_any};
ghost use Rattle.gh_base.specs.declared.limits.TheConstants.{VMS};
ghost use Rattle.gh_model.specs.Boot.{is_attachment, is_linked_queue, is_small_queue, line_fits};
ghost use Rattle.gh_model.specs.Boot.{link_fits, may_attach, queues_may_link, vm_may_link};
ghost use Rattle.gh_model.specs.Fitting.{IsFitting};
ghost use Rattle.gh_model.specs.Rows.{cpu_row};
ghost use Rattle.gh_bootfile.specs.Draft.{is_cpu_line};

use crate::fits::{is_free_slot, is_kind};
use gh_base::{CpuNo, FRAGMENT_BYTES, Kind, Serial, VMS, VmId};
use gh_model::{BootLine, CpuRow, LinkRow, QueueRow, State, cpu_row, manager_cspace, vm_count};

/// Whether a CPU is attached to it.
fn is_attached(cpus: &[CpuRow], object: Serial) -> bool
    ensures { result ≡ list_any (is_attachment object.0) cpus.now }
{
    cpus.iter()
        .any(|row| row.cspace == object || row.space == object)
}

fn may_attach(state: &State, cspace: Serial, space: Serial) -> bool
    ensures { result ≡ may_attach state.now cspace.0 space.0 }
{
    is_kind(state, cspace, Kind::Cspace)
        && is_kind(state, space, Kind::Space)
        && !is_attached(state.cpus.as_slice(), cspace)
        && !is_attached(state.cpus.as_slice(), space)
}

/// Whether the CPU is there; only the resource manager's and those of eight VMs are.
#[tactic(auto, using(gh_model::proofs::FittingLemmas::cpu_small))]
fn has_cpu(state: &State, cpu: CpuNo) -> bool
    requires { IsFitting state.now }
    ensures there { result ≡ is_some (cpu_row state.now cpu.0) }
    ensures small { result ≡ true → cpu.0 ≤ VMS }
{
    cpu_row(state.cpus.as_slice(), cpu).is_some()
}

fn is_linked_vm(links: &[LinkRow], vm: VmId) -> bool
    ensures { result ≡ list_any (λ row. row.vm.0 == vm.0) links.now }
{
    links.iter().any(|row| row.vm == vm)
}

fn is_linked_queue(links: &[LinkRow], queue: Serial) -> bool
    ensures { result ≡ list_any (is_linked_queue queue.0) links.now }
{
    links
        .iter()
        .any(|row| row.request == queue || row.reply == queue)
}

fn is_small_queue(queues: &[QueueRow], queue: Serial) -> bool
    ensures { result ≡ list_any (is_small_queue queue.0) queues.now }
{
    queues.iter().any(|row| row.serial == queue && row.size as usize <= FRAGMENT_BYTES)
}

fn vm_may_link(state: &State, vm: VmId) -> bool
    requires { IsFitting state.now }
    ensures may { result ≡ vm_may_link state.now vm.0 }
    ensures small { result ≡ true → vm.0 ≤ VMS }
{
    has_cpu(state, CpuNo(0))
        && 0 < vm.0
        && has_cpu(state, CpuNo(vm.0))
        && !is_linked_vm(state.links.as_slice(), vm)
}

fn queues_may_link(state: &State, request: Serial, reply: Serial) -> bool
    ensures { result ≡ queues_may_link state.now request.0 reply.0 }
{
    is_kind(state, request, Kind::Queue)
        && is_kind(state, reply, Kind::Queue)
        && request != reply
        && !is_linked_queue(state.links.as_slice(), request)
        && !is_linked_queue(state.links.as_slice(), reply)
        && is_small_queue(state.queues.as_slice(), request)
}

/// Whether it is a line of a CPU or of its link, and fits.
pub(crate) fn cpu_fits(state: &State, line: &BootLine) -> bool
    requires { IsFitting state.now }
    ensures { result ≡ (is_cpu_line line.now && line_fits state.now line.now) }
{
    let cpus = state.cpus.as_slice();
    match *line {
        BootLine::Vm { cspace, space } => {
            may_attach(state, cspace, space) && vm_count(cpus) < VMS as usize
        }
        BootLine::Rm {
            cspace,
            space,
            partition,
        } => {
            cpu_row(cpus, CpuNo(0)).is_none()
                && may_attach(state, cspace, space)
                && is_free_slot(state, cspace, 1)
                && is_kind(state, partition, Kind::Partition)
        }
        BootLine::Link {
            vm,
            extent,
            request,
            reply,
        } => {
            vm_may_link(state, vm)
                && is_kind(state, extent, Kind::Extent)
                && queues_may_link(state, request, reply)
                && is_free_slot(state, manager_cspace(cpus), 2 * vm.0)
                && is_free_slot(state, manager_cspace(cpus), 2 * vm.0 + 1)
        }
        _ => false,
    }
}
