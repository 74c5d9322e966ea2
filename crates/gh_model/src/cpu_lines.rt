//! The changes of boot lines that attach a CPU or link a VM.

ghost use Rattle.std.specs.Prelude.{◌≡◌, ◌+◌, ◌*◌, ◌<◌, ◌≤◌, ◌∷◌, [], true, false, IsTrue, IfOk};
ghost use Rattle.gh_base.specs.declared.limits.TheConstants.{VMS};
ghost use Rattle.gh_model.specs.Boot.{boot_capability, boot_cpu, changes_of_line, line_fits, makes_cpu, manager_cspace as manager_cspace_of, vm_count as vm_count_of};
ghost use Rattle.gh_model.specs.Fitting.{IsFitting};
ghost use Rattle.gh_model.specs.declared.change.Change.TheVariants.{AddCpu, AddLink, FillSlot};

use crate::boot::{manager_cspace, vm_count};
use crate::boot_line::BootLine;
use crate::change::Change;
use crate::change_lists::{one, three, two};
use crate::rows::{CpuRow, LinkRow};
use crate::slot_lines::plain_capability;
use crate::state::State;
use gh_base::{CpuNo, NoMemory, Rights, Sequence, Serial};
use std::alloc::Global;

/// The resource manager's CPU, and its capability of a partition.
fn new_manager(
    alloc: Global,
    state: &State,
    cspace: Serial,
    space: Serial,
    partition: Serial,
) -> Result<Sequence<Change>, NoMemory>
    ensures { IfOk result (λ changes. changes
        ≡ AddCpu (boot_cpu 0 cspace space)
        ∷ FillSlot (boot_capability state.now cspace.0 1 partition.0 128 false) ∷ []) }
{
    let cpu = CpuRow {
        cpu: CpuNo(0),
        cspace,
        space,
        exited: false,
    };
    let row = plain_capability(state, cspace, 1, partition, Rights::RESOURCE_MANAGER);
    two(alloc, Change::AddCpu { row: cpu }, Change::FillSlot { row })
}

/// The next VM's CPU.
fn new_vm(state: &State, cspace: Serial, space: Serial) -> CpuRow
    requires { vm_count_of state.now < VMS }
    ensures { result ≡ boot_cpu (vm_count_of state.now + 1) cspace space }
{
    let vm = vm_count(state.cpus.as_slice()) as u8 + 1;
    CpuRow {
        cpu: CpuNo(vm),
        cspace,
        space,
        exited: false,
    }
}

/// A VM's link, and the resource manager's capabilities of its queues.
fn new_link(alloc: Global, state: &State, row: LinkRow) -> Result<Sequence<Change>, NoMemory>
    requires { row.vm.0 ≤ VMS }
    ensures { IfOk result (λ changes. changes
        ≡ FillSlot (boot_capability state.now (manager_cspace_of state.now)
        (2 * row.vm.0) row.request.0 2 false)
        ∷ FillSlot (boot_capability state.now (manager_cspace_of state.now)
        (2 * row.vm.0 + 1) row.reply.0 1 false)
        ∷ AddLink row ∷ []) }
{
    let cspace = manager_cspace(state.cpus.as_slice());
    let slot = 2 * row.vm.0;
    let request = plain_capability(state, cspace, slot, row.request, Rights::RECEIVE);
    let reply = plain_capability(state, cspace, slot + 1, row.reply, Rights::SEND);
    three(
        alloc,
        Change::FillSlot { row: request },
        Change::FillSlot { row: reply },
        Change::AddLink { row },
    )
}

/// The changes of a line that attaches or links.
pub(crate) fn cpu_line(
    alloc: Global,
    state: &State,
    line: BootLine,
) -> Result<Sequence<Change>, NoMemory>
    requires attaches { makes_cpu line ≡ true }
    requires fits { IsTrue (line_fits state.now line) }
    requires fitting { IsFitting state.now }
    ensures { IfOk result (λ changes. changes ≡ changes_of_line state.now line) }
{
    match line {
        BootLine::Vm { cspace, space } => one(
            alloc,
            Change::AddCpu {
                row: new_vm(state, cspace, space),
            },
        ),
        BootLine::Rm {
            cspace,
            space,
            partition,
        } => new_manager(alloc, state, cspace, space, partition),
        BootLine::Link {
            vm,
            extent,
            request,
            reply,
        } => new_link(
            alloc,
            state,
            LinkRow {
                vm,
                extent,
                request,
                reply,
            },
        ),
        _ => unreachable!(),
    }
}
