//! The changes of boot lines that attach a CPU, link a VM or fill a slot.

ghost use Rattle.std.specs.Prelude.{◌≡◌, ◌+◌, ◌*◌, ◌<◌, ◌≤◌, ◌∷◌, [], false, true, IfOk};
ghost use Rattle.gh_base.specs.declared.limits.TheConstants.{VMS};
ghost use Rattle.gh_invariant.specs.Valid.{IsValidWithin};
ghost use Rattle.gh_model.specs.Boot.{boot_capability, boot_cpu, changes_of_line, kind_at};
ghost use Rattle.gh_model.specs.Boot.{makes_cpu, manager_cspace as manager_cspace_of};
ghost use Rattle.gh_model.specs.Boot.{vm_count as vm_count_of};
ghost use Rattle.gh_model.specs.declared.change.Change.TheVariants.{AddCpu, AddLink, FillSlot};
ghost use Rattle.gh_model.specs.declared.state.State.{State};
ghost use Rattle.gh_parts.specs.BootLines.{ComesNext};
ghost use Rattle.gh_parts.specs.Stands.{Stands};

use crate::parts::Parts;
use gh_base::{CpuNo, Kind, NoMemory, Rights, Sequence, Serial};
use gh_model::{BootLine, CapabilityRow, Change, CpuRow, LinkRow, manager_cspace, vm_count};
use std::alloc::Global;

impl Parts {
    /// The kind of an object; a partition where there is none.
    fn kind_of(&self, object: Serial) -> Kind
        ghost s: { State }
        requires stands { Stands self.now s }
        requires valid { IsValidWithin s }
        ensures { result ≡ kind_at s object.0 }
    {
        match self.object(object) {
            None => Kind::Partition,
            Some(row) => row.kind,
        }
    }

    /// A valid capability without a master mark.
    fn plain_capability(
        &self,
        cspace: Serial,
        slot: u8,
        object: Serial,
        rights: Rights,
    ) -> CapabilityRow
        ghost s: { State }
        requires stands { Stands self.now s }
        requires valid { IsValidWithin s }
        ensures { result ≡ boot_capability s cspace.0 slot object.0 rights.0 false }
    {
        CapabilityRow {
            cspace,
            slot,
            serial: object,
            kind: self.kind_of(object),
            rights,
            master: false,
            valid: true,
        }
    }

    /// A capability, with a master mark or without.
    pub(crate) fn new_capability(
        &self,
        cspace: Serial,
        slot: u8,
        object: Serial,
        rights: Rights,
        master: bool,
    ) -> CapabilityRow
        ghost s: { State }
        requires stands { Stands self.now s }
        requires valid { IsValidWithin s }
        ensures { result ≡ boot_capability s cspace.0 slot object.0 rights.0 master }
    {
        CapabilityRow {
            master,
            ..self.plain_capability(cspace, slot, object, rights)
        }
    }

    /// The next VM's CPU.
    fn new_vm(&self, cspace: Serial, space: Serial) -> CpuRow
        ghost s: { State }
        requires stands { Stands self.now s }
        requires few { vm_count_of s < VMS }
        ensures { result ≡ boot_cpu (vm_count_of s + 1) cspace space }
    {
        let vm = vm_count(self.journal.cpus.as_slice()) as u8 + 1;
        CpuRow {
            cpu: CpuNo(vm),
            cspace,
            space,
            exited: false,
        }
    }

    /// The resource manager's CPU, and its capability of a partition.
    fn new_manager(
        &self,
        alloc: Global,
        cspace: Serial,
        space: Serial,
        partition: Serial,
    ) -> Result<Sequence<Change>, NoMemory>
        ghost s: { State }
        requires stands { Stands self.now s }
        requires valid { IsValidWithin s }
        ensures { IfOk result (λ changes. changes
            ≡ AddCpu (boot_cpu 0 cspace space)
            ∷ FillSlot (boot_capability s cspace.0 1 partition.0 128 false) ∷ []) }
    {
        let row = CpuRow {
            cpu: CpuNo(0),
            cspace,
            space,
            exited: false,
        };
        let slot = Change::FillSlot {
            row: self.plain_capability(cspace, 1, partition, Rights::RESOURCE_MANAGER),
        };
        let changes = vec![in alloc; Change::AddCpu { row }, slot]?;
        Ok(Sequence::from_vec(changes))
    }

    /// A VM's link, and the resource manager's capabilities of its queues.
    fn new_link(&self, alloc: Global, row: LinkRow) -> Result<Sequence<Change>, NoMemory>
        ghost s: { State }
        requires stands { Stands self.now s }
        requires valid { IsValidWithin s }
        requires few { row.vm.0 ≤ VMS }
        ensures { IfOk result (λ changes. changes
            ≡ FillSlot (boot_capability s (manager_cspace_of s)
            (2 * row.vm.0) row.request.0 2 false)
            ∷ FillSlot (boot_capability s (manager_cspace_of s)
            (2 * row.vm.0 + 1) row.reply.0 1 false)
            ∷ AddLink row ∷ []) }
    {
        let cspace = manager_cspace(self.journal.cpus.as_slice());
        let slot = 2 * row.vm.0;
        let request = Change::FillSlot {
            row: self.plain_capability(cspace, slot, row.request, Rights::RECEIVE),
        };
        let reply = Change::FillSlot {
            row: self.plain_capability(cspace, slot + 1, row.reply, Rights::SEND),
        };
        let changes = vec![in alloc; request, reply, Change::AddLink { row }]?;
        Ok(Sequence::from_vec(changes))
    }

    /// The changes of a line that attaches or links.
    pub(crate) fn cpu_line(
        &self,
        alloc: Global,
        line: BootLine,
    ) -> Result<Sequence<Change>, NoMemory>
        ghost s: { State }
        requires attaches { makes_cpu line ≡ true }
        requires stands { Stands self.now s }
        requires valid { IsValidWithin s }
        requires next { ComesNext s line }
        ensures { IfOk result (λ changes. changes ≡ changes_of_line s line) }
    {
        match line {
            BootLine::Vm { cspace, space } => {
                let row = self.new_vm(cspace, space);
                let changes = vec![in alloc; Change::AddCpu { row }]?;
                Ok(Sequence::from_vec(changes))
            }
            BootLine::Rm {
                cspace,
                space,
                partition,
            } => self.new_manager(alloc, cspace, space, partition),
            BootLine::Link {
                vm,
                extent,
                request,
                reply,
            } => {
                let row = LinkRow {
                    vm,
                    extent,
                    request,
                    reply,
                };
                self.new_link(alloc, row)
            }
            _ => unreachable!(),
        }
    }
}
