//! Changes of CPUs and of the resource manager's bell.

ghost use Rattle.std.specs.Prelude.{◌≡◌, ◌<◌, ◌++◌, ◌∷◌, [], OnErr, OnOk, find, position};
ghost use Rattle.gh_model.specs.Changes.{add_cpu, as_exited, exit_cpu, ring};
ghost use Rattle.gh_model.specs.Rows.{change_row, is_cpu};
ghost use Rattle.gh_model.specs.declared.change.Change.TheVariants.{AddCpu, Exit};
ghost use Rattle.gh_model.specs.declared.state.State.{State};
ghost use Rattle.gh_parts.specs.Making.{CanMake};
ghost use Rattle.gh_parts.specs.NumberChanges.{with_cpus};
ghost use Rattle.gh_parts.specs.Stands.{Stands};

use crate::parts::Parts;
use gh_base::{CpuNo, NoMemory, Sequence};
use gh_model::CpuRow;

/// The place of a CPU's row.
fn cpu_place(cpus: &[CpuRow], cpu: CpuNo) -> Option<usize>
    ensures { result ≡ position (is_cpu cpu.0) cpus.now }
{
    cpus.iter().position(|row| row.cpu == cpu)
}

/// The row of a CPU.
pub(crate) fn cpu_row(cpus: &[CpuRow], cpu: CpuNo) -> Option<CpuRow>
    ensures { result ≡ find (is_cpu cpu.0) cpus.now }
{
    cpus.iter().copied().find(|row| row.cpu == cpu)
}

/// Marks a CPU's row as exited.
fn mark_exited(cpus: &mut Sequence<CpuRow>, cpu: CpuNo)
    ensures { cpus.new ≡ change_row (is_cpu cpu.0) as_exited cpus.old }
{
    if let Some(at) = cpu_place(cpus.as_slice(), cpu) {
        let row = cpus.as_slice()[at];
        cpus.set(
            at,
            CpuRow {
                exited: true,
                ..row
            },
        );
    }
}

impl Parts {
    /// Marks a CPU as exited.
    fn mark_exit(&mut self, cpu: CpuNo)
        ensures { self.new ≡ with_cpus (change_row (is_cpu cpu.0) as_exited self.old.journal.cpus)
            self.old }
    {
        mark_exited(&mut self.journal.cpus, cpu);
    }

    /// A CPU has exited.
    pub fn exit(&mut self, cpu: CpuNo)
        ghost s: { State }
        requires { CanMake self.old s (Exit cpu) }
        ensures { Stands self.new (exit_cpu cpu.0 s) }
    {
        let row = cpu_row(self.journal.cpus.as_slice(), cpu);
        self.mark_exit(cpu);
        if let Some(row) = row {
            if !row.exited {
                self.settle(row.cspace);
                self.settle(row.space);
            }
        }
    }

    /// Puts a CPU's row last.
    fn push_cpu(&mut self, row: CpuRow) -> Result<(), NoMemory>
        ensures ok { OnOk result
            (self.new ≡ with_cpus (self.old.journal.cpus ++ row ∷ []) self.old) }
        ensures err { OnErr result (self.new ≡ self.old) }
    {
        self.journal.cpus.push(row)?;
        Ok(())
    }

    /// A CPU is attached to its capability space and its address space.
    pub fn add_cpu(&mut self, row: CpuRow) -> Result<(), NoMemory>
        ghost s: { State }
        requires { CanMake self.old s (AddCpu row) }
        ensures ok { OnOk result (Stands self.new (add_cpu row s)) }
        ensures err { OnErr result (self.new ≡ self.old) }
    {
        self.push_cpu(row)?;
        self.owe(row.space);
        self.owe(row.cspace);
        Ok(())
    }

    /// The resource manager's bell rings.
    pub fn ring(&mut self)
        ghost s: { State }
        requires stands { Stands self.old s }
        requires few { s.rings < u32.MAX }
        ensures { Stands self.new (ring s) }
    {
        self.journal.rings += 1;
    }
}
