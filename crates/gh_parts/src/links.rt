//! Changes of links.

ghost use Rattle.std.specs.Prelude.{◌≡◌, ◌++◌, ◌∷◌, [], OnErr, OnOk};
ghost use Rattle.gh_model.specs.Changes.{add_link};
ghost use Rattle.gh_model.specs.declared.change.Change.TheVariants.{AddLink};
ghost use Rattle.gh_model.specs.declared.state.State.{State};
ghost use Rattle.gh_parts.specs.Making.{CanMake};
ghost use Rattle.gh_parts.specs.NumberChanges.{with_links};
ghost use Rattle.gh_parts.specs.Stands.{Stands};

use crate::cpus::cpu_row;
use crate::parts::Parts;
use gh_base::{CpuNo, NoMemory};
use gh_model::LinkRow;

impl Parts {
    /// Puts a link's row last.
    fn push_link(&mut self, row: LinkRow) -> Result<(), NoMemory>
        ensures ok { OnOk result
            (self.new ≡ with_links (self.old.journal.links ++ row ∷ []) self.old) }
        ensures err { OnErr result (self.new ≡ self.old) }
    {
        self.journal.links.push(row)?;
        Ok(())
    }

    /// A VM is linked to the resource manager.
    pub fn add_link(&mut self, row: LinkRow) -> Result<(), NoMemory>
        ghost s: { State }
        requires { CanMake self.old s (AddLink row) }
        ensures ok { OnOk result (Stands self.new (add_link row s)) }
        ensures err { OnErr result (self.new ≡ self.old) }
    {
        let cpu = cpu_row(self.journal.cpus.as_slice(), CpuNo(row.vm.0));
        self.push_link(row)?;
        self.owe(row.reply);
        self.owe(row.request);
        self.owe(row.extent);
        if let Some(cpu) = cpu {
            self.owe(cpu.space);
        }
        Ok(())
    }
}
