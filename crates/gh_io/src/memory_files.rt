//! Files over memory, which tell their contents.

ghost use Rattle.std.specs.Prelude.{◌≡◌, ◌≤◌, [], ◌∷◌, ◌++◌, take};
ghost use Rattle.std.specs.Prelude.{IfOk, IfErr, OnOk, OnErr, IsErrOf, Some, true, false};
ghost use Rattle.std.specs.Option.{option_copied, option_map};
ghost use Rattle.gh_io.specs.Memory.{bytes_under, contents_of};
ghost use Rattle.gh_io.specs.Outside.{request};

use crate::fault_plan::FaultPlan;
use crate::files::{Files, LoadErr, Request};
use crate::requests::note_request;
use gh_base::{NoMemory, Sequence};
use std::alloc::Global;
use std::marker::Model;

/// Files over memory, some of whose loads fail.
#[derive(Debug, Drop)]
pub struct MemFiles {
    entries: Vec<(String, Vec<u8>)>,
    asked: Sequence<Request>,
    plan: FaultPlan,
}

impl Model for MemFiles {
    ghost use Rattle.gh_io.specs.Memory.{FilesInMemory};

    ghost Value = { FilesInMemory };

    ghost view = { λ f. record { entries = f.entries.items; asked = f.asked; plan = f.plan } };
}

/// Files over memory that never fail. A name that they don't hold is an empty file.
#[derive(Debug, Drop)]
pub struct SureFiles {
    entries: Vec<(String, Vec<u8>)>,
    asked: Sequence<Request>,
}

impl Model for SureFiles {
    ghost use Rattle.gh_io.specs.Memory.{SureFilesInMemory};

    ghost Value = { SureFilesInMemory };

    ghost view = { λ f. record { entries = f.entries.items; asked = f.asked } };
}

/// The bytes under a name; none where no entry has it.
fn bytes_under<'a>(entries: &'a [(String, Vec<u8>)], name: &str) -> Option<&'a [u8]>
    ensures { option_copied result ≡ bytes_under entries.now name.now }
{
    entries
        .iter()
        .find(|entry| entry.0.as_str() == name)
        .map(|entry| entry.1.as_slice())
}

/// A copy of the first `max` bytes.
fn copy_front(alloc: Global, bytes: &[u8], max: usize) -> Result<Vec<u8>, NoMemory>
    ensures { IfOk result (λ front. front.items ≡ take max bytes.now) }
{
    let front = if max < bytes.len() {
        &bytes[..max]
    } else {
        bytes
    };
    Ok(Vec::from_slice(alloc, front)?)
}

impl MemFiles {
    ghost use Rattle.gh_io.specs.Memory.{plan_of, next_bytes};

    /// Fails the loads whose number, from 1, stands in `failing`, and those of a name that no entry
    /// has. Of two entries with one name the first counts.
    pub fn new(entries: Vec<(String, Vec<u8>)>, failing: Vec<u64>) -> MemFiles
        ensures { result ≡ record {
          entries = entries.items;
          asked = [];
          plan = plan_of failing.items;
        } }
    {
        let alloc = *entries.allocator();
        MemFiles {
            entries,
            asked: Sequence::new(alloc),
            plan: FaultPlan::new(failing),
        }
    }

    /// What was asked for so far, oldest first.
    pub fn asked(&self) -> &[Request]
        ensures { result.now ≡ self.now.asked }
    {
        self.asked.as_slice()
    }

    /// The bytes that the next load of this name gives; none where it fails.
    fn next_bytes(&self, alloc: Global, name: &str, max: usize) -> Result<Option<Vec<u8>>, NoMemory>
        ensures { IfOk result
            (λ bytes. option_map (λ v. v.items) bytes ≡ next_bytes self.now name.now max) }
    {
        match bytes_under(self.entries.as_slice(), name) {
            Some(bytes) if !self.plan.fails_next() => Ok(Some(copy_front(alloc, bytes, max)?)),
            _ => Ok(None),
        }
    }
}

impl Files for MemFiles {
    ghost use Rattle.gh_io.specs.Memory.{load_fails, next_bytes, after_load};

    ghost faults = { λ files. files.plan.faults };

    ghost asked = { λ files. files.asked };

    ghost contents = { λ files. Some (contents_of files.entries) };

    ghost is_sure = { λ _. false };

    fn load(&mut self, alloc: Global, name: &str, max: usize) -> Result<Vec<u8>, LoadErr>
        ensures bytes { IfOk result
            (λ bytes. Some bytes.items ≡ next_bytes self.old name.now max) }
        ensures failed { IsErrOf result LoadErr.Failed → load_fails self.old name.now ≡ true }
        ensures after { self.new ≡ after_load self.old (request name.now max) result }
        ensures never_falls { self.old.plan.faults ≤ self.new.plan.faults }
    {
        let bytes = self.next_bytes(alloc, name, max)?;
        note_request(alloc, &mut self.asked, name, max)?;
        self.plan.count(bytes.is_none());
        bytes.ok_or(LoadErr::Failed)
    }
}

impl SureFiles {
    /// Of two entries with one name the first counts.
    pub fn new(entries: Vec<(String, Vec<u8>)>) -> SureFiles
        ensures { result ≡ record { entries = entries.items; asked = [] } }
    {
        let alloc = *entries.allocator();
        SureFiles {
            entries,
            asked: Sequence::new(alloc),
        }
    }

    /// What was asked for so far, oldest first.
    pub fn asked(&self) -> &[Request]
        ensures { result.now ≡ self.now.asked }
    {
        self.asked.as_slice()
    }
}

impl Files for SureFiles {
    ghost faults = { λ _. 0 };

    ghost asked = { λ files. files.asked };

    ghost contents = { λ files. Some (contents_of files.entries) };

    ghost is_sure = { λ _. true };

    fn load(&mut self, alloc: Global, name: &str, max: usize) -> Result<Vec<u8>, LoadErr>
        ensures bytes { IfOk result
            (λ bytes. bytes.items ≡ take max (contents_of self.old.entries name.now)) }
        ensures memory { IfErr result (λ e. e ≡ LoadErr.NoMemory) }
        ensures ok { OnOk result
            (self.new
            ≡ record self.old { asked = self.old.asked ++ request name.now max ∷ [] }) }
        ensures err { OnErr result (self.new ≡ self.old) }
    {
        let bytes = bytes_under(self.entries.as_slice(), name).unwrap_or(&[]);
        let front = copy_front(alloc, bytes, max)?;
        note_request(alloc, &mut self.asked, name, max)?;
        Ok(front)
    }
}
