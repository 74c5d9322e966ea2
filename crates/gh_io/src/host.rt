//! Files and a sink over a system's calls, which count its faults.

ghost use Rattle.std.specs.Prelude.{◌≡◌, ◌≤◌, [], IfOk, None, false, vec_len};

use crate::disk::{Disk, read_file};
use crate::files::{Files, LoadErr, Request};
use crate::requests::note_request;
use crate::sink::{PutErr, Sink};
use crate::system::{StandardOutput, SystemDisk};
use crate::writer::Writer;
use gh_base::Sequence;
use std::alloc::Global;
use std::fs;
use std::marker::Model;

/// Files of a disk, by default the system's, where names are paths. Each error of the disk but want
/// of memory counts as a fault.
#[derive(Drop)]
pub struct HostFiles<D> {
    disk: D,
    asked: Sequence<Request>,
    faults: u64,
}

impl<D> Model for HostFiles<D> {
    ghost use Rattle.gh_io.specs.Host.{FilesOf};

    ghost Value = { FilesOf D };

    ghost view = { λ f. record { disk = f.disk; asked = f.asked; faults = f.faults } };
}

impl<D> HostFiles<D> {
    /// No file is asked for yet.
    pub fn over(disk: D, alloc: Global) -> HostFiles<D>
        ensures { result ≡ record { disk = disk; asked = []; faults = 0 } }
    {
        HostFiles {
            disk,
            asked: Sequence::new(alloc),
            faults: 0,
        }
    }
}

impl<'a, R: fs::Files> HostFiles<SystemDisk<'a, R>> {
    /// The system's files.
    pub fn new(rt: &'a R, alloc: Global) -> HostFiles<SystemDisk<'a, R>>
        ensures asked { result.asked ≡ [] }
        ensures faults { result.faults ≡ 0 }
    {
        HostFiles::over(SystemDisk { rt }, alloc)
    }
}

impl<D: Disk> Files for HostFiles<D> {
    ghost faults = { λ files. files.faults };

    ghost asked = { λ files. files.asked };

    ghost contents = { λ files. D.contents files.disk };

    ghost is_sure = { λ files. D.is_sure files.disk };

    fn load(&mut self, alloc: Global, name: &str, max: usize) -> Result<Vec<u8>, LoadErr> {
        note_request(alloc, &mut self.asked, name, max)?;
        let loaded = read_file(alloc, &self.disk, name, max);
        if matches!(loaded, Err(LoadErr::Failed)) {
            self.faults = self.faults.saturating_add(1);
        }
        loaded
    }
}

/// A sink over a stream. Each error of the stream but want of memory counts as a fault, and so
/// does a write that takes nothing.
#[derive(Drop)]
pub struct HostSink<W> {
    writer: W,
    faults: u64,
}

impl<W> Model for HostSink<W> {
    ghost use Rattle.gh_io.specs.Host.{SinkOf};

    ghost Value = { SinkOf W };

    ghost view = { λ s. record { writer = s.writer; faults = s.faults } };
}

impl<W> HostSink<W> {
    pub fn over(writer: W) -> HostSink<W>
        ensures { result ≡ record { writer = writer; faults = 0 } }
    {
        HostSink { writer, faults: 0 }
    }
}

impl<'a, R: Print> HostSink<StandardOutput<'a, R>> {
    /// Standard output.
    pub fn new(rt: &'a R) -> HostSink<StandardOutput<'a, R>>
        ensures { result.faults ≡ 0 }
    {
        HostSink::over(StandardOutput { rt })
    }
}

impl<W: Writer> Sink for HostSink<W> {
    ghost faults = { λ sink. sink.faults };

    ghost taken = { λ sink. W.taken sink.writer };

    ghost is_sure = { λ sink. W.is_sure sink.writer };

    fn put(&mut self, _alloc: Global, piece: &[u8]) -> Result<usize, PutErr> {
        let put = match self.writer.write(piece) {
            Ok(0) => Err(PutErr::Failed),
            written => written,
        };
        if matches!(put, Err(PutErr::Failed)) {
            self.faults = self.faults.saturating_add(1);
        }
        put
    }
}
