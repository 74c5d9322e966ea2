//! The trusted edge: a real file and standard output, by one call of std each. Nothing is told of
//! what they hold or take.

ghost use Rattle.std.specs.Prelude.{◌≡◌, ◌≢◌, None, false};
ghost use Rattle.std.specs.IoError.{error_kind};

use crate::disk::{Disk, Reader};
use crate::files::LoadErr;
use crate::sink::PutErr;
use crate::writer::Writer;
use std::fs::File;
use std::io::ErrorKind;
use std::{fs, io};

/// What a load answers at an error of the system.
fn load_error(error: io::Error) -> LoadErr
    ensures memory { error_kind error ≡ ErrorKind.OutOfMemory → result ≡ LoadErr.NoMemory }
    ensures fault { error_kind error ≢ ErrorKind.OutOfMemory → result ≡ LoadErr.Failed }
{
    if error.kind() == ErrorKind::OutOfMemory {
        LoadErr::NoMemory
    } else {
        LoadErr::Failed
    }
}

/// What a put answers at an error of the system.
fn put_error(error: io::Error) -> PutErr
    ensures memory { error_kind error ≡ ErrorKind.OutOfMemory → result ≡ PutErr.NoMemory }
    ensures fault { error_kind error ≢ ErrorKind.OutOfMemory → result ≡ PutErr.Failed }
{
    if error.kind() == ErrorKind::OutOfMemory {
        PutErr::NoMemory
    } else {
        PutErr::Failed
    }
}

/// A file that is open.
#[derive(Drop)]
pub struct SystemFile<F> {
    file: F,
}

impl<F: io::Read> Reader for SystemFile<F> {
    ghost left = { λ _. None };

    ghost is_sure = { λ _. false };

    fn read(&mut self, buffer: &mut [u8]) -> Result<usize, LoadErr> {
        self.file.read(buffer).map_err(load_error)
    }
}

/// The system's files, by their paths.
#[derive(Drop)]
pub struct SystemDisk<'a, R> {
    pub(crate) rt: &'a R,
}

impl<'a, R: fs::Files> Disk for SystemDisk<'a, R> {
    type File = SystemFile<R::File>;

    ghost contents = { λ _. None };

    ghost is_sure = { λ _. false };

    fn open(&self, name: &str) -> Result<SystemFile<R::File>, LoadErr> {
        let file = File::open(self.rt, name).map_err(load_error)?;
        Ok(SystemFile { file })
    }
}

/// Standard output.
#[derive(Drop)]
pub struct StandardOutput<'a, R> {
    pub(crate) rt: &'a R,
}

impl<'a, R: Print> Writer for StandardOutput<'a, R> {
    ghost taken = { λ _. None };

    ghost is_sure = { λ _. false };

    fn write(&mut self, piece: &[u8]) -> Result<usize, PutErr> {
        self.rt.write_some(piece).map_err(put_error)
    }
}
