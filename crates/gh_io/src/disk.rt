//! The calls of a system that files are loaded by, and the front of a file as they give it.

ghost use Rattle.std.specs.Prelude.{◌≡◌, ◌<◌, ◌≤◌, ◌+◌};
ghost use Rattle.std.specs.Prelude.{ℕ, List, Option, Bool, false, length};
ghost use Rattle.std.specs.Prelude.{take, vec_len, IfOk, IfSome, OnOk, IsErrOf};
ghost use Rattle.std.specs.Io.KnownBytes.{prepend_known, IsAtEnd};
ghost use Rattle.gh_io.specs.Outside.{IsFront, bytes_told};

use crate::files::LoadErr;
use gh_base::NoMemory;
use std::alloc::Global;

/// Bytes that are read in order.
pub trait Reader {
    /// The bytes that are left, where they are told.
    ghost left: { Self → Option (List ℕ) };

    /// Where this is true no read fails.
    ghost is_sure: { Self → Bool };

    /// Puts the next bytes at the start of the buffer and answers how many; none only at the end.
    fn read(&mut self, buffer: &mut [u8]) -> Result<usize, LoadErr>
        requires { 0 < length buffer.old }
        ensures within { IfOk result (λ count. count ≤ length buffer.new) }
        ensures bytes { IfOk result
            (λ count. left self.old ≡ prepend_known (take count buffer.new) (left self.new)) }
        ensures end { IfOk result (λ count. count ≡ 0 → IsAtEnd (left self.new)) }
        ensures unsure { IsErrOf result LoadErr.Failed → is_sure self.old ≡ false }
        ensures sure { is_sure self.new ≡ is_sure self.old };
}

/// Files that are opened by name.
pub trait Disk {
    type File: Reader + Drop;

    /// The contents by name, where they are told; no bytes for a name that it doesn't hold.
    ghost contents: { Self → Option (List ℕ → List ℕ) };

    /// Where this is true no file fails to open, and none that is open fails.
    ghost is_sure: { Self → Bool };

    /// The file of this name, from its first byte on.
    fn open(&self, name: &str) -> Result<Self::File, LoadErr>
        ensures bytes { IfOk result
            (λ file. Self.File.left file ≡ bytes_told (contents self.now) name.now) }
        ensures sure { IfOk result (λ file. Self.File.is_sure file ≡ is_sure self.now) }
        ensures unsure { IsErrOf result LoadErr.Failed → is_sure self.now ≡ false };
}

/// The bytes that one read asks for at most.
const CHUNK: usize = 65_536;

/// So many zeros.
fn zeros(alloc: Global, count: usize) -> Result<Vec<u8>, NoMemory>
    ensures { IfOk result (λ zeros. vec_len zeros ≡ count) }
{
    Ok(vec![in alloc; 0; count]?)
}

/// Reads some of the bytes that are missing, and answers how many; none only at the end.
#[tactic(auto, using(crate::proofs::Reading::moved_on))]
fn read_more<R: Reader>(
    reader: &mut R,
    chunk: &mut [u8],
    bytes: &mut Vec<u8>,
    max: usize,
) -> Result<usize, LoadErr>
    requires some { 0 < length chunk.old }
    requires room { vec_len bytes.old < max }
    ensures bound { vec_len bytes.new ≤ max }
    ensures grew { IfOk result (λ count. vec_len bytes.new ≡ vec_len bytes.old + count) }
    ensures left { OnOk result (prepend_known bytes.new.items (R.left reader.new)
        ≡ prepend_known bytes.old.items (R.left reader.old)) }
    ensures end { IfOk result (λ count. count ≡ 0 → IsAtEnd (R.left reader.new)) }
    ensures unsure { IsErrOf result LoadErr.Failed → R.is_sure reader.old ≡ false }
    ensures sure { R.is_sure reader.new ≡ R.is_sure reader.old }
    ensures chunk { length chunk.new ≡ length chunk.old }
{
    let most = chunk.len().min(max - bytes.len());
    let count = reader.read(&mut chunk[..most])?;
    bytes.extend_from_slice(&chunk[..count])?;
    Ok(count)
}

/// Reads by a chunk at a time.
#[tactic(auto, using(crate::proofs::Reading::whole_front, crate::proofs::Reading::full_front))]
fn read_by_chunks<R: Reader>(
    alloc: Global,
    reader: &mut R,
    chunk: &mut [u8],
    max: usize,
) -> Result<Vec<u8>, LoadErr>
    requires { 0 < length chunk.old }
    ensures bytes { IfOk result
        (λ bytes. IfSome (R.left reader.old) (λ left. bytes.items ≡ take max left)) }
    ensures bound { IfOk result (λ bytes. vec_len bytes ≤ max) }
    ensures rest { IfOk result
        (λ bytes. prepend_known bytes.items (R.left reader.new) ≡ R.left reader.old) }
    ensures unsure { IsErrOf result LoadErr.Failed → R.is_sure reader.old ≡ false }
{
    let mut bytes = Vec::new(alloc);
    while bytes.len() < max {
        if read_more(reader, chunk, &mut bytes, max)? == 0 {
            return Ok(bytes);
        }
    }
    Ok(bytes)
}

/// The first `max` bytes that a reader has left, or all of them where there are fewer. No more of
/// it is read. An error of a read is told, wherever it comes.
pub(crate) fn read_front<R: Reader>(
    alloc: Global,
    reader: &mut R,
    max: usize,
) -> Result<Vec<u8>, LoadErr>
    ensures bytes { IfOk result
        (λ bytes. IfSome (R.left reader.old) (λ left. bytes.items ≡ take max left)) }
    ensures bound { IfOk result (λ bytes. vec_len bytes ≤ max) }
    ensures rest { IfOk result
        (λ bytes. prepend_known bytes.items (R.left reader.new) ≡ R.left reader.old) }
    ensures unsure { IsErrOf result LoadErr.Failed → R.is_sure reader.old ≡ false }
{
    let mut chunk = zeros(alloc, CHUNK)?;
    read_by_chunks(alloc, reader, chunk.as_mut_slice(), max)
}

/// The first `max` bytes of the file of this name, or all of them where there are fewer.
pub(crate) fn read_file<D: Disk>(
    alloc: Global,
    disk: &D,
    name: &str,
    max: usize,
) -> Result<Vec<u8>, LoadErr>
    ensures bytes { IfOk result
        (λ bytes. IsFront (D.contents disk.now) name.now max bytes.items) }
    ensures bound { IfOk result (λ bytes. vec_len bytes ≤ max) }
    ensures unsure { IsErrOf result LoadErr.Failed → D.is_sure disk.now ≡ false }
{
    let mut file = disk.open(name)?;
    read_front(alloc, &mut file, max)
}
