//! Loads and puts that are to fail, files of short reads, and the real edge: a file, a stream, and
//! streams that fail.

ghost use Rattle.std.specs.Prelude.{None, false};

use crate::outcome::holds;
use gh_base::{CpuNo, NoMemory};
use gh_io::{
    Disk, Files, Gate, HostFiles, HostSink, LoadErr, MemFiles, MemSink, NoGate, PutErr, Reader,
    Sink, SureFiles, SureSink,
};
use std::alloc::Global;
use std::fmt::Display;
use std::io::ErrorKind;
use std::{fs, io};

fn entry(alloc: Global, name: &str, text: &str) -> Result<(String, Vec<u8>), NoMemory> {
    let name = String::from_str(alloc, name)?;
    let bytes = Vec::from_slice(alloc, text.as_bytes())?;
    Ok((name, bytes))
}

/// Two files of one name and an empty one.
fn entries(alloc: Global) -> Result<Vec<(String, Vec<u8>)>, NoMemory> {
    let mut entries = Vec::new(alloc);
    entries.push(entry(alloc, "a", "first")?)?;
    entries.push(entry(alloc, "a", "second")?)?;
    entries.push(entry(alloc, "empty", "")?)?;
    Ok(entries)
}

/// Whether a load of at most so many bytes gives just this text.
fn loads<F: Files>(files: &mut F, alloc: Global, name: &str, max: usize, text: &str) -> bool {
    match files.load(alloc, name, max) {
        Ok(bytes) => bytes.as_slice() == text.as_bytes(),
        Err(_) => false,
    }
}

/// Whether a load of at most nine bytes fails, and not for want of memory.
fn load_fails<F: Files>(files: &mut F, alloc: Global, name: &str) -> bool {
    match files.load(alloc, name, 9) {
        Ok(_) => false,
        Err(fault) => fault == LoadErr::Failed,
    }
}

/// Whether the second load fails, and else what the first entry of the name has is loaded.
fn loads_as_planned(alloc: Global) -> Result<bool, NoMemory> {
    let mut files = MemFiles::new(entries(alloc)?, vec![in alloc; 2]?);
    Ok(
        loads(&mut files, alloc, "a", 3, "fir")
            && load_fails(&mut files, alloc, "a")
            && loads(&mut files, alloc, "a", 9, "first")
            && load_fails(&mut files, alloc, "absent")
            && loads(&mut files, alloc, "empty", 9, ""),
    )
}

#[test]
fn loads_fail_by_their_number_or_for_want_of_the_name(rt: HostRuntime) {
    assert!(rt; holds(loads_as_planned(rt.alloc())));
}

fn loads_surely(alloc: Global) -> Result<bool, NoMemory> {
    let mut files = SureFiles::new(entries(alloc)?);
    Ok(loads(&mut files, alloc, "a", 4, "firs") && loads(&mut files, alloc, "absent", 4, ""))
}

#[test]
fn a_name_that_sure_files_do_not_hold_is_an_empty_file(rt: HostRuntime) {
    assert!(rt; holds(loads_surely(rt.alloc())));
}

/// How many bytes of a piece that isn't empty a sink takes.
fn put<K: Sink>(sink: &mut K, alloc: Global, piece: &[u8]) -> Result<usize, PutErr> {
    if piece.is_empty() {
        Ok(0)
    } else {
        sink.put(alloc, piece)
    }
}

/// Whether a sink that takes five bytes of a piece and fails at the second answers so to three
/// pieces, and has the bytes that it took after the second and after the third.
fn puts_are_as_planned(alloc: Global) -> Result<bool, NoMemory> {
    let mut sink = MemSink::new(vec![in alloc; 2]?, 5);
    let first = put(&mut sink, alloc, b"history 4");
    let second = put(&mut sink, alloc, b"ry 4");
    let has_first = sink.bytes() == b"histo".as_slice();
    let third = put(&mut sink, alloc, b"ry 4");
    let has_all = sink.bytes() == b"history 4".as_slice();
    let answers = [first, second, third] == [Ok(5), Err(PutErr::Failed), Ok(4)];
    Ok(answers && has_first && has_all)
}

#[test]
fn puts_are_cut_and_fail_by_their_number(rt: HostRuntime) {
    assert!(rt; holds(puts_are_as_planned(rt.alloc())));
}

fn takes_pieces_whole(alloc: Global) -> bool {
    let mut sink = SureSink::new(alloc);
    let first = put(&mut sink, alloc, b"history ");
    let second = put(&mut sink, alloc, b"4");
    [first, second] == [Ok(8), Ok(1)] && sink.bytes() == b"history 4".as_slice()
}

#[test]
fn a_sure_sink_takes_each_piece_whole(rt: HostRuntime) {
    assert!(rt; takes_pieces_whole(rt.alloc()));
}

/// Whether a file of the text `gunyah 1` and a line's end gives its fronts.
fn loads_fronts<F: Files>(files: &mut F, alloc: Global, path: &str) -> bool {
    loads(files, alloc, path, 0, "")
        && loads(files, alloc, path, 6, "gunyah")
        && loads(files, alloc, path, 9, "gunyah 1\n")
        && loads(files, alloc, path, 100, "gunyah 1\n")
}

/// Whether an absent file, a folder and no name fail.
fn no_file_fails<F: Files>(files: &mut F, alloc: Global, path: &str) -> bool {
    load_fails(files, alloc, path) && load_fails(files, alloc, ".") && load_fails(files, alloc, "")
}

#[test]
fn a_real_file_gives_its_first_bytes(rt: HostRuntime) {
    let alloc = rt.alloc();
    let path = "real_file.tmp";
    let written = fs::write(&rt, path, "gunyah 1\n").is_ok();
    let mut files = HostFiles::new(&rt, alloc);
    let loaded = loads_fronts(&mut files, alloc, path);
    let removed = fs::remove_file(&rt, path).is_ok();
    let failed = no_file_fails(&mut files, alloc, path);
    assert!(rt; written && loaded && removed && failed);
}

/// A file of so many zeros that gives at most so many a read. Behind them is its end, or a fault.
#[derive(Clone, Copy, Debug)]
struct Zeros {
    left: usize,
    piece: usize,
    fault: Option<LoadErr>,
}

impl Reader for Zeros {
    ghost left = { λ _. None };

    ghost is_sure = { λ _. false };

    fn read(&mut self, buffer: &mut [u8]) -> Result<usize, LoadErr> {
        let count = self.left.min(self.piece).min(buffer.len());
        if count == 0 {
            if let Some(fault) = self.fault {
                return Err(fault);
            }
        }
        buffer[..count].fill(0);
        self.left -= count;
        Ok(count)
    }
}

impl Disk for Zeros {
    type File = Zeros;

    ghost contents = { λ _. None };

    ghost is_sure = { λ _. false };

    fn open(&self, name: &str) -> Result<Zeros, LoadErr> {
        if name == "zeros" {
            Ok(*self)
        } else {
            Err(LoadErr::Failed)
        }
    }
}

/// How many bytes a load of at most 80,000 gives.
fn count_of(zeros: Zeros, alloc: Global, name: &str) -> Result<usize, LoadErr> {
    let mut files = HostFiles::over(zeros, alloc);
    match files.load(alloc, name, 80_000) {
        Ok(bytes) => Ok(bytes.len()),
        Err(fault) => Err(fault),
    }
}

fn file_of(left: usize, piece: usize, fault: Option<LoadErr>) -> Zeros {
    Zeros { left, piece, fault }
}

/// Files with the name that is loaded, and how many bytes are.
fn short_files() -> [(Zeros, &'static str, Result<usize, LoadErr>); 6] {
    let failed = Err(LoadErr::Failed);
    let no_memory = Err(LoadErr::NoMemory);
    [
        (file_of(10, 3, None), "zeros", Ok(10)),
        (file_of(10, 3, Some(LoadErr::Failed)), "zeros", failed),
        (file_of(10, 3, Some(LoadErr::NoMemory)), "zeros", no_memory),
        (file_of(10, 3, None), " zeros", failed),
        (file_of(70_000, 70_000, None), "zeros", Ok(70_000)),
        (
            file_of(90_000, 4_096, Some(LoadErr::Failed)),
            "zeros",
            Ok(80_000),
        ),
    ]
}

fn short_files_are_loaded(alloc: Global) -> bool {
    let mut as_told = true;
    for (zeros, name, count) in short_files() {
        as_told = as_told && count_of(zeros, alloc, name) == count;
    }
    as_told
}

#[test]
fn short_reads_are_joined_and_a_fault_in_the_middle_is_told(rt: HostRuntime) {
    assert!(rt; short_files_are_loaded(rt.alloc()));
}

/// A stream that takes at most so many bytes at a time, or that fails.
#[derive(Clone, Copy, Debug)]
enum Stream {
    Takes(usize),
    Fails,
}

impl Print for Stream {
    fn print<D: Display + Drop>(&self, _value: D) -> io::Result<()> {
        Ok(())
    }

    fn println<D: Display + Drop>(&self, _value: D) -> io::Result<()> {
        Ok(())
    }

    fn write_all(&self, _bytes: &[u8]) -> io::Result<()> {
        Ok(())
    }

    fn write_some(&self, bytes: &[u8]) -> io::Result<usize> {
        match self {
            Stream::Takes(count) => Ok(bytes.len().min(*count)),
            Stream::Fails => Err(io::Error::from(ErrorKind::BrokenPipe)),
        }
    }
}

/// What a sink over a stream answers to a piece.
fn put_to<P: Print>(stream: &P, alloc: Global, piece: &[u8]) -> Result<usize, PutErr> {
    put(&mut HostSink::new(stream), alloc, piece)
}

/// Whether a stream that takes three bytes has them, and one that takes none or fails is a fault.
fn streams_are_told(alloc: Global) -> bool {
    let three = put_to(&Stream::Takes(3), alloc, b"history");
    let none = put_to(&Stream::Takes(0), alloc, b"history");
    let failed = put_to(&Stream::Fails, alloc, b"history");
    [three, none, failed] == [Ok(3), Err(PutErr::Failed), Err(PutErr::Failed)]
}

#[test]
fn a_stream_that_fails_or_takes_nothing_is_a_fault(rt: HostRuntime) {
    let alloc = rt.alloc();
    let real = put_to(&rt, alloc, b"a real stream\n") == Ok(14);
    assert!(rt; real && streams_are_told(alloc));
}

#[test]
fn nobody_is_held_at_no_gate() {
    fn pass<G: Gate + Sync>(gate: &G) {
        gate.pass(CpuNo(1), 1);
    }
    pass(&NoGate);
}
