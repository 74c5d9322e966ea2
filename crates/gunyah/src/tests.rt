//! The worked runs over files in memory, planned faults, and files with faults of their own.

ghost use Rattle.std.specs.Prelude.{None, true};

use crate::{Status, gunyah};
use gh_io::{Files, MemFiles, MemSink, NoGate, PutErr, Sink, SureFiles, SureSink};
use std::alloc::{AllocError, Global};
use std::marker::Sync;
use std::sync::Wait;
use std::test::Fail;
use std::thread::Threads;

// Whole texts stand behind functions without clauses, so that no proof reads them.

fn boot() -> &'static str {
    "gunyah 1\npages 8\npartition 40\ncspace 1\naddrspace 1\nrootextent 1\ndoorbell 1\n\
     cap 2 7 5 3 1\ncap 2 8 5 2 0\nvm 2 3\n"
}

fn calls() -> &'static str {
    "c6008000\nc6008012 7 5\nc6008012 7 2\n"
}

/// The history of these calls.
fn worked_text() -> &'static str {
    "history 4\n1 act 1 1\n2 act 1 2\n3 act 1 3\n4 act 1 4\ncalls 4\n\
     call 1 1 0 entry 1 = 8001 46 0 0\ncall 1 2 1 look 7 1 entry 2 = 0 0 0 0\n\
     call 1 3 3 look 7 2 entry 3 = 0 5 0 0\ncall 1 4 0 entry 4 = 0 0 0 0\n\
     state\nunits 1 11 29 0\nend\n"
}

/// The history of no calls but the exit call.
fn exit_text() -> &'static str {
    "history 1\n1 act 1 1\ncalls 1\ncall 1 1 0 entry 1 = 0 0 0 0\nstate\nunits 1 11 29 0\nend\n"
}

fn entry(alloc: Global, name: &str, text: &str) -> Result<(String, Vec<u8>), AllocError> {
    Ok((
        String::from_str(alloc, name)?,
        Vec::from_slice(alloc, text.as_bytes())?,
    ))
}

/// The three files of `step`.
fn entries(
    alloc: Global,
    boot: &str,
    schedule: &str,
    calls: &str,
) -> Result<Vec<(String, Vec<u8>)>, AllocError> {
    let mut entries = Vec::new(alloc);
    entries.push(entry(alloc, "boot", boot)?)?;
    entries.push(entry(alloc, "schedule", schedule)?)?;
    entries.push(entry(alloc, "vm1", calls)?)?;
    Ok(entries)
}

/// The status of the top call at these words.
fn status_of<R: Threads + Wait + Sync, F: Files, K: Sink>(
    rt: &R,
    alloc: Global,
    words: &[&str],
    files: &mut F,
    out: &mut K,
) -> Result<Status, AllocError> {
    let mut owned = Vec::new(alloc);
    for word in words {
        owned.push(String::from_str(alloc, word)?)?;
    }
    Ok(gunyah(rt, alloc, owned.as_slice(), files, out, &NoGate))
}

/// The status of `step` of the three files.
fn step<R: Threads + Wait + Sync, F: Files, K: Sink>(
    rt: &R,
    alloc: Global,
    files: &mut F,
    out: &mut K,
) -> Result<Status, AllocError> {
    status_of(rt, alloc, &["step", "boot", "schedule", "vm1"], files, out)
}

/// Whether the step of these files is done and writes this text.
fn writes<R: Threads + Wait + Sync>(
    rt: &R,
    alloc: Global,
    boot: &str,
    calls: &str,
    text: &str,
) -> Result<bool, AllocError> {
    let mut files = SureFiles::new(entries(alloc, boot, "", calls)?);
    let mut out = SureSink::new(alloc);
    let status = step(rt, alloc, &mut files, &mut out)?;
    Ok(status == Status::Done && out.bytes() == text.as_bytes())
}

#[test]
fn worked_runs_write_their_text(rt: HostRuntime) -> Result<(), Fail> {
    let alloc = rt.alloc();
    assert!(rt; writes(&rt, alloc, boot(), calls(), worked_text())?);
    assert!(rt; writes(&rt, alloc, boot(), "", exit_text())?);
    Ok(())
}

#[test]
fn a_put_that_fails_is_told_and_leaves_a_front_part(rt: HostRuntime) -> Result<(), Fail> {
    let alloc = rt.alloc();
    let mut files = SureFiles::new(entries(alloc, boot(), "", calls())?);
    let mut out = MemSink::new(vec![in alloc; 2]?, 5);
    assert_eq!(rt; step(&rt, alloc, &mut files, &mut out)?, Status::WriteFault);
    assert_eq!(rt; out.bytes(), b"histo".as_slice());
    Ok(())
}

/// Whether these words end so and nothing is written, after just these files were asked for, each
/// with its limit and one byte more. There are the files of `step`, and one of a byte too many.
fn asks<R: Threads + Wait + Sync>(
    rt: &R,
    alloc: Global,
    words: &[&str],
    failing: &[u64],
    status: Status,
    names: &[&str],
) -> Result<bool, AllocError> {
    let mut entries = entries(alloc, boot(), "", "")?;
    entries.push((
        String::from_str(alloc, "large")?,
        vec![in alloc; b'0'; 8_388_609]?,
    ))?;
    let mut files = MemFiles::new(entries, Vec::from_slice(alloc, failing)?);
    let mut out = SureSink::new(alloc);
    let ended = status_of(rt, alloc, words, &mut files, &mut out)?;
    let asked = files.asked();
    let mut as_named = asked.len() == names.len();
    for (request, name) in asked.iter().zip(names) {
        as_named = as_named
            && request.most == 8_388_609
            && request.name.as_slice() == name.as_bytes();
    }
    Ok(ended == status && out.bytes().is_empty() && as_named)
}

#[test]
fn no_file_is_asked_for_by_words_of_no_form(rt: HostRuntime) -> Result<(), Fail> {
    let alloc = rt.alloc();
    let nine = [
        "step", "boot", "schedule", "1", "2", "3", "4", "5", "6", "7", "8", "9",
    ];
    for words in [
        [].as_slice(),
        &["step", "boot"],
        &["run", "boot", "vm1", "vm1"],
        &["check", "boot", "vm1", "vm1"],
        &["gen", "1", "1", "1"],
        &nine,
    ] {
        assert!(rt; asks(&rt, alloc, words, &[], Status::Usage, &[])?);
    }
    Ok(())
}

#[test]
fn files_are_asked_for_in_order_up_to_the_first_fault(rt: HostRuntime) -> Result<(), Fail> {
    let alloc = rt.alloc();
    for (words, failing, status, names) in [
        (
            ["step", "boot", "schedule", "vm1", "vm1"].as_slice(),
            [].as_slice(),
            Status::BadCalls(4, 0),
            4,
        ),
        (
            &["step", "boot", "schedule", "vm1"],
            &[2],
            Status::ReadFault,
            2,
        ),
        (
            &["step", "boot", "missing", "large"],
            &[],
            Status::ReadFault,
            2,
        ),
        (
            &["step", "large", "missing", "vm1"],
            &[],
            Status::TooLarge(1),
            1,
        ),
        (
            &["step", "boot", "schedule", "large", "missing"],
            &[],
            Status::TooLarge(3),
            3,
        ),
    ] {
        let names = &words[words.len().min(1)..words.len().min(1 + names)];
        assert!(rt;
            asks(&rt, alloc, words, failing, status, names)?,
            "{status}"
        );
    }
    Ok(())
}

/// Whether the step of these files ends so and writes nothing.
fn is_refused<R: Threads + Wait + Sync>(
    rt: &R,
    alloc: Global,
    boot: &str,
    schedule: &str,
    calls: &str,
    status: Status,
) -> Result<bool, AllocError> {
    let mut files = SureFiles::new(entries(alloc, boot, schedule, calls)?);
    let mut out = SureSink::new(alloc);
    let ended = step(rt, alloc, &mut files, &mut out)?;
    Ok(ended == status && out.bytes().is_empty())
}

#[test]
fn faulty_files_are_told_by_their_place(rt: HostRuntime) -> Result<(), Fail> {
    let alloc = rt.alloc();
    let no_pages = "gunyah 1\npages 0\n";
    assert!(rt; is_refused(&rt, alloc, no_pages, "", calls(), Status::BadBoot(2))?);
    assert!(rt; is_refused(&rt, alloc, boot(), "12", calls(), Status::BadSchedule(2))?);
    assert!(rt; is_refused(&rt, alloc, boot(), "0", calls(), Status::BadSchedule(1))?);
    assert!(rt; is_refused(&rt, alloc, boot(), "", "C6008000\n", Status::BadCalls(3, 1))?);
    assert!(rt; is_refused(&rt, alloc, boot(), "", "c6008000", Status::BadCalls(3, 1))?);
    Ok(())
}

/// Frames that are refused at once or at a look, of no function, and with high bits in x0.
fn refused_calls() -> &'static str {
    "c6008012 1 0\nc6008012 7 1 9\nc6008012 1 1\nc6008012 0 1\nc6008012 8 1\n\
     c600801b 7 1 0 0 : 00\nc6009999\nc6008065 7\n1c6008000\n"
}

fn refused_text() -> &'static str {
    "history 2\n1 act 1 9\n2 act 1 10\ncalls 10\n\
     call 1 1 0 frame = 1 0 0 0\ncall 1 2 0 frame = 1 0 0 0\n\
     call 1 3 1 look 1 0 refused = 32 0 0 0\ncall 1 4 3 look 0 0 refused = 32 0 0 0\n\
     call 1 5 5 look 8 0 refused = 35 0 0 0\n\
     call 1 6 7 look 7 0 refused = 34 0 0 0\ncall 1 7 0 frame = ffffffffffffffff 0 0 0\n\
     call 1 8 0 frame = ffffffffffffffff 0 0 0\ncall 1 9 0 entry 1 = 8001 46 0 0\n\
     call 1 10 0 entry 2 = 0 0 0 0\nstate\nunits 1 11 29 0\nend\n"
}

#[test]
fn refusals_have_their_numbers(rt: HostRuntime) -> Result<(), Fail> {
    let alloc = rt.alloc();
    assert!(rt; writes(&rt, alloc, boot(), refused_calls(), refused_text())?);
    Ok(())
}

/// Eight VMs that may ring one doorbell.
fn boot_of_eight() -> &'static str {
    "gunyah 1\npages 8\npartition 128\nrootextent 1\ndoorbell 1\n\
     cspace 1\naddrspace 1\ncspace 1\naddrspace 1\ncspace 1\naddrspace 1\ncspace 1\naddrspace 1\n\
     cspace 1\naddrspace 1\ncspace 1\naddrspace 1\ncspace 1\naddrspace 1\ncspace 1\naddrspace 1\n\
     cap 4 7 3 1 0\ncap 6 7 3 1 0\ncap 8 7 3 1 0\ncap 10 7 3 1 0\n\
     cap 12 7 3 1 0\ncap 14 7 3 1 0\ncap 16 7 3 1 0\ncap 18 7 3 1 0\n\
     vm 4 5\nvm 6 7\nvm 8 9\nvm 10 11\nvm 12 13\nvm 14 15\nvm 16 17\nvm 18 19\n"
}

/// Each VM rings with a flag of its own in the first round, and exits in the second.
fn text_of_eight() -> &'static str {
    "history 16\n1 act 1 1\n2 act 2 1\n3 act 3 1\n4 act 4 1\n\
     5 act 5 1\n6 act 6 1\n7 act 7 1\n8 act 8 1\n\
     9 act 1 2\n10 act 2 2\n11 act 3 2\n12 act 4 2\n\
     13 act 5 2\n14 act 6 2\n15 act 7 2\n16 act 8 2\n\
     calls 16\n\
     call 1 1 1 look 7 0 entry 1 = 0 0 0 0\ncall 1 2 0 entry 9 = 0 0 0 0\n\
     call 2 1 1 look 7 0 entry 2 = 0 1 0 0\ncall 2 2 0 entry 10 = 0 0 0 0\n\
     call 3 1 1 look 7 0 entry 3 = 0 3 0 0\ncall 3 2 0 entry 11 = 0 0 0 0\n\
     call 4 1 1 look 7 0 entry 4 = 0 7 0 0\ncall 4 2 0 entry 12 = 0 0 0 0\n\
     call 5 1 1 look 7 0 entry 5 = 0 f 0 0\ncall 5 2 0 entry 13 = 0 0 0 0\n\
     call 6 1 1 look 7 0 entry 6 = 0 1f 0 0\ncall 6 2 0 entry 14 = 0 0 0 0\n\
     call 7 1 1 look 7 0 entry 7 = 0 3f 0 0\ncall 7 2 0 entry 15 = 0 0 0 0\n\
     call 8 1 1 look 7 0 entry 8 = 0 7f 0 0\ncall 8 2 0 entry 16 = 0 0 0 0\n\
     state\nunits 1 67 61 0\nend\n"
}

/// The files of eight VMs: `boot`, `schedule`, and a call file for each VM.
fn entries_of_eight(alloc: Global) -> Result<Vec<(String, Vec<u8>)>, AllocError> {
    let mut entries = Vec::new(alloc);
    entries.push(entry(alloc, "boot", boot_of_eight())?)?;
    entries.push(entry(alloc, "schedule", "")?)?;
    entries.push(entry(alloc, "1", "c6008012 7 1\n")?)?;
    entries.push(entry(alloc, "2", "c6008012 7 2\n")?)?;
    entries.push(entry(alloc, "3", "c6008012 7 4\n")?)?;
    entries.push(entry(alloc, "4", "c6008012 7 8\n")?)?;
    entries.push(entry(alloc, "5", "c6008012 7 10\n")?)?;
    entries.push(entry(alloc, "6", "c6008012 7 20\n")?)?;
    entries.push(entry(alloc, "7", "c6008012 7 40\n")?)?;
    entries.push(entry(alloc, "8", "c6008012 7 80\n")?)?;
    Ok(entries)
}

#[test]
fn eight_vms_take_turns(rt: HostRuntime) -> Result<(), Fail> {
    let alloc = rt.alloc();
    let mut files = SureFiles::new(entries_of_eight(alloc)?);
    let mut out = SureSink::new(alloc);
    let words = [
        "step", "boot", "schedule", "1", "2", "3", "4", "5", "6", "7", "8",
    ];
    assert_eq!(rt;
        status_of(&rt, alloc, &words, &mut files, &mut out)?,
        Status::Done
    );
    assert!(rt; out.bytes() == text_of_eight().as_bytes());
    Ok(())
}

/// Takes at most 7 bytes of a piece, and keeps the lengths of all pieces.
#[derive(Drop)]
struct Lengths {
    lengths: Vec<usize>,
}

impl Sink for Lengths {
    ghost faults = { λ _. 0 };

    ghost taken = { λ _. None };

    ghost is_sure = { λ _. true };

    fn put(&mut self, _alloc: Global, piece: &[u8]) -> Result<usize, PutErr> {
        if self.lengths.push(piece.len()).is_err() {
            return Err(PutErr::NoMemory);
        }
        Ok(piece.len().min(7))
    }
}

#[test]
fn each_put_is_given_the_whole_rest(rt: HostRuntime) -> Result<(), Fail> {
    let alloc = rt.alloc();
    let mut files = SureFiles::new(entries(alloc, boot(), "", "")?);
    let mut out = Lengths {
        lengths: Vec::new(alloc),
    };
    assert_eq!(rt; step(&rt, alloc, &mut files, &mut out)?, Status::Done);
    // The text has 83 bytes.
    let rests = [83, 76, 69, 62, 55, 48, 41, 34, 27, 20, 13, 6];
    assert_eq!(rt; out.lengths.as_slice(), rests.as_slice());
    Ok(())
}
