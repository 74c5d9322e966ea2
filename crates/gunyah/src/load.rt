//! Loads the files of a command.

ghost use Rattle.std.specs.Prelude.{◌≡◌, ◌≤◌, [], length};
ghost use Rattle.std.specs.Prelude.{map, false, IfOk, IfSome, IsErrOf};
ghost use Rattle.gunyah.specs.Input.{sized, sizes_on, ReadsAs, LoadsAs};
ghost use Rattle.gunyah.specs.Outcome.{Asked, AsksFor, FindsLarge, ReadFaults, ReadOf, texts_under};
ghost use Rattle.gh_callfile.specs.Grammar.{texts_of};

use crate::read_err::{BadFile, ReadErr};
use gh_base::{BOOT_FILE_BYTES, Sequence};
use gh_io::Files;
use std::alloc::Global;

/// A file by its number, where it isn't too large.
fn sized_file(bytes: Vec<u8>, number: u32) -> Result<Sequence<u8>, ReadErr>
    ensures size { ReadsAs (sized number bytes.items) result }
    ensures large { FindsLarge result number }
{
    if bytes.len() > BOOT_FILE_BYTES {
        return Err(ReadErr::Bad(BadFile::TooLarge(number)));
    }
    Ok(Sequence::from_vec(bytes))
}

/// Loads a file by its number. It asks for the limit of a file and one byte more, so that one that
/// is too large is told.
fn load_file<F: Files>(
    alloc: Global,
    files: &mut F,
    name: &str,
    number: u32,
) -> Result<Sequence<u8>, ReadErr>
    ensures text { IfSome (F.contents files.old)
        (λ file. LoadsAs (sized number (file name.now)) result) }
    ensures large { FindsLarge result number }
    ensures asked { AsksFor result (F.asked files.old) (F.asked files.new) name.now }

    // A fault has its cause.
    ensures faults { ReadFaults result (F.faults files.old) (F.faults files.new) }
    ensures unsure { IsErrOf result ReadErr.Failed → F.is_sure files.old ≡ false }

    // What no call changes.
    ensures told { F.contents files.new ≡ F.contents files.old }
    ensures sure { F.is_sure files.new ≡ F.is_sure files.old }
{
    match files.load(alloc, name, BOOT_FILE_BYTES + 1) {
        Err(error) => Err(ReadErr::from(error)),
        Ok(bytes) => sized_file(bytes, number),
    }
}

/// Loads the files of these names in order. The first that is too large ends it.
#[tactic(auto, using(crate::proofs::LoadLemmas::asked_more, crate::proofs::LoadLemmas::small_more))]
pub(crate) fn load_files<F: Files>(
    alloc: Global,
    files: &mut F,
    names: &[&str],
) -> Result<Sequence<Sequence<u8>>, ReadErr>
    requires { length names.now ≤ 10 }
    ensures texts { IfSome (F.contents files.old)
        (λ file. LoadsAs (sizes_on [] (map file (texts_of names.now))) result) }
    ensures count { IfOk result (λ texts. length texts ≡ length names.now) }
    ensures asked { Asked (ReadOf result) (F.asked files.old) (F.asked files.new)
        (texts_of names.now) (texts_under (F.contents files.old) (texts_of names.now)) }

    // A fault has its cause.
    ensures faults { ReadFaults result (F.faults files.old) (F.faults files.new) }
    ensures unsure { IsErrOf result ReadErr.Failed → F.is_sure files.old ≡ false }
{
    let mut texts: Sequence<Sequence<u8>> = Sequence::with_room(alloc, names.len())?;
    for name in names {
        let text = load_file(alloc, files, name, texts.len() as u32 + 1)?;
        texts.push(text)?;
    }
    Ok(texts)
}
