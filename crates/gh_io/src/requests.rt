//! What was asked of files, as they keep it.

ghost use Rattle.std.specs.Prelude.{◌≡◌, ◌∷◌, ◌++◌, [], OnOk, OnErr};
ghost use Rattle.gh_io.specs.Outside.{request};

use crate::files::Request;
use gh_base::{NoMemory, Sequence};
use std::alloc::Global;

/// Puts a request at the end of those made.
pub(crate) fn note_request(
    alloc: Global,
    asked: &mut Sequence<Request>,
    name: &str,
    most: usize,
) -> Result<(), NoMemory>
    ensures ok { OnOk result (asked.new ≡ asked.old ++ request name.now most ∷ []) }
    ensures err { OnErr result (asked.new ≡ asked.old) }
{
    let name = Sequence::from_slice(alloc, name.as_bytes())?;
    asked.push(Request { name, most })
}
