//! What a slot of a capability space holds, and what a look at it answers.

ghost use Rattle.std.specs.Prelude.{◌≡◌};
ghost use Rattle.gh_model.specs.Word.{look_reply, grant_reply, kind_fits, bits_of, Shows};

use crate::rows::CapabilityRow;
use gh_base::{CapWord, Errno, Kind, Need, ObjIndex, Serial};

/// A slot's capability, if it has one, and the number of the entry that set the slot; 0 where none
/// did.
#[derive(Clone, Copy, Debug, Default)]
pub struct Word {
    pub row: Option<CapabilityRow>,
    pub set_at: u32,
}

impl Word {
    /// What a look that needs this finds: the object, or the first refusal.
    pub fn reply(self, need: Need) -> Result<Serial, Errno>
        ensures { result ≡ look_reply self need }
    {
        match self.row {
            None => Err(Errno::CapNull),
            Some(row) => grant(row, need),
        }
    }

    /// The word in 64 bits. Its object index is 0, since rows have serials in place of indices.
    pub fn cap_word(self) -> CapWord
        ensures bits { result ≡ bits_of self }
        ensures shows { Shows result self }
    {
        match self.row {
            None => CapWord::empty(self.set_at),
            Some(row) => CapWord::filled(
                row.valid,
                row.kind,
                row.master,
                ObjIndex(0),
                row.rights,
                self.set_at,
            ),
        }
    }
}

fn grant(row: CapabilityRow, need: Need) -> Result<Serial, Errno>
    ensures { result ≡ grant_reply row need }
{
    if !row.valid {
        Err(Errno::CapRevoked)
    } else if !fits(need.kind, row.kind) {
        Err(Errno::WrongType)
    } else if !need.rights.within(row.rights) || need.master && !row.master {
        Err(Errno::InsufRights)
    } else {
        Ok(row.serial)
    }
}

fn fits(needed: Option<Kind>, kind: Kind) -> bool
    ensures { result ≡ kind_fits needed kind }
{
    match needed {
        None => true,
        Some(needed) => needed == kind,
    }
}
