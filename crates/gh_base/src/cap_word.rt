//! The capability word: what one atomic load of a slot shows.

ghost use Rattle.std.specs.Prelude.{◌≡◌, ◌<◌, true};
ghost use Rattle.gh_base.specs.CapWord.{kinds, marks, rights_values, settings, packed};
ghost use Rattle.gh_base.specs.CapWord.{numbered_fields, filled_bits, filled_fields};
ghost use Rattle.gh_base.specs.CapWord.{fields_of, empty_fields, revoked_bits};
ghost use Rattle.gh_base.specs.CapWord.{revoked_fields, masked_bits, masked_fields, state_of};
ghost use Rattle.gh_base.specs.CapWord.{kind_of, master_of, object_of, rights_of, set_at_of};

use crate::ids::{ObjIndex, Rights};
use crate::kind::Kind;
use crate::limits::OBJECT_INDICES;

/// The state of a slot.
#[derive(Clone, Copy, Debug, PartialEq, Eq)]
pub enum CapState {
    Empty,
    Valid,
    /// It grants nothing, and still fills its slot.
    Revoked,
}

/// A slot's content in 64 bits. The layout is this project's own.
#[derive(Clone, Copy, Debug, Default, PartialEq, Eq)]
pub struct CapWord(pub u64);

const VALID: u64 = 1;

const REVOKED: u64 = 2;

// What each field counts in units of the one below it.
const SET_AT: u64 = 1 << 32;

const RIGHTS: u64 = 1 << 16;

const OBJECT: u64 = OBJECT_INDICES as u64;

const MASTER: u64 = 1 << 1;

const KIND: u64 = 1 << 3;

/// The word of these six numbers, each in its place.
const fn pack(state: u64, kind: u64, master: u64, object: u64, rights: u64, set_at: u64) -> u64
    requires state_fits { state < 4 }
    requires kind_fits { kind < kinds }
    requires master_fits { master < marks }
    requires object_fits { object < OBJECT_INDICES }
    requires rights_fits { rights < rights_values }
    requires set_at_fits { set_at < settings }
    ensures bits { result ≡ packed state kind master object rights set_at }
    ensures fields { fields_of result ≡ numbered_fields state kind master object rights set_at }
{
    ((((state * KIND + kind) * MASTER + master) * OBJECT + object) * RIGHTS + rights) * SET_AT
        + set_at
}

impl CapWord {
    /// An empty slot that this entry of the history emptied; 0 where none did.
    pub const fn empty(set_at: u32) -> CapWord
        ensures bits { result.0 ≡ set_at }
        ensures fields { fields_of result.0 ≡ empty_fields set_at }
    {
        CapWord(set_at as u64)
    }

    /// A filled slot: a capability that is valid, or else revoked.
    pub fn filled(
        valid: bool,
        kind: Kind,
        master: bool,
        object: ObjIndex,
        rights: Rights,
        set_at: u32,
    ) -> CapWord
        requires { object.0 < OBJECT_INDICES }
        ensures bits { result.0 ≡ filled_bits valid kind master object.0 rights.0 set_at }
        ensures fields { fields_of result.0
            ≡ filled_fields valid kind master object.0 rights.0 set_at }
    {
        let state = if valid { VALID } else { REVOKED };
        let object = object.0 as u64;
        CapWord(pack(
            state,
            kind.number(),
            master as u64,
            object,
            rights.0 as u64,
            set_at as u64,
        ))
    }

    /// A valid capability.
    pub fn valid(kind: Kind, master: bool, object: ObjIndex, rights: Rights, set_at: u32) -> CapWord
        requires { object.0 < OBJECT_INDICES }
        ensures bits { result.0 ≡ filled_bits true kind master object.0 rights.0 set_at }
        ensures fields { fields_of result.0
            ≡ filled_fields true kind master object.0 rights.0 set_at }
    {
        CapWord::filled(true, kind, master, object, rights, set_at)
    }

    pub fn state(self) -> CapState
        ensures { result ≡ state_of self.0 }
    {
        match self.0 / SET_AT / RIGHTS / OBJECT / MASTER / KIND {
            0 => CapState::Empty,
            1 => CapState::Valid,
            _ => CapState::Revoked,
        }
    }

    /// The kind of the object; none in an empty slot.
    pub fn kind(self) -> Option<Kind>
        ensures { result ≡ kind_of self.0 }
    {
        Kind::of_number(self.0 / SET_AT / RIGHTS / OBJECT / MASTER % KIND)
    }

    /// Whether it is the object's master capability.
    pub fn master(self) -> bool
        ensures { result ≡ master_of self.0 }
    {
        self.0 / SET_AT / RIGHTS / OBJECT % MASTER == 1
    }

    pub fn object(self) -> ObjIndex
        ensures { result.0 ≡ object_of self.0 }
    {
        ObjIndex((self.0 / SET_AT / RIGHTS % OBJECT) as u16)
    }

    pub fn rights(self) -> Rights
        ensures { result.0 ≡ rights_of self.0 }
    {
        Rights((self.0 / SET_AT % RIGHTS) as u16)
    }

    /// The number of the entry that set the slot; 0 where none did.
    pub fn set_at(self) -> u32
        ensures { result ≡ set_at_of self.0 }
    {
        (self.0 % SET_AT) as u32
    }

    /// The same capability, revoked by this entry.
    pub fn revoked(self, set_at: u32) -> CapWord
        ensures bits { result.0 ≡ revoked_bits self.0 set_at }
        ensures fields { fields_of result.0 ≡ revoked_fields self.0 set_at }
    {
        let kind = self.0 / SET_AT / RIGHTS / OBJECT / MASTER % KIND;
        let master = self.0 / SET_AT / RIGHTS / OBJECT % MASTER;
        let object = self.object().0 as u64;
        CapWord(pack(
            REVOKED,
            kind,
            master,
            object,
            self.rights().0 as u64,
            set_at as u64,
        ))
    }

    /// The same capability with fewer rights and without the master mark, set by this entry.
    pub fn masked(self, mask: u16, set_at: u32) -> CapWord
        ensures bits { result.0 ≡ masked_bits self.0 mask set_at }
        ensures fields { fields_of result.0 ≡ masked_fields self.0 mask set_at }
    {
        let top = self.0 / SET_AT / RIGHTS / OBJECT / MASTER;
        let object = self.object().0 as u64;
        let rights = self.rights().0 & mask;
        CapWord(pack(
            top / KIND,
            top % KIND,
            0,
            object,
            rights as u64,
            set_at as u64,
        ))
    }
}

/// What a call needs of a capability that it looks up.
#[derive(Clone, Copy, Debug, Default, PartialEq, Eq)]
pub struct Need {
    /// The kind of the object; none where any will do.
    pub kind: Option<Kind>,
    pub rights: Rights,
    /// Whether it must be the object's master capability.
    pub master: bool,
}

/// A capability that a look granted.
#[derive(Clone, Copy, Debug, PartialEq, Eq)]
pub struct Grant {
    pub object: ObjIndex,
    pub word: CapWord,
}

/// What a call saw when it looked a capability up.
#[derive(Clone, Copy, Debug, Default, PartialEq, Eq)]
pub struct Look {
    /// The capability number, as the call gives it.
    pub slot: u64,
    /// How many entries of the history the look has seen.
    pub place: u32,
    pub word: CapWord,
}
