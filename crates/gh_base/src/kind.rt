//! The kinds of objects, the stages of an object's life, and how two extents are related.

ghost use Rattle.std.specs.Prelude.{◌≡◌};
ghost use Rattle.gh_base.specs.Kind.{kind_number, kind_numbered};
ghost use Rattle.gh_base.specs.Kind.{kind_cost, kind_rights, kind_stage};

use crate::ids::Rights;

/// What an object is.
#[derive(Clone, Copy, Debug, PartialEq, Eq)]
pub enum Kind {
    /// A source of units, in which objects live.
    Partition,
    /// A capability space.
    Cspace,
    /// An address space.
    Space,
    /// A memory extent.
    Extent,
    /// A doorbell.
    Bell,
    /// A message queue.
    Queue,
}

impl Kind {
    /// The number of the kind, 1 to 6, in a call of create and in a capability word.
    pub const fn number(self) -> u64
        ensures { result ≡ kind_number self }
    {
        match self {
            Kind::Partition => 1,
            Kind::Cspace => 2,
            Kind::Space => 3,
            Kind::Extent => 4,
            Kind::Bell => 5,
            Kind::Queue => 6,
        }
    }

    /// The kind of a number; none outside 1 to 6.
    pub const fn of_number(number: u64) -> Option<Kind>
        ensures { result ≡ kind_numbered number }
    {
        match number {
            1 => Some(Kind::Partition),
            2 => Some(Kind::Cspace),
            3 => Some(Kind::Space),
            4 => Some(Kind::Extent),
            5 => Some(Kind::Bell),
            6 => Some(Kind::Queue),
            _ => None,
        }
    }

    /// The units that an object costs at create. A partition costs its quota besides, and a message
    /// queue its messages' room, both at configure.
    pub const fn cost(self) -> u16
        ensures { result ≡ kind_cost self }
    {
        match self {
            Kind::Cspace | Kind::Space => 4,
            _ => 1,
        }
    }

    /// All rights that a capability of the kind can have.
    pub const fn rights(self) -> Rights
        ensures { result ≡ record { 0 = kind_rights self } }
    {
        match self {
            Kind::Partition => Rights(
                Rights::CREATE.0 + Rights::RESOURCE_MANAGER.0 + Rights::ACTIVATE.0,
            ),
            Kind::Cspace => Rights(
                Rights::CREATE.0
                    + Rights::COPY.0
                    + Rights::DELETE.0
                    + Rights::REVOKE.0
                    + Rights::ACTIVATE.0,
            ),
            Kind::Space => Rights(Rights::MAP.0 + Rights::LOOKUP.0 + Rights::ACTIVATE.0),
            Kind::Extent => Rights(
                Rights::MAP.0 + Rights::DERIVE.0 + Rights::DONATE.0 + Rights::ACTIVATE.0,
            ),
            Kind::Bell | Kind::Queue => {
                Rights(Rights::SEND.0 + Rights::RECEIVE.0 + Rights::ACTIVATE.0)
            }
        }
    }

    /// The stage of an object of the kind after create.
    pub const fn first_stage(self) -> Stage
        ensures { result ≡ kind_stage self }
    {
        match self {
            Kind::Partition | Kind::Extent | Kind::Queue => Stage::Init,
            _ => Stage::Ready,
        }
    }
}

/// How far an object is in its life.
#[derive(Clone, Copy, Debug, PartialEq, Eq)]
pub enum Stage {
    /// Not configured, or not derived, yet.
    Init,
    /// Not activated yet.
    Ready,
    /// In use.
    Active,
}

/// How the extent that a donation goes to is related to the one that it comes from.
#[derive(Clone, Copy, Debug, PartialEq, Eq)]
pub enum Relation {
    ToChild,
    ToParent,
    ToSibling,
}
