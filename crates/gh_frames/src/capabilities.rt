//! The capabilities that a call looks up.

ghost use Rattle.std.specs.Prelude.{◌≡◌, ◌∷◌, [], if◌then◌else◌, Some, None};
ghost use Rattle.gh_model.specs.Registers.{needs_of, space_need, of_kind, of_any_kind, a_master};

use arrayvec::ArrayVec;
use gh_base::{Call, Kind, Need, Rights};

/// Capability numbers to look up, in order, and what is needed of each.
type Needs = ArrayVec<(u64, Need), 2>;

fn kind(kind: Kind, rights: Rights) -> Need
    ensures { result ≡ of_kind kind rights }
{
    Need {
        kind: Some(kind),
        rights,
        master: false,
    }
}

fn any_kind(rights: Rights) -> Need
    ensures { result ≡ of_any_kind rights }
{
    Need {
        kind: None,
        rights,
        master: false,
    }
}

fn master() -> Need
    ensures { result ≡ a_master }
{
    Need {
        kind: None,
        rights: Rights::NONE,
        master: true,
    }
}

fn one(cap: u64, need: Need) -> Needs
    ensures { result.items ≡ (cap, need) ∷ [] }
{
    let mut needs = ArrayVec::new();
    needs.push((cap, need));
    needs
}

fn two(first: u64, first_need: Need, second: u64, second_need: Need) -> Needs
    ensures { result.items ≡ (first, first_need) ∷ (second, second_need) ∷ [] }
{
    let mut needs = one(first, first_need);
    needs.push((second, second_need));
    needs
}

/// A partition.
fn partition_with(cap: u64, rights: Rights) -> Needs
    ensures { result.items ≡ (cap, of_kind Kind.Partition rights) ∷ [] }
{
    one(cap, kind(Kind::Partition, rights))
}

/// A capability space.
fn cspace_with(cap: u64, rights: Rights) -> Needs
    ensures { result.items ≡ (cap, of_kind Kind.Cspace rights) ∷ [] }
{
    one(cap, kind(Kind::Cspace, rights))
}

/// A doorbell.
fn bell_with(cap: u64, rights: Rights) -> Needs
    ensures { result.items ≡ (cap, of_kind Kind.Bell rights) ∷ [] }
{
    one(cap, kind(Kind::Bell, rights))
}

/// A message queue.
fn queue_with(cap: u64, rights: Rights) -> Needs
    ensures { result.items ≡ (cap, of_kind Kind.Queue rights) ∷ [] }
{
    one(cap, kind(Kind::Queue, rights))
}

/// Two extents, both with the same rights.
fn extents_with(first: u64, second: u64, rights: Rights) -> Needs
    ensures { result.items
        ≡ (first, of_kind Kind.Extent rights) ∷ (second, of_kind Kind.Extent rights) ∷ [] }
{
    let need = kind(Kind::Extent, rights);
    two(first, need, second, need)
}

/// The partition of a new object, and the capability space of its master capability.
fn creation(partition: u64, cspace: u64) -> Needs
    ensures { result.items ≡ (partition, of_kind Kind.Partition Rights.CREATE)
        ∷ (cspace, of_kind Kind.Cspace Rights.CREATE) ∷ [] }
{
    let cspace_need = kind(Kind::Cspace, Rights::CREATE);
    two(
        partition,
        kind(Kind::Partition, Rights::CREATE),
        cspace,
        cspace_need,
    )
}

/// The capability space that a copy goes to, and what is copied.
fn copy(cspace: u64, source: u64) -> Needs
    ensures { result.items ≡ (cspace, of_kind Kind.Cspace Rights.COPY)
        ∷ (source, of_any_kind Rights.NONE) ∷ [] }
{
    two(
        cspace,
        kind(Kind::Cspace, Rights::COPY),
        source,
        any_kind(Rights::NONE),
    )
}

/// The extent of a mapping, behind its address space where that isn't the caller's own.
fn mapping(space: u64, extent: u64) -> Needs
    ensures { result.items ≡ space_need space Rights.MAP
        ((extent, of_kind Kind.Extent Rights.MAP) ∷ []) }
{
    let extent_need = kind(Kind::Extent, Rights::MAP);
    if space == 0 {
        one(extent, extent_need)
    } else {
        two(space, kind(Kind::Space, Rights::MAP), extent, extent_need)
    }
}

fn lookup(space: u64) -> Needs
    ensures { result.items ≡ space_need space Rights.LOOKUP [] }
{
    if space == 0 {
        ArrayVec::new()
    } else {
        one(space, kind(Kind::Space, Rights::LOOKUP))
    }
}

/// The capability numbers that a call looks up, in order, and what it needs of each. The number 0
/// as the address space of map, unmap and as_lookup is the caller's own, which isn't looked up. It
/// takes no memory.
pub fn needs(call: &Call) -> ArrayVec<(u64, Need), 2>
    ensures { result.items ≡ needs_of call.now }
{
    match *call {
        Call::Identify | Call::Exit => ArrayVec::new(),
        Call::BellSend { cap, .. } => bell_with(cap, Rights::SEND),
        Call::BellSetMask { cap, .. } | Call::BellReceive { cap, .. } | Call::BellReset { cap } => {
            bell_with(cap, Rights::RECEIVE)
        }
        Call::MsgqSend { cap, .. } => queue_with(cap, Rights::SEND),
        Call::MsgqRecv { cap, .. } | Call::MsgqFlush { cap } => queue_with(cap, Rights::RECEIVE),
        Call::Map { space, extent, .. } | Call::Unmap { space, extent, .. } => {
            mapping(space, extent)
        }
        Call::AsLookup { space, .. } => lookup(space),
        Call::Donate { from, to, .. } => extents_with(from, to, Rights::DONATE),
        Call::Derive { child, parent, .. } => extents_with(child, parent, Rights::DERIVE),
        Call::Create {
            partition,
            cspace,
            ..
        } => creation(partition, cspace),
        Call::ConfigurePartition { cap, .. } => partition_with(cap, Rights::ACTIVATE),
        Call::ConfigureQueue { cap, .. } => queue_with(cap, Rights::ACTIVATE),
        Call::Activate { cap } => one(cap, any_kind(Rights::ACTIVATE)),
        Call::CapCopy { cspace, source, .. } => copy(cspace, source),
        Call::CapDelete { cspace, .. } => cspace_with(cspace, Rights::DELETE),
        Call::CapRevoke { cspace, .. } => cspace_with(cspace, Rights::REVOKE),
        Call::CapsRevoke { cap } => one(cap, master()),
        Call::RmAct { cap, .. } | Call::RmPoll { cap } => {
            partition_with(cap, Rights::RESOURCE_MANAGER)
        }
    }
}
