//! The header of a fragment.

ghost use Rattle.std.specs.Prelude.{◌≡◌, ◌<◌, ◌≤◌, length};
ghost use Rattle.gh_base.specs.RpcMessage.{fragment_kind_number, fragment_kind_numbered};
ghost use Rattle.gh_base.specs.RpcMessage.{header_bytes, header_of};

use gh_base::{FRAGMENT_HEADER_BYTES, FRAGMENT_VERSION, FragmentKind, Header, u16_at, u32_at};

const KIND_AND_COUNT_AT: usize = 1;

const SEQUENCE_AT: usize = 2;

const ID_AT: usize = 4;

fn kind_number(kind: FragmentKind) -> u8
    ensures value { result ≡ fragment_kind_number kind }
    ensures bound { result < 4 }
{
    match kind {
        FragmentKind::Continuation => 0,
        FragmentKind::Request => 1,
        FragmentKind::Reply => 2,
        FragmentKind::Notification => 3,
    }
}

fn kind_numbered(number: u8) -> FragmentKind
    ensures { result ≡ fragment_kind_numbered number }
{
    match number {
        0 => FragmentKind::Continuation,
        1 => FragmentKind::Request,
        2 => FragmentKind::Reply,
        _ => FragmentKind::Notification,
    }
}

/// The header of a fragment that is long enough. Its version isn't looked at.
#[tactic(auto, unfolding(gh_base::specs::RpcMessage::header_of))]
pub fn read_header(fragment: &[u8]) -> Header
    requires { FRAGMENT_HEADER_BYTES ≤ length fragment.now }
    ensures { result ≡ header_of fragment.now }
{
    let kind_and_count = fragment[KIND_AND_COUNT_AT];
    Header {
        kind: kind_numbered(kind_and_count % 4),
        further: kind_and_count / 4,
        sequence: u16_at(fragment, SEQUENCE_AT),
        id: u32_at(fragment, ID_AT),
    }
}

/// The bytes of a header whose count is below 64.
#[tactic(auto, unfolding(gh_base::specs::RpcMessage::header_bytes))]
pub fn header_bytes(header: Header) -> [u8; FRAGMENT_HEADER_BYTES]
    requires { header.further < 64 }
    ensures { result ≡ header_bytes header }
{
    let kind_and_count = kind_number(header.kind) + header.further * 4;
    let [sequence0, sequence1] = header.sequence.to_le_bytes();
    let [id0, id1, id2, id3] = header.id.to_le_bytes();
    [
        FRAGMENT_VERSION,
        kind_and_count,
        sequence0,
        sequence1,
        id0,
        id1,
        id2,
        id3,
    ]
}
