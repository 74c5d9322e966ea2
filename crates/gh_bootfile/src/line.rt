//! A line of a boot file, read from its text.

ghost use Rattle.std.specs.Prelude.{◌≡◌, ◌==◌, length, nat_lt};
ghost use Rattle.std.specs.Prelude.{if◌then◌else◌, Some, None};
ghost use Rattle.gh_bootfile.specs.Grammar.{bounds, byte_bound, mark_bound, small_bound};
ghost use Rattle.gh_bootfile.specs.Reading.{line_from, line_of};

use crate::keyword::{Keyword, read_keyword};
use crate::number::numbers;
use gh_base::{Access, Rights, Serial, VmId};
use gh_model::{BootLine, split_first};

fn small(number: u32) -> Option<u16>
    ensures { result ≡ (if nat_lt number small_bound then Some number else None) }
{
    if number <= u16::MAX as u32 {
        Some(number as u16)
    } else {
        None
    }
}

fn byte(number: u32) -> Option<u8>
    ensures { result ≡ (if nat_lt number byte_bound then Some number else None) }
{
    if number <= u8::MAX as u32 {
        Some(number as u8)
    } else {
        None
    }
}

fn mark(number: u32) -> Option<bool>
    ensures { result ≡ (if nat_lt number mark_bound then Some (number == 1) else None) }
{
    if number <= 1 { Some(number == 1) } else { None }
}

fn extent(n: &[u32]) -> Option<BootLine>
    requires { length n.now ≡ 7 }
    ensures { result ≡ line_from Keyword.Extent n.now }
{
    Some(BootLine::Extent {
        partition: Serial(n[0]),
        parent: Serial(n[1]),
        offset: small(n[2])?,
        count: small(n[3])?,
        access: Access(byte(n[4])?),
        held_offset: small(n[5])?,
        held_count: small(n[6])?,
    })
}

fn map(n: &[u32]) -> Option<BootLine>
    requires { length n.now ≡ 6 }
    ensures { result ≡ line_from Keyword.Map n.now }
{
    Some(BootLine::Map {
        space: Serial(n[0]),
        extent: Serial(n[1]),
        base: small(n[2])?,
        offset: small(n[3])?,
        count: small(n[4])?,
        access: Access(byte(n[5])?),
    })
}

fn cap(n: &[u32]) -> Option<BootLine>
    requires { length n.now ≡ 5 }
    ensures { result ≡ line_from Keyword.Cap n.now }
{
    Some(BootLine::Cap {
        cspace: Serial(n[0]),
        slot: byte(n[1])?,
        object: Serial(n[2]),
        rights: Rights(small(n[3])?),
        master: mark(n[4])?,
    })
}

fn link(n: &[u32]) -> Option<BootLine>
    requires { length n.now ≡ 4 }
    ensures { result ≡ line_from Keyword.Link n.now }
{
    Some(BootLine::Link {
        vm: VmId(byte(n[0])?),
        extent: Serial(n[1]),
        request: Serial(n[2]),
        reply: Serial(n[3]),
    })
}

fn queue(n: &[u32]) -> Option<BootLine>
    requires { length n.now ≡ 3 }
    ensures { result ≡ line_from Keyword.Msgqueue n.now }
{
    Some(BootLine::Msgqueue {
        partition: Serial(n[0]),
        depth: small(n[1])?,
        size: small(n[2])?,
    })
}

fn pages(n: &[u32]) -> Option<BootLine>
    requires { length n.now ≡ 1 }
    ensures { result ≡ line_from Keyword.Pages n.now }
{
    let count = small(n[0])?;
    Some(BootLine::Pages { count })
}

fn partition(n: &[u32]) -> Option<BootLine>
    requires { length n.now ≡ 1 }
    ensures { result ≡ line_from Keyword.Partition n.now }
{
    let quota = small(n[0])?;
    Some(BootLine::Partition { quota })
}

/// The line of a keyword and as many numbers as it wants.
fn line_with(keyword: Keyword, n: &[u32]) -> Option<BootLine>
    requires { length n.now ≡ length (bounds keyword) }
    ensures { result ≡ line_from keyword n.now }
{
    let first = Serial(n[0]);
    match keyword {
        Keyword::Pages => pages(n),
        Keyword::Partition => partition(n),
        Keyword::Cspace => Some(BootLine::Cspace { partition: first }),
        Keyword::Addrspace => Some(BootLine::Addrspace { partition: first }),
        Keyword::Doorbell => Some(BootLine::Doorbell { partition: first }),
        Keyword::RootExtent => Some(BootLine::RootExtent { partition: first }),
        Keyword::Extent => extent(n),
        Keyword::Msgqueue => queue(n),
        Keyword::Map => map(n),
        Keyword::Cap => cap(n),
        Keyword::Vm => Some(BootLine::Vm {
            cspace: first,
            space: Serial(n[1]),
        }),
        Keyword::Rm => Some(BootLine::Rm {
            cspace: first,
            space: Serial(n[1]),
            partition: Serial(n[2]),
        }),
        Keyword::Link => link(n),
    }
}

/// The line of a keyword and numbers.
fn line_from(keyword: Keyword, numbers: &[u32]) -> Option<BootLine>
    ensures { result ≡ line_from keyword numbers.now }
{
    if numbers.len() != keyword.number_count() {
        return None;
    }
    line_with(keyword, numbers)
}

/// The line that a text reads as, without its line feed; none where it is no boot line.
#[tactic(auto, unfolding(crate::specs::Reading::line_of))]
pub(crate) fn read_line(text: &[u8]) -> Option<BootLine>
    ensures { result ≡ line_of text.now }
{
    let (word, rest) = split_first(text, b' ');
    let keyword = read_keyword(word)?;
    let numbers = numbers(rest)?;
    line_from(keyword, numbers.as_slice())
}
