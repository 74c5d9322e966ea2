//! How many live objects of each kind there are.

ghost use Rattle.std.specs.Prelude.{◌≡◌, ◌<◌, IfSome};
ghost use Rattle.gh_objects.specs.Kinds.{kind_number_in, kind_place, with_less, with_more};

use crate::header::Header;
use gh_base::Kind;

/// How many kinds there are.
pub const KINDS: usize = 6;

/// The place of a kind among all of them.
fn place_of(kind: Kind) -> usize
    ensures place { result ≡ kind_place kind }
    ensures within { result < KINDS }
{
    match kind {
        Kind::Partition => 0,
        Kind::Cspace => 1,
        Kind::Space => 2,
        Kind::Extent => 3,
        Kind::Bell => 4,
        Kind::Queue => 5,
    }
}

/// How many objects of the kind there are.
pub fn number_of(numbers: &[u16; KINDS], kind: Kind) -> u16
    ensures { result ≡ kind_number_in numbers.now kind }
{
    numbers[place_of(kind)]
}

/// Counts an object of the header's kind no more, if there is a header.
pub fn lower(numbers: &mut [u16; KINDS], header: Option<Header>)
    requires { IfSome header (λ h. 0 < kind_number_in numbers.old h.kind) }
    ensures { numbers.new ≡ with_less header numbers.old }
{
    if let Some(header) = header {
        numbers[place_of(header.kind)] -= 1;
    }
}

/// Counts an object more of the header's kind, if there is a header.
pub fn raise(numbers: &mut [u16; KINDS], header: Option<Header>)
    requires { IfSome header (λ h. kind_number_in numbers.old h.kind < u16.MAX) }
    ensures { numbers.new ≡ with_more header numbers.old }
{
    if let Some(header) = header {
        numbers[place_of(header.kind)] += 1;
    }
}
