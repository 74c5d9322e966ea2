//! What refuses a frame whose function is known: the register that must be zero, and then its
//! shape.

ghost use Rattle.std.specs.Prelude.{◌≡◌, ◌==◌, ◌||◌, Err};
ghost use Rattle.std.specs.Prelude.{not, nat_lt, drop, if◌then◌else◌};
ghost use Rattle.gh_model.specs.Registers.{first_of, shaped};

use gh_base::{Call, Errno};

/// The call. It is refused with 1 where the register that must be zero isn't, and else for the
/// first refusal that holds.
pub fn accepted(call: Call, zero: u64, refusals: &[(bool, Errno)]) -> Result<Call, Errno>
    ensures { result ≡
        (if not (zero == 0) then Err Errno.ArgInval else shaped call (first_of refusals.now)) }
{
    if zero != 0 {
        return Err(Errno::ArgInval);
    }
    match first(refusals) {
        Some(errno) => Err(errno),
        None => Ok(call),
    }
}

fn first(refusals: &[(bool, Errno)]) -> Option<Errno>
    ensures { result ≡ first_of refusals.now }
{
    for (holds, errno) in refusals {
        if *holds {
            return Some(*errno);
        }
    }
    None
}

/// Whether a value isn't one of 1 to `most`.
pub fn is_outside(value: u64, most: u64) -> bool
    ensures { result ≡ (value == 0) || nat_lt most value }
{
    value == 0 || value > most
}
