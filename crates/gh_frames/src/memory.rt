//! The calls on extents and address spaces.

ghost use Rattle.std.specs.Prelude.{◌≡◌, ◌==◌, ◌||◌, ◌&&◌, ◌%◌, nat_lt};
ghost use Rattle.gh_model.specs.Registers as Table;
ghost use Rattle.gh_model.specs.Registers.{call_of, function_number};

use crate::functions::{AS_LOOKUP, DERIVE, DONATE, MAP, UNMAP};
use crate::refusals::accepted;
use gh_base::{Call, Errno, Frame, PAGE_BYTES};

/// The flag of map and unmap that says that offset and size name a part of the extent.
const PARTIAL: u64 = 1;

/// The flag of map and unmap, and the option of donate, that has no effect.
const NO_SYNC: u64 = 0x8000_0000;

/// The access number that is refused: write and execute without read.
const WRITE_EXECUTE: u64 = 3;

/// The greatest access number.
const ALL_ACCESS: u64 = 7;

/// The greatest type of a donation: 0 is to a child, 1 to the parent, 2 to a sibling.
const TO_SIBLING: u64 = 2;

pub fn map(frame: &Frame) -> Result<Call, Errno>
    requires { function_number frame.now ≡ MAP }
    ensures { result ≡ call_of frame.now }
{
    let [
        _,
        space,
        extent,
        base,
        attributes,
        flags,
        offset,
        size,
        zero,
    ] = frame.x;
    let user = user_access(attributes);
    let kernel = kernel_access(attributes);
    let refusals = [
        (has_foreign_flags(flags), Errno::ArgInval),
        (has_foreign_attributes(attributes), Errno::ArgInval),
        (is_refused_access(user, kernel), Errno::ArgInval),
        (user != kernel, Errno::ArgInval),
        (user == 0, Errno::ArgInval),
        (
            is_range_unaligned(flags, base, offset, size),
            Errno::ArgAlign,
        ),
        (is_empty_part(flags, size), Errno::ArgSize),
    ];
    let call = Call::Map {
        space,
        extent,
        base,
        attributes,
        flags,
        offset,
        size,
    };
    accepted(call, zero, &refusals)
}

pub fn unmap(frame: &Frame) -> Result<Call, Errno>
    requires { function_number frame.now ≡ UNMAP }
    ensures { result ≡ call_of frame.now }
{
    let [_, space, extent, base, flags, offset, size, zero, _] = frame.x;
    let refusals = [
        (has_foreign_flags(flags), Errno::ArgInval),
        (
            is_range_unaligned(flags, base, offset, size),
            Errno::ArgAlign,
        ),
        (is_empty_part(flags, size), Errno::ArgSize),
    ];
    let call = Call::Unmap {
        space,
        extent,
        base,
        flags,
        offset,
        size,
    };
    accepted(call, zero, &refusals)
}

pub fn donate(frame: &Frame) -> Result<Call, Errno>
    requires { function_number frame.now ≡ DONATE }
    ensures { result ≡ call_of frame.now }
{
    let [_, options, from, to, offset, size, zero, _, _] = frame.x;
    let refusals = [
        (has_foreign_options(options), Errno::ArgInval),
        (donation_type(options) > TO_SIBLING, Errno::ArgInval),
        (is_either_unaligned(offset, size), Errno::ArgAlign),
        (size == 0, Errno::ArgSize),
    ];
    let call = Call::Donate {
        options,
        from,
        to,
        offset,
        size,
    };
    accepted(call, zero, &refusals)
}

pub fn derive(frame: &Frame) -> Result<Call, Errno>
    requires { function_number frame.now ≡ DERIVE }
    ensures { result ≡ call_of frame.now }
{
    let [_, child, parent, offset, size, access, zero, _, _] = frame.x;
    let refusals = [
        (is_either_unaligned(offset, size), Errno::ArgAlign),
        (size == 0, Errno::ArgSize),
        (is_no_access(access), Errno::ArgInval),
    ];
    let call = Call::Derive {
        child,
        parent,
        offset,
        size,
        access,
    };
    accepted(call, zero, &refusals)
}

pub fn as_lookup(frame: &Frame) -> Result<Call, Errno>
    requires { function_number frame.now ≡ AS_LOOKUP }
    ensures { result ≡ call_of frame.now }
{
    let [_, space, address, zero, ..] = frame.x;
    accepted(Call::AsLookup { space, address }, zero, &[])
}

fn is_unaligned(n: u64) -> bool
    ensures { result ≡ Table.is_unaligned n }
{
    n % PAGE_BYTES != 0
}

fn is_either_unaligned(offset: u64, size: u64) -> bool
    ensures { result ≡ Table.is_unaligned offset || Table.is_unaligned size }
{
    is_unaligned(offset) || is_unaligned(size)
}

/// Offset and size are looked at only where they name a part.
fn is_range_unaligned(flags: u64, base: u64, offset: u64, size: u64) -> bool
    ensures { result ≡ Table.is_unaligned base ||
        (Table.has_partial flags && (Table.is_unaligned offset || Table.is_unaligned size)) }
{
    is_unaligned(base) || has_partial(flags) && is_either_unaligned(offset, size)
}

fn is_empty_part(flags: u64, size: u64) -> bool
    ensures { result ≡ Table.has_partial flags && (size == 0) }
{
    has_partial(flags) && size == 0
}

fn has_partial(flags: u64) -> bool
    ensures { result ≡ Table.has_partial flags }
{
    flags % 2 == PARTIAL
}

fn has_foreign_flags(flags: u64) -> bool
    ensures { result ≡ Table.has_foreign_flags flags }
{
    !(flags == 0 || flags == PARTIAL || flags == NO_SYNC || flags == NO_SYNC + PARTIAL)
}

/// Bits 2 to 0 of the attributes.
fn user_access(attributes: u64) -> u64
    ensures { result ≡ Table.user_access attributes }
{
    attributes % 8
}

/// Bits 6 to 4 of the attributes.
fn kernel_access(attributes: u64) -> u64
    ensures { result ≡ Table.kernel_access attributes }
{
    attributes / 16 % 8
}

/// Bits 3, 15 to 7, and 24 and above. Bits 23 to 16 are the memory type, which may be any.
fn has_foreign_attributes(attributes: u64) -> bool
    ensures { result ≡ Table.has_foreign_attributes attributes }
{
    attributes / 8 % 2 != 0 || attributes / 128 % 512 != 0 || attributes / 16777216 != 0
}

fn is_refused_access(user: u64, kernel: u64) -> bool
    ensures { result ≡ (user == WRITE_EXECUTE) || (kernel == WRITE_EXECUTE) }
{
    user == WRITE_EXECUTE || kernel == WRITE_EXECUTE
}

fn is_no_access(access: u64) -> bool
    ensures { result ≡ (access == 0) || (access == WRITE_EXECUTE) || nat_lt ALL_ACCESS access }
{
    access == 0 || access == WRITE_EXECUTE || access > ALL_ACCESS
}

/// Bits 30 to 8, and 32 and above: all but the type and `NO_SYNC`.
fn has_foreign_options(options: u64) -> bool
    ensures { result ≡ Table.has_foreign_options options }
{
    options / 256 % 8388608 != 0 || options / 4294967296 != 0
}

/// Bits 7 to 0 of the options.
fn donation_type(options: u64) -> u64
    ensures { result ≡ options % 256 }
{
    options % 256
}
