//! The parts of a line: its keyword, and its numbers in order.

ghost use Rattle.std.specs.Prelude.{◌≡◌, ◌≤◌, [], true};
ghost use Rattle.std.specs.Prelude.{length, nat_lt, if◌then◌else◌};
ghost use Rattle.gh_bootfile.specs.Draft.{is_capability_line, is_extent_line};
ghost use Rattle.gh_bootfile.specs.Draft.{is_link_line, is_mapping_line};
ghost use Rattle.gh_bootfile.specs.Grammar.{byte_bound, fields_hold, line_parts};
ghost use Rattle.gh_bootfile.specs.Grammar.{mark_number, serial_bound, small_bound};

use crate::keyword::Keyword;
use crate::number::Numbers;
use gh_base::{Access, BoundedSequence, Rights, Serial, VmId};
use gh_model::BootLine;

/// A keyword and the numbers behind it.
#[derive(Drop)]
pub struct Parts {
    pub keyword: Keyword,
    pub numbers: Numbers,
}

fn numbers_of(numbers: &[u32]) -> Numbers
    requires { length numbers.now ≤ 7 }
    ensures { result ≡ numbers.now }
{
    BoundedSequence::from_slice(numbers)
}

fn serial(serial: Serial) -> u32
    ensures number { result ≡ serial.0 }
    ensures holds { nat_lt serial.0 serial_bound ≡ true }
{
    serial.0
}

fn access_number(access: Access) -> u32
    ensures number { result ≡ access.0 }
    ensures holds { nat_lt access.0 byte_bound ≡ true }
{
    access.0 as u32
}

fn rights_number(rights: Rights) -> u32
    ensures number { result ≡ rights.0 }
    ensures holds { nat_lt rights.0 small_bound ≡ true }
{
    rights.0 as u32
}

fn vm_number(vm: VmId) -> u32
    ensures number { result ≡ vm.0 }
    ensures holds { nat_lt vm.0 byte_bound ≡ true }
{
    vm.0 as u32
}

/// 1 for a master capability, else 0.
fn mark_number(master: bool) -> u32
    ensures { result ≡ mark_number master }
{
    if master { 1 } else { 0 }
}

fn extent_numbers(line: &BootLine) -> Numbers
    ensures numbers { result
        ≡ (if is_extent_line line.now then (line_parts line.now).numbers else []) }
    ensures fields { is_extent_line line.now ≡ true → fields_hold line.now ≡ true }
{
    match *line {
        BootLine::Extent {
            partition,
            parent,
            offset,
            count,
            access,
            held_offset,
            held_count,
        } => numbers_of(&[
            serial(partition),
            serial(parent),
            offset as u32,
            count as u32,
            access_number(access),
            held_offset as u32,
            held_count as u32,
        ]),
        _ => BoundedSequence::new(),
    }
}

fn mapping_numbers(line: &BootLine) -> Numbers
    ensures numbers { result
        ≡ (if is_mapping_line line.now then (line_parts line.now).numbers else []) }
    ensures fields { is_mapping_line line.now ≡ true → fields_hold line.now ≡ true }
{
    match *line {
        BootLine::Map {
            space,
            extent,
            base,
            offset,
            count,
            access,
        } => numbers_of(&[
            serial(space),
            serial(extent),
            base as u32,
            offset as u32,
            count as u32,
            access_number(access),
        ]),
        _ => BoundedSequence::new(),
    }
}

fn capability_numbers(line: &BootLine) -> Numbers
    ensures numbers { result
        ≡ (if is_capability_line line.now then (line_parts line.now).numbers else []) }
    ensures fields { is_capability_line line.now ≡ true → fields_hold line.now ≡ true }
{
    match *line {
        BootLine::Cap {
            cspace,
            slot,
            object,
            rights,
            master,
        } => numbers_of(&[
            serial(cspace),
            slot as u32,
            serial(object),
            rights_number(rights),
            mark_number(master),
        ]),
        _ => BoundedSequence::new(),
    }
}

fn link_numbers(line: &BootLine) -> Numbers
    ensures numbers { result
        ≡ (if is_link_line line.now then (line_parts line.now).numbers else []) }
    ensures fields { is_link_line line.now ≡ true → fields_hold line.now ≡ true }
{
    match *line {
        BootLine::Link {
            vm,
            extent,
            request,
            reply,
        } => numbers_of(&[
            vm_number(vm),
            serial(extent),
            serial(request),
            serial(reply),
        ]),
        _ => BoundedSequence::new(),
    }
}

fn keyword(line: &BootLine) -> Keyword
    ensures { result ≡ (line_parts line.now).keyword }
{
    match line {
        BootLine::Pages { .. } => Keyword::Pages,
        BootLine::Partition { .. } => Keyword::Partition,
        BootLine::Cspace { .. } => Keyword::Cspace,
        BootLine::Addrspace { .. } => Keyword::Addrspace,
        BootLine::Doorbell { .. } => Keyword::Doorbell,
        BootLine::RootExtent { .. } => Keyword::RootExtent,
        BootLine::Extent { .. } => Keyword::Extent,
        BootLine::Msgqueue { .. } => Keyword::Msgqueue,
        BootLine::Map { .. } => Keyword::Map,
        BootLine::Cap { .. } => Keyword::Cap,
        BootLine::Vm { .. } => Keyword::Vm,
        BootLine::Rm { .. } => Keyword::Rm,
        BootLine::Link { .. } => Keyword::Link,
    }
}

fn numbers(line: &BootLine) -> Numbers
    ensures numbers { result ≡ (line_parts line.now).numbers }
    ensures fields { fields_hold line.now ≡ true }
{
    match *line {
        BootLine::Pages { count } => numbers_of(&[count as u32]),
        BootLine::Partition { quota } => numbers_of(&[quota as u32]),
        BootLine::Cspace { partition } => numbers_of(&[serial(partition)]),
        BootLine::Addrspace { partition } => numbers_of(&[serial(partition)]),
        BootLine::Doorbell { partition } => numbers_of(&[serial(partition)]),
        BootLine::RootExtent { partition } => numbers_of(&[serial(partition)]),
        BootLine::Extent { .. } => extent_numbers(line),
        BootLine::Msgqueue {
            partition,
            depth,
            size,
        } => numbers_of(&[serial(partition), depth as u32, size as u32]),
        BootLine::Map { .. } => mapping_numbers(line),
        BootLine::Cap { .. } => capability_numbers(line),
        BootLine::Vm { cspace, space } => numbers_of(&[serial(cspace), serial(space)]),
        BootLine::Rm {
            cspace,
            space,
            partition,
        } => numbers_of(&[serial(cspace), serial(space), serial(partition)]),
        BootLine::Link { .. } => link_numbers(line),
    }
}

/// The parts of a line.
pub(crate) fn line_parts(line: &BootLine) -> Parts
    ensures parts { result ≡ line_parts line.now }
    ensures fields { fields_hold line.now ≡ true }
{
    Parts {
        keyword: keyword(line),
        numbers: numbers(line),
    }
}
