//! Schedules: the CPUs that advance, item by item.

ghost use Rattle.std.specs.Prelude.{◌≡◌, ◌∷◌, ◌++◌, [], All, None};
ghost use Rattle.std.specs.Prelude.{count_by, true, false, ◌⊎◌, IfOk, IfErr, IsErrOf};
ghost use Rattle.std.specs.List.{list_any};
ghost use Rattle.gh_callfile.specs.CallFile.{is_line_feed};
ghost use Rattle.gh_model.specs.Told.{told_number};
ghost use Rattle.gh_callfile.specs.Schedule.{IsBadItem, bad_item, cpus_of, cpu_of, is_cpu_of};
ghost use Rattle.gh_callfile.specs.Schedule.{is_item_among, makes_manager, makes_vm};

use crate::call_file::told;
use gh_base::{CpuNo, Sequence};
use gh_model::{Boot, BootLine, FileErr};
use std::alloc::Global;

/// The CPUs of a boot file.
#[derive(Clone, Copy)]
struct Cpus {
    manager: bool,
    vms: usize,
}

fn makes_vm(line: &BootLine) -> bool
    ensures { result ≡ makes_vm line.now }
{
    match line {
        BootLine::Vm { .. } => true,
        _ => false,
    }
}

fn makes_manager(line: &BootLine) -> bool
    ensures { result ≡ makes_manager line.now }
{
    match line {
        BootLine::Rm { .. } => true,
        _ => false,
    }
}

fn has_manager(lines: &[BootLine]) -> bool
    ensures { result ≡ list_any makes_manager lines.now }
{
    lines.iter().any(|line| makes_manager(line))
}

fn count_vms(lines: &[BootLine]) -> usize
    ensures { result ≡ count_by makes_vm lines.now }
{
    lines.iter().filter(|line| makes_vm(line)).count()
}

/// Whether the byte is a digit of one of the CPUs.
fn is_item(cpus: Cpus, byte: u8) -> bool
    ensures { result ≡ is_item_among cpus.manager cpus.vms byte }
{
    match byte {
        b'0' => cpus.manager,
        b'1'..=b'8' => (byte - b'0') as usize <= cpus.vms,
        _ => false,
    }
}

/// Puts the item's CPU behind those that were read.
fn read_item(
    items: &mut Sequence<CpuNo>,
    cpus: Cpus,
    byte: u8,
    number: usize,
) -> Result<(), FileErr>
    ensures good { IfOk result (λ _. is_item_among cpus.manager cpus.vms byte ≡ true) }
    ensures items { IfOk result (λ _. items.new ≡ items.old ++ cpu_of byte ∷ []) }
    ensures bad { IsErrOf result (FileErr.Bad (told_number number))
        → is_item_among cpus.manager cpus.vms byte ≡ false }
    ensures err { IfErr result
        (λ err. (err ≡ FileErr.NoMemory) ⊎ (err ≡ FileErr.Bad (told_number number))) }
{
    if !is_item(cpus, byte) {
        return Err(FileErr::Bad(told(number)));
    }
    items.push(CpuNo(byte - b'0'))?;
    Ok(())
}

/// Reads a schedule. `Bad` carries its first item that isn't a CPU of this boot file. Items are
/// counted from 1, line feeds aside.
pub fn read_schedule(alloc: Global, text: &[u8], boot: &Boot) -> Result<Vec<CpuNo>, FileErr>
    ensures good { IfOk result (λ _. bad_item boot.now text.now ≡ None) }
    ensures cpus { IfOk result (λ cpus. cpus.items ≡ cpus_of text.now) }
    ensures exist { IfOk result (λ cpus. All (λ cpu. is_cpu_of boot.now cpu.0 ≡ true) cpus.items) }
    ensures bad { IfErr result (IsBadItem (bad_item boot.now text.now)) }
{
    let lines = boot.lines();
    let cpus = Cpus {
        manager: has_manager(lines),
        vms: count_vms(lines),
    };
    let mut items = Sequence::new(alloc);
    let mut number = 1;
    for byte in text {
        if *byte != b'\n' {
            read_item(&mut items, cpus, *byte, number)?;
            number += 1;
        }
    }
    Ok(items.into_vec())
}
