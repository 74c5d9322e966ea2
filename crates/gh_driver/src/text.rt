//! The history text.

ghost use Rattle.std.specs.Prelude.{◌≡◌, ◌+◌, ◌<◌, ◌^◌, ◌++◌};
ghost use Rattle.std.specs.Prelude.{ℕ, OnOk, IfOk, IfSome, string_bytes, filter};
ghost use Rattle.std.specs.List.{flat_map, enumerate_from, list_any};
ghost use Rattle.gh_driver.specs.Mapped.{maps_page};
ghost use Rattle.gh_model.specs.Access.{access_at};
ghost use Rattle.gh_model.specs.Boot.{is_row_of};
ghost use Rattle.gh_model.specs.Small.{IsSmall};
ghost use Rattle.gh_model.specs.Text.{spaced, spaced_register, byte_text, entry_words, entry_line};
ghost use Rattle.gh_model.specs.Text.{look_words, held_words, end_words, bytes_words, reply_words};
ghost use Rattle.gh_model.specs.Text.{call_head, call_line, cpu_lines, units_line, run_line};
ghost use Rattle.gh_model.specs.Text.{ended_run, open_run, goes_on_with, runs_from, space_lines};
ghost use Rattle.gh_model.specs.Text.{entries_part, calls_part, state_part, is_partition_row};
ghost use Rattle.gh_model.specs.Text.{is_space_row, no_run, pages_from, history_text as text_of};

use crate::run::{Finished, cpus};
use gh_base::{Access, CpuNo, End, Held, Kind, Look, Mark, NoMemory, PageNo, Reply, Serial};
use gh_model::{CpuRow, Entry, MappingRow, ObjectRow, PageRun, State};
use std::alloc::Global;

/// The pages of an address space.
const PAGES: u16 = 4096;

/// A space and a number of one digit, which is the same in both bases; most numbers are such. None
/// for a greater number.
#[tactic(auto, using(std::proofs::lemmas::Fmt::decimal_digit, std::proofs::lemmas::Fmt::hex_one_digit))]
fn one_digit(n: u64) -> Option<&'static str>
    ensures decimal { IfSome result (λ text. text.now ≡ spaced n) }
    ensures hexadecimal { IfSome result (λ text. text.now ≡ spaced_register n) }
{
    match n {
        0 => Some(" 0"),
        1 => Some(" 1"),
        2 => Some(" 2"),
        3 => Some(" 3"),
        4 => Some(" 4"),
        5 => Some(" 5"),
        6 => Some(" 6"),
        7 => Some(" 7"),
        8 => Some(" 8"),
        9 => Some(" 9"),
        _ => None,
    }
}

fn put(out: &mut String, n: u64) -> Result<(), NoMemory>
    ensures { OnOk result (string_bytes out.new ≡ string_bytes out.old ++ spaced n) }
{
    match one_digit(n) {
        Some(text) => out.push_str(text)?,
        None => write!(out, " {n}")?,
    }
    Ok(())
}

fn put_register(out: &mut String, x: u64) -> Result<(), NoMemory>
    ensures { OnOk result (string_bytes out.new ≡ string_bytes out.old ++ spaced_register x) }
{
    match one_digit(x) {
        Some(text) => out.push_str(text)?,
        None => write!(out, " {x:x}")?,
    }
    Ok(())
}

#[tactic(auto, using(std::proofs::lemmas::Fmt::hex_byte))]
fn put_byte(out: &mut String, byte: u8) -> Result<(), NoMemory>
    ensures { OnOk result (string_bytes out.new ≡ string_bytes out.old ++ byte_text byte) }
{
    write!(out, "{byte:02x}")?;
    Ok(())
}

fn put_counters(out: &mut String, seen: &[u64]) -> Result<(), NoMemory>
    ensures { OnOk result
        (string_bytes out.new ≡ string_bytes out.old ++ flat_map spaced seen.now) }
{
    for counter in seen {
        put(out, *counter)?;
    }
    Ok(())
}

fn put_part(
    out: &mut String,
    cpu: CpuNo,
    number: u32,
    space: Serial,
    slot: u8,
) -> Result<(), NoMemory>
    ensures { OnOk result
        (string_bytes out.new
        ≡ string_bytes out.old ++ entry_words (Entry.Part cpu number space slot)) }
{
    out.push_str(" part")?;
    put(out, cpu.0 as u64)?;
    put(out, number as u64)?;
    put(out, space.0 as u64)?;
    put(out, slot as u64)
}

/// What an entry says behind its number.
fn put_entry(out: &mut String, entry: &Entry) -> Result<(), NoMemory>
    ensures { OnOk result (string_bytes out.new ≡ string_bytes out.old ++ entry_words entry.now) }
{
    match entry {
        Entry::Acted { cpu, number } => {
            out.push_str(" act")?;
            put(out, cpu.0 as u64)?;
            put(out, *number as u64)
        }
        Entry::Part {
            cpu,
            number,
            space,
            slot,
        } => put_part(out, *cpu, *number, *space, *slot),
        Entry::Retired { serial, seen } => {
            out.push_str(" retire")?;
            put(out, serial.0 as u64)?;
            put_counters(out, seen.as_slice())
        }
        Entry::Reclaimed { serial, seen } => {
            out.push_str(" reclaim")?;
            put(out, serial.0 as u64)?;
            put_counters(out, seen.as_slice())
        }
    }
}

fn put_entry_line(out: &mut String, number: u64, entry: &Entry) -> Result<(), NoMemory>
    ensures { OnOk result
        (string_bytes out.new ≡ string_bytes out.old ++ entry_line (number, entry.now)) }
{
    write!(out, "{number}")?;
    put_entry(out, entry)?;
    out.push_str("\n")?;
    Ok(())
}

fn put_entries(out: &mut String, entries: &[Entry]) -> Result<(), NoMemory>
    ensures { OnOk result
        (string_bytes out.new
        ≡ string_bytes out.old ++ flat_map entry_line (enumerate_from 1 entries.now)) }
{
    for (at, entry) in entries.iter().enumerate() {
        put_entry_line(out, at as u64 + 1, entry)?;
    }
    Ok(())
}

fn put_looks(out: &mut String, looks: &[Look]) -> Result<(), NoMemory>
    ensures { OnOk result
        (string_bytes out.new ≡ string_bytes out.old ++ flat_map look_words looks.now) }
{
    for look in looks {
        put_look(out, look)?;
    }
    Ok(())
}

fn put_look(out: &mut String, look: &Look) -> Result<(), NoMemory>
    ensures { OnOk result (string_bytes out.new ≡ string_bytes out.old ++ look_words look.now) }
{
    out.push_str(" look")?;
    put(out, look.slot)?;
    put(out, look.place as u64)
}

fn put_held(out: &mut String, held: &Held) -> Result<(), NoMemory>
    ensures { OnOk result (string_bytes out.new ≡ string_bytes out.old ++ held_words held.now) }
{
    match *held {
        Held::Pins { serial, pins } => {
            out.push_str(" pins")?;
            put(out, serial.0 as u64)?;
            put(out, pins)
        }
        Held::Reading {
            serial,
            cpu,
            counter,
        } => {
            out.push_str(" reading")?;
            put(out, serial.0 as u64)?;
            put(out, cpu.0 as u64)?;
            put(out, counter)
        }
    }
}

fn put_all_held(out: &mut String, held: &[Held]) -> Result<(), NoMemory>
    ensures { OnOk result
        (string_bytes out.new ≡ string_bytes out.old ++ flat_map held_words held.now) }
{
    for cause in held {
        put_held(out, cause)?;
    }
    Ok(())
}

fn put_end(out: &mut String, end: &End) -> Result<(), NoMemory>
    ensures { OnOk result (string_bytes out.new ≡ string_bytes out.old ++ end_words end.now) }
{
    match end {
        End::Frame => out.push_str(" frame")?,
        End::Refused => out.push_str(" refused")?,
        End::Dead => out.push_str(" dead")?,
        End::Act { place } => {
            out.push_str(" act")?;
            put(out, *place as u64)?;
        }
        End::Short { place, held } => {
            out.push_str(" short")?;
            put(out, *place as u64)?;
            put_all_held(out, held.as_slice())?;
        }
        End::Entry { number } => {
            out.push_str(" entry")?;
            put(out, *number as u64)?;
        }
    }
    Ok(())
}

fn put_each_byte(out: &mut String, bytes: &[u8]) -> Result<(), NoMemory>
    ensures { OnOk result
        (string_bytes out.new ≡ string_bytes out.old ++ flat_map byte_text bytes.now) }
{
    for byte in bytes {
        put_byte(out, *byte)?;
    }
    Ok(())
}

/// The bytes of a reply that has some.
fn put_bytes(out: &mut String, bytes: &[u8]) -> Result<(), NoMemory>
    ensures { OnOk result (string_bytes out.new ≡ string_bytes out.old ++ bytes_words bytes.now) }
{
    if bytes.is_empty() {
        return Ok(());
    }
    out.push_str(" : ")?;
    put_each_byte(out, bytes)
}

fn put_registers(out: &mut String, registers: &[u64]) -> Result<(), NoMemory>
    ensures { OnOk result
        (string_bytes out.new ≡ string_bytes out.old ++ flat_map spaced_register registers.now) }
{
    for register in registers {
        put_register(out, *register)?;
    }
    Ok(())
}

fn put_reply(out: &mut String, reply: &Reply) -> Result<(), NoMemory>
    ensures { OnOk result (string_bytes out.new ≡ string_bytes out.old ++ reply_words reply.now) }
{
    out.push_str(" =")?;
    put_registers(out, &reply.x)?;
    put_bytes(out, reply.bytes.as_slice())
}

fn put_call_head(out: &mut String, mark: &Mark) -> Result<(), NoMemory>
    ensures { OnOk result (string_bytes out.new ≡ string_bytes out.old ++ call_head mark.now) }
{
    out.push_str("call")?;
    put(out, mark.cpu.0 as u64)?;
    put(out, mark.number as u64)?;
    put(out, mark.section)
}

fn put_call(out: &mut String, mark: &Mark) -> Result<(), NoMemory>
    ensures { OnOk result (string_bytes out.new ≡ string_bytes out.old ++ call_line mark.now) }
{
    put_call_head(out, mark)?;
    put_looks(out, mark.looks.as_slice())?;
    put_end(out, &mark.end)?;
    put_reply(out, &mark.reply)?;
    out.push_str("\n")?;
    Ok(())
}

/// The calls of one CPU.
fn put_cpu(out: &mut String, marks: &[Mark], row: &CpuRow) -> Result<(), NoMemory>
    ensures { OnOk result
        (string_bytes out.new ≡ string_bytes out.old ++ cpu_lines marks.now row.now) }
{
    let cpu = row.cpu;
    for mark in marks {
        if mark.cpu == cpu {
            put_call(out, mark)?;
        }
    }
    Ok(())
}

fn put_cpus(out: &mut String, marks: &[Mark], rows: &[CpuRow]) -> Result<(), NoMemory>
    ensures { OnOk result
        (string_bytes out.new ≡ string_bytes out.old ++ flat_map (cpu_lines marks.now) rows.now) }
{
    for row in rows {
        put_cpu(out, marks, row)?;
    }
    Ok(())
}

/// The units of a live partition.
fn put_units(out: &mut String, state: &State, row: &ObjectRow) -> Result<(), NoMemory>
    requires { IsSmall state.now }
    ensures { OnOk result
        (string_bytes out.new ≡ string_bytes out.old ++ units_line state.now row.now) }
{
    let partition = row.serial;
    out.push_str("units")?;
    put(out, partition.0 as u64)?;
    put(out, state.used_units(partition) as u64)?;
    put(out, state.free_units(partition) as u64)?;
    put(out, state.given_units(partition) as u64)?;
    out.push_str("\n")?;
    Ok(())
}

fn put_partitions(out: &mut String, state: &State, rows: &[ObjectRow]) -> Result<(), NoMemory>
    requires { IsSmall state.now }
    ensures { OnOk result
        (string_bytes out.new
        ≡ string_bytes out.old
        ++ flat_map (units_line state.now) (filter is_partition_row rows.now)) }
{
    for row in rows {
        if row.kind == Kind::Partition {
            put_units(out, state, row)?;
        }
    }
    Ok(())
}

fn put_run(out: &mut String, space: Serial, run: &PageRun) -> Result<(), NoMemory>
    ensures { OnOk result
        (string_bytes out.new ≡ string_bytes out.old ++ run_line space.0 run.now) }
{
    out.push_str("access")?;
    put(out, space.0 as u64)?;
    put(out, run.page as u64)?;
    put(out, run.count as u64)?;
    put(out, run.machine.0 as u64)?;
    put(out, run.access.0 as u64)?;
    out.push_str("\n")?;
    Ok(())
}

/// The line of a run that doesn't go on.
fn put_ended(out: &mut String, space: Serial, run: &PageRun, goes: bool) -> Result<(), NoMemory>
    ensures { OnOk result
        (string_bytes out.new ≡ string_bytes out.old ++ ended_run space.0 run.now goes) }
{
    if goes || run.count == 0 {
        return Ok(());
    }
    put_run(out, space, run)
}

fn continues(run: &PageRun, found: Option<(PageNo, Access)>) -> bool
    ensures { result ≡ goes_on_with run.now found }
{
    match found {
        None => false,
        Some((machine, access)) => {
            run.count != 0
                && machine.0 as u32 == run.machine.0 as u32 + run.count as u32
                && access.0 == run.access.0
        }
    }
}

/// The run that is open after a page.
fn after_page(run: PageRun, page: u16, found: Option<(PageNo, Access)>) -> PageRun
    requires { run.count < 65535 }
    ensures { result ≡ open_run run page found }
{
    let goes = continues(&run, found);
    match found {
        None => PageRun::NONE,
        Some((machine, access)) => {
            if goes {
                PageRun {
                    count: run.count + 1,
                    ..run
                }
            } else {
                PageRun {
                    page,
                    count: 1,
                    machine,
                    access,
                }
            }
        }
    }
}

/// The mapping rows of an address space.
fn rows_of(alloc: Global, rows: &[MappingRow], space: Serial) -> Result<Vec<MappingRow>, NoMemory>
    ensures { IfOk result (λ own. own.items ≡ filter (is_row_of space.0) rows.now) }
{
    let own = rows.iter().copied().filter(|row| row.space == space);
    Ok(own.collect(alloc)?)
}

/// Whether the row maps the page.
fn maps_page(row: &MappingRow, page: u16) -> bool
    ensures { result ≡ maps_page page row.now }
{
    let end = row.base as u128 + row.count as u128;
    row.base <= page as u64 && end > page as u128
}

fn any_maps(rows: &[MappingRow], page: u16) -> bool
    ensures { result ≡ list_any (maps_page page) rows.now }
{
    rows.iter().any(|row| maps_page(row, page))
}

/// The access at a page of an address space with these rows of its own. Those of other spaces are
/// walked only where it is mapped.
#[tactic(auto, using(crate::proofs::TextLemmas::unmapped))]
fn access(state: &State, own: &[MappingRow], space: Serial, page: u16) -> Option<(PageNo, Access)>
    requires small { IsSmall state.now }
    requires own { own.now ≡ filter (is_row_of space.0) state.now.mappings }
    ensures { result ≡ access_at state.now space.0 page }
{
    if any_maps(own, page) {
        state.access(space, page)
    } else {
        None
    }
}

/// The longest runs of pages of an address space with these rows of its own.
fn put_pages(
    out: &mut String,
    state: &State,
    own: &[MappingRow],
    space: Serial,
) -> Result<(), NoMemory>
    requires small { IsSmall state.now }
    requires own { own.now ≡ filter (is_row_of space.0) state.now.mappings }
    ensures { OnOk result
        (string_bytes out.new
        ≡ string_bytes out.old ++ runs_from state.now space.0 no_run (pages_from 0 4096)) }
{
    let mut run = PageRun::NONE;
    for page in 0..PAGES {
        let found = access(state, own, space, page);
        put_ended(out, space, &run, continues(&run, found))?;
        run = after_page(run, page, found);
    }
    put_ended(out, space, &run, false)
}

/// The longest runs of pages of an address space.
fn put_space(alloc: Global, out: &mut String, state: &State, space: Serial) -> Result<(), NoMemory>
    requires { IsSmall state.now }
    ensures { OnOk result
        (string_bytes out.new
        ≡ string_bytes out.old ++ runs_from state.now space.0 no_run (pages_from 0 4096)) }
{
    let own = rows_of(alloc, state.mappings.as_slice(), space)?;
    put_pages(out, state, own.as_slice(), space)
}

fn put_spaces(
    alloc: Global,
    out: &mut String,
    state: &State,
    rows: &[ObjectRow],
) -> Result<(), NoMemory>
    requires { IsSmall state.now }
    ensures { OnOk result
        (string_bytes out.new
        ≡ string_bytes out.old ++ flat_map (space_lines state.now) (filter is_space_row rows.now)) }
{
    for row in rows {
        if row.kind == Kind::Space {
            put_space(alloc, out, state, row.serial)?;
        }
    }
    Ok(())
}

fn put_history(out: &mut String, entries: &[Entry]) -> Result<(), NoMemory>
    ensures { OnOk result
        (string_bytes out.new ≡ string_bytes out.old ++ entries_part entries.now) }
{
    out.push_str("history")?;
    put(out, entries.len() as u64)?;
    out.push_str("\n")?;
    put_entries(out, entries)
}

fn put_calls(alloc: Global, out: &mut String, marks: &[Mark], state: &State) -> Result<(), NoMemory>
    ensures { OnOk result
        (string_bytes out.new ≡ string_bytes out.old ++ calls_part marks.now state.now) }
{
    let rows = cpus(alloc, state.cpus.as_slice())?;
    out.push_str("calls")?;
    put(out, marks.len() as u64)?;
    out.push_str("\n")?;
    put_cpus(out, marks, rows.as_slice())
}

fn put_state(alloc: Global, out: &mut String, state: &State) -> Result<(), NoMemory>
    requires { IsSmall state.now }
    ensures { OnOk result (string_bytes out.new ≡ string_bytes out.old ++ state_part state.now) }
{
    out.push_str("state\n")?;
    put_partitions(out, state, state.objects.as_slice())?;
    put_spaces(alloc, out, state, state.objects.as_slice())?;
    out.push_str("end\n")?;
    Ok(())
}

/// The text of a finished run: its history, its calls, and the state after it.
pub fn history_text(alloc: Global, done: &Finished) -> Result<String, NoMemory>
    ensures { IfOk result
        (λ text. string_bytes text ≡ text_of done.now.history done.now.marks done.now.state) }
{
    let mut out = String::new(alloc);
    put_history(&mut out, done.history.as_slice())?;
    put_calls(alloc, &mut out, done.marks.as_slice(), done.state.state())?;
    put_state(alloc, &mut out, done.state.state())?;
    Ok(out)
}
