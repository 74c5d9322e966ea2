//! Plain words before any event: those of a boot file.

ghost use Rattle.std.specs.Prelude.{◌≡◌, ◌<◌, ℕ, IfOk, Some, map, slice_get};
ghost use Rattle.std.specs.List.{list_any};
ghost use Rattle.gh_base.specs.declared.limits.TheConstants.{CPUS, OBJECT_INDICES};
ghost use Rattle.gh_events.specs.Entries.{shown};
ghost use Rattle.gh_events.specs.Start.{start};
ghost use Rattle.gh_model.specs.Boot.{boot_state};
ghost use Rattle.gh_model.specs.References.{is_slot_of};
ghost use Rattle.gh_model.specs.Marks.{cspace_of};
ghost use Rattle.gh_schedules.specs.Indices.{boot_index as boot_index_of};
ghost use Rattle.gh_words.specs.Booting.{AreBooted, HasFew, HasIndices, boot_word, has_slots};
ghost use Rattle.gh_words.specs.Booting.{home_index, is_set_in, placed_word, row_number, slot_word};
ghost use Rattle.gh_words.specs.Booting.{space_at};
ghost use Rattle.gh_words.specs.Shows.{Shows};
ghost use Rattle.gh_words.specs.Turns.{IsFree};

use crate::boot_counts::references;
use crate::boot_index::{boot_index, boot_numbers, object_at};
use crate::log::Log;
use crate::plain_words::{CAP_WORDS, PlainWords, ReferenceWord, SLOT_WORDS};
use crate::table::Table;
use gh_base::{CPUS, CapWord, CpuNo, NoMemory, OBJECT_INDICES, ObjIndex, Serial};
use gh_model::{Boot, Plain, State, StateReads, Word, cpu_row};
use std::alloc::Global;

/// The reference word of an index.
fn boot_word(boot: &State, numbers: &[u16], at: u16) -> ReferenceWord
    requires few { HasFew boot.now }
    requires numbers { numbers.now ≡ map (row_number boot.now) boot.now.objects }
    ensures { result ≡ boot_word boot.now at }
{
    match object_at(boot, numbers, at) {
        None => ReferenceWord {
            count: 0,
            dead: true,
        },
        Some(row) => ReferenceWord {
            count: references(boot, row.serial),
            dead: false,
        },
    }
}

/// The reference words.
fn boot_references(
    alloc: Global,
    boot: &State,
    numbers: &[u16],
) -> Result<Table<ReferenceWord, OBJECT_INDICES>, NoMemory>
    requires few { HasFew boot.now }
    requires numbers { numbers.now ≡ map (row_number boot.now) boot.now.objects }
    ensures { IfOk result (λ words. (at : ℕ) → at < OBJECT_INDICES
        → slice_get words at ≡ Some (boot_word boot.now at)) }
{
    let mut words = Table::filled(alloc, ReferenceWord::default())?;
    for at in 0..OBJECT_INDICES {
        words.set(at, boot_word(boot, numbers, at as u16));
    }
    Ok(words)
}

fn has_capabilities(boot: &State, object: Serial) -> bool
    ensures { result ≡ list_any (is_slot_of object.0) boot.now.caps }
{
    boot.caps.as_slice().iter().any(|row| row.cspace == object)
}

fn has_settings(boot: &State, object: Serial) -> bool
    ensures { result ≡ list_any (is_set_in object.0) boot.now.set_at }
{
    boot.set_at
        .as_slice()
        .iter()
        .any(|row| row.cspace == object)
}

/// Whether a capability lies in the object, or an entry set a slot of it.
fn has_slots(boot: &State, object: Serial) -> bool
    ensures { result ≡ has_slots boot.now object.0 }
{
    has_capabilities(boot, object) || has_settings(boot, object)
}

/// The object at an index, where it has slots.
fn space_at(boot: &State, numbers: &[u16], at: u16) -> Option<Serial>
    requires { numbers.now ≡ map (row_number boot.now) boot.now.objects }
    ensures { result ≡ space_at boot.now at }
{
    let serial = match object_at(boot, numbers, at) {
        None => Serial(0),
        Some(row) => row.serial,
    };
    if has_slots(boot, serial) {
        Some(serial)
    } else {
        None
    }
}

/// The objects with slots, by index.
fn boot_spaces(
    alloc: Global,
    boot: &State,
    numbers: &[u16],
) -> Result<Table<Option<Serial>, OBJECT_INDICES>, NoMemory>
    requires { numbers.now ≡ map (row_number boot.now) boot.now.objects }
    ensures { IfOk result (λ spaces. (at : ℕ) → at < OBJECT_INDICES
        → slice_get spaces at ≡ Some (space_at boot.now at)) }
{
    let mut spaces = Table::filled(alloc, None)?;
    for at in 0..OBJECT_INDICES {
        spaces.set(at, space_at(boot, numbers, at as u16));
    }
    Ok(spaces)
}

/// A word of the state with the index of its object.
fn bits_of(boot: &State, word: Word) -> CapWord
    requires { HasIndices boot.now }
    ensures { result.0 ≡ shown (boot_index_of boot.now) word }
{
    match word.row {
        None => CapWord::empty(word.set_at),
        Some(row) => CapWord::filled(
            row.valid,
            row.kind,
            row.master,
            ObjIndex(boot_index(boot, row.serial)),
            row.rights,
            word.set_at,
        ),
    }
}

/// The word of a slot of an object.
fn slot_word(boot: &State, space: Option<Serial>, slot: usize) -> CapWord
    requires { HasIndices boot.now }
    ensures { result ≡ slot_word boot.now space slot }
{
    match space {
        None => CapWord(0),
        Some(space) => bits_of(boot, StateReads::word(boot, space, slot as u64)),
    }
}

/// The capability words.
fn boot_caps(
    alloc: Global,
    boot: &State,
    spaces: &Table<Option<Serial>, OBJECT_INDICES>,
) -> Result<Table<CapWord, CAP_WORDS>, NoMemory>
    requires indices { HasIndices boot.now }
    requires spaces { (at : ℕ) → at < OBJECT_INDICES
        → slice_get spaces.now at ≡ Some (space_at boot.now at) }
    ensures { IfOk result (λ words. (place : ℕ) → place < CAP_WORDS
        → slice_get words place ≡ Some (placed_word boot.now place)) }
{
    let mut words = Table::filled(alloc, CapWord(0))?;
    for place in 0..CAP_WORDS {
        let space = spaces.get(place / SLOT_WORDS);
        words.set(place, slot_word(boot, space, place % SLOT_WORDS));
    }
    Ok(words)
}

/// The index of a CPU's capability space.
fn home_of(boot: &State, cpu: CpuNo) -> ObjIndex
    requires { HasIndices boot.now }
    ensures { result.0 ≡ boot_index_of boot.now (cspace_of boot.now cpu.0) }
{
    let space = match cpu_row(boot.cpus.as_slice(), cpu) {
        None => Serial(0),
        Some(row) => row.cspace,
    };
    ObjIndex(boot_index(boot, space))
}

/// Those of all CPUs.
fn homes(alloc: Global, boot: &State) -> Result<Table<ObjIndex, CPUS>, NoMemory>
    requires { HasIndices boot.now }
    ensures { IfOk result (λ homes. (cpu : ℕ) → cpu < CPUS
        → slice_get homes cpu ≡ Some (home_index boot.now cpu)) }
{
    let mut homes = Table::filled(alloc, ObjIndex(0))?;
    for cpu in 0..CPUS {
        homes.set(cpu, home_of(boot, CpuNo(cpu as u8)));
    }
    Ok(homes)
}

/// The words of a boot state.
fn words_of(alloc: Global, boot: &State) -> Result<PlainWords, NoMemory>
    requires indices { HasIndices boot.now }
    requires few { HasFew boot.now }
    ensures { IfOk result (λ words. AreBooted words boot.now) }
{
    let numbers = boot_numbers(alloc, boot)?;
    let spaces = boot_spaces(alloc, boot, numbers.as_slice())?;
    let caps = boot_caps(alloc, boot, &spaces)?;
    let homes = homes(alloc, boot)?;
    let references = boot_references(alloc, boot, numbers.as_slice())?;
    Ok(PlainWords {
        caps,
        references,
        counters: [0; CPUS],
        homes,
        places: [0; CPUS],
        log: Log::new(alloc),
        turn: None,
        rings: 0,
    })
}

impl PlainWords {
    /// The words of a boot file: an empty history, and the turn free. Each partition's objects have
    /// the indices of a block.
    pub fn new(alloc: Global, boot: &Boot) -> Result<PlainWords, NoMemory>
        ensures shown { IfOk result (λ words. Shows words
            (start (boot_state boot.now) (boot_index_of (boot_state boot.now)))) }
        ensures free { IfOk result IsFree }
        ensures bell { IfOk result (λ words. words.rings ≡ 0) }
    {
        let _lines = boot.lines();
        let plain = Plain::boot(alloc, boot)?;
        words_of(alloc, plain.state())
    }
}
