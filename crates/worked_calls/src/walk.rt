//! Calls of every kind at random from a fixed seed. After each, what is told of references, units,
//! access and holders is what sums over the rows give, taken anew.

ghost use Rattle.std.specs.Prelude.{◌<◌, max};

use crate::boots::maker;
use crate::session::{boot, made, reclaim, retire};
use gh_base::{CpuNo, Frame, NoMemory, Sequence, Serial};
use gh_model::{ExtentRow, MappingRow, ObjectRow, Plain, State};
use std::alloc::Global;
use std::test::Fail;

/// The numbers of a walk: each is the number before, times 1103515245, plus 12345, modulo 2^31, and
/// then divided by 65,536.
#[derive(Drop)]
struct Numbers {
    last: u64,
}

impl Numbers {
    /// A number from 0 on, below the bound.
    fn below(&mut self, bound: u64) -> u64
        ensures { result < max bound 1 }
    {
        self.last = self.last.wrapping_mul(1_103_515_245).wrapping_add(12_345) % 0x8000_0000;
        self.last / 65_536 % bound.max(1)
    }
}

/// What a register of a call gets.
#[derive(Clone, Copy)]
enum Operand {
    /// This number.
    Is(u64),
    /// A number from 0 on, below this one.
    Below(u64),
    /// A number from 1 on, up to this one.
    UpTo(u64),
    /// The address of one of the first ten pages, in bytes.
    Page,
    /// The size of one to four pages, in bytes.
    Pages,
}

use Operand::{Below, Is, Page, Pages, UpTo};

/// A capability number, of which the first few are filled.
const CAP: Operand = UpTo(9);

/// All functions but exit, each with its registers x1 to x7; few of these calls are refused for
/// their shape.
const CALLS: [(u64, [Operand; 7]); 23] = [
    (0x8000, [CAP, Below(8), Is(0), Is(0), Is(0), Is(0), Is(0)]),
    (0x8012, [CAP, Below(8), Is(0), Is(0), Is(0), Is(0), Is(0)]),
    (0x8015, [CAP, Below(8), Is(0), Is(0), Is(0), Is(0), Is(0)]),
    (0x801b, [CAP, UpTo(6), Is(0), Is(0), Is(0), Is(0), Is(0)]),
    (0x801c, [CAP, Is(0), UpTo(6), Is(0), Is(0), Is(0), Is(0)]),
    (0x802b, [Is(0), CAP, Page, Is(0x77), Below(2), Page, Pages]),
    (0x802c, [Is(0), CAP, Page, Below(2), Page, Pages, Is(0)]),
    (0x8061, [Below(3), CAP, CAP, Page, Pages, Is(0), Is(0)]),
    (0x8201, [Is(1), Is(2), UpTo(6), Is(0), Is(0), Is(0), Is(0)]),
    (0x8202, [CAP, UpTo(4), Is(0), Is(0), Is(0), Is(0), Is(0)]),
    (0x8203, [CAP, UpTo(3), UpTo(8), Is(0), Is(0), Is(0), Is(0)]),
    (0x8204, [CAP, Is(0), Is(0), Is(0), Is(0), Is(0), Is(0)]),
    (
        0x8210,
        [Is(2), CAP, Below(0x200), Is(0), Is(0), Is(0), Is(0)],
    ),
    (0x8211, [Is(2), UpTo(11), Is(0), Is(0), Is(0), Is(0), Is(0)]),
    (0x8212, [Is(2), UpTo(11), Is(0), Is(0), Is(0), Is(0), Is(0)]),
    (0x8213, [CAP, Is(0), Is(0), Is(0), Is(0), Is(0), Is(0)]),
    (0x8220, [CAP, Below(8), Is(0), Is(0), Is(0), Is(0), Is(0)]),
    (0x8221, [CAP, Is(0), Is(0), Is(0), Is(0), Is(0), Is(0)]),
    (0x8222, [CAP, Is(0), Is(0), Is(0), Is(0), Is(0), Is(0)]),
    (0x8230, [CAP, CAP, Page, Pages, Is(7), Is(0), Is(0)]),
    (0x8231, [Is(0), Page, Is(0), Is(0), Is(0), Is(0), Is(0)]),
    (0x8241, [CAP, Is(1), Is(0), Is(0), Is(0), Is(0), Is(0)]),
    (0x8242, [CAP, Is(0), Is(0), Is(0), Is(0), Is(0), Is(0)]),
];

fn register(numbers: &mut Numbers, operand: Operand) -> u64 {
    match operand {
        Is(number) => number,
        Below(bound) => numbers.below(bound),
        UpTo(bound) => 1 + numbers.below(bound),
        Page => numbers.below(10) * 4_096,
        Pages => (1 + numbers.below(4)) * 4_096,
    }
}

/// How many bytes the call sends: a message as long as its register says, a request of four.
fn length(x: &[u64; 9]) -> usize {
    match x[0] {
        0xc600_801b => x[2] as usize % 8,
        0xc600_8241 => 4,
        _ => 0,
    }
}

fn call(
    alloc: Global,
    function: u64,
    operands: &[Operand],
    numbers: &mut Numbers,
) -> Result<Frame, NoMemory> {
    let mut x = [0; 9];
    x[0] = 0xc600_0000 | function;
    for (value, operand) in x[1..].iter_mut().zip(operands.iter()) {
        *value = register(numbers, *operand);
    }
    let bytes = vec![in alloc; 1; length(&x)]?;
    Ok(Frame {
        x,
        bytes: Sequence::from_vec(bytes),
    })
}

fn sum(counts: &[usize]) -> usize {
    counts
        .iter()
        .fold(0, |sum: usize, count| sum.saturating_add(*count))
}

/// The capability, mapping and extent rows that refer to the object.
fn row_references(state: &State, serial: Serial) -> usize {
    let caps = state.caps.as_slice();
    let extents = state.extents.as_slice();
    let mappings = state.mappings.as_slice();
    sum(&[
        caps.iter()
            .filter(|row| row.valid && row.serial == serial)
            .count(),
        caps.iter().filter(|row| row.cspace == serial).count(),
        mappings
            .iter()
            .filter(|row| row.space == serial || row.extent == serial)
            .count(),
        extents.iter().filter(|row| row.parent == serial).count(),
        extents
            .iter()
            .filter(|row| row.serial == serial && row.parent == Serial(0))
            .count(),
    ])
}

/// What refers to the object, counted row by row.
fn references(state: &State, serial: Serial) -> usize {
    let objects = state.objects.as_slice();
    let cpus = state.cpus.as_slice();
    let partitions = state.partitions.as_slice();
    sum(&[
        row_references(state, serial),
        objects
            .iter()
            .filter(|row| row.partition == serial && row.serial != serial)
            .count(),
        cpus.iter()
            .filter(|row| !row.exited && (row.cspace == serial || row.space == serial))
            .count(),
        partitions
            .iter()
            .filter(|row| row.serial == serial && row.parent == Serial(0))
            .count(),
    ])
}

/// Used units, and those given to partitions that were made by calls.
fn units(state: &State, partition: Serial) -> (u64, u64) {
    let used = state
        .objects
        .as_slice()
        .iter()
        .filter(|row| row.partition == partition)
        .fold(0, |sum: u64, row| sum.saturating_add(row.cost as u64));
    let given = state
        .partitions
        .as_slice()
        .iter()
        .filter(|row| row.parent == partition)
        .fold(0, |sum: u64, row| sum.saturating_add(row.quota as u64));
    (used, given)
}

fn extent(state: &State, serial: Serial) -> Option<ExtentRow> {
    state
        .extents
        .as_slice()
        .iter()
        .copied()
        .find(|row| row.serial == serial)
}

fn holder(state: &State, page: u64) -> Option<Serial> {
    state.holders.as_slice().get(page as usize).copied()
}

/// The machine page and the access that a row gives at a page.
fn shown(state: &State, row: MappingRow, page: u64) -> Option<(u64, u8)> {
    let extent = extent(state, row.extent)?;
    let machine = (extent.first.0 as u64)
        .saturating_add(row.offset)
        .saturating_add(page)
        .saturating_sub(row.base);
    if holder(state, machine) == Some(row.extent) {
        Some((machine, row.access.0))
    } else {
        None
    }
}

fn access(state: &State, space: Serial, page: u64) -> Option<(u64, u8)> {
    let row = state.mappings.as_slice().iter().copied().find(|row| row.space == space
        && row.base <= page
        && page - row.base < row.count)?;
    shown(state, row, page)
}

/// Each page lies in the span of its holder.
fn is_held(state: &State) -> bool {
    state.holders.as_slice().iter().enumerate().all(|(page, holder)| {
        match extent(state, *holder) {
            None => false,
            Some(row) => {
                let first = row.first.0 as usize;
                first <= page && page - first < row.count as usize
            }
        }
    })
}

/// What the machine tells of an object is what the rows give.
fn object_agrees(plain: &Plain, row: ObjectRow) -> bool {
    let state = plain.state();
    let doomed = references(state, row.serial) == 0;
    let units_agree = match plain.units(row.serial) {
        None => true,
        Some((used, _free, given)) => units(state, row.serial) == (used as u64, given as u64),
    };
    plain.doomed(row.serial) == doomed && units_agree
}

fn page_agrees(plain: &Plain, space: Serial, page: u16) -> bool {
    let told = plain
        .access(space, page)
        .map(|found| (found.0.0 as u64, found.1.0));
    told == access(plain.state(), space, page as u64)
}

fn agrees(plain: &Plain) -> bool {
    let state = plain.state();
    is_held(state)
        && state
            .objects
            .as_slice()
            .iter()
            .all(|row| object_agrees(plain, *row))
        && (0..12).all(|page| page_agrees(plain, Serial(3), page))
}

/// Retires and reclaims one object that nothing refers to, if there is one.
fn sweep(alloc: Global, plain: &mut Plain) -> Result<(), Fail> {
    let found = plain
        .state()
        .objects
        .as_slice()
        .iter()
        .copied()
        .find(|row| plain.doomed(row.serial));
    if let Some(row) = found {
        retire(plain, row.serial.0)?;
        reclaim(alloc, plain, row.serial.0)?;
    }
    Ok(())
}

#[test]
fn sums_taken_anew_agree_after_each_call(rt: HostRuntime) -> Result<(), Fail> {
    let alloc = rt.alloc();
    let text = maker(alloc)?;
    let mut plain = boot(alloc, text.as_str())?;
    let mut numbers = Numbers { last: 1 };
    for _ in 0..200 {
        for item in CALLS.iter() {
            let frame = call(alloc, item.0, &item.1, &mut numbers)?;
            made(alloc, &mut plain, CpuNo(1), &frame)?;
            assert!(rt; agrees(&plain), "{frame:?}");
            sweep(alloc, &mut plain)?;
        }
        assert!(rt; agrees(&plain));
    }
    Ok(())
}
