//! The boot files of the worked calls.

use gh_base::NoMemory;
use std::alloc::Global;

/// A partition of 40 units on eight pages, a capability space, an address space and the root
/// extent.
const ONE: &str = "gunyah 1\npages 8\npartition 40\ncspace 1\naddrspace 1\nrootextent 1\n";

/// The same with two of each space, and a doorbell.
const TWO: &str = "gunyah 1\npages 8\npartition 40\ncspace 1\ncspace 1\naddrspace 1\naddrspace 1\n\
                   rootextent 1\ndoorbell 1\n";

fn joined(alloc: Global, front: &str, rest: &str) -> Result<String, NoMemory> {
    let mut text = String::from_str(alloc, front)?;
    text.push_str(rest)?;
    Ok(text)
}

/// A doorbell in slot 7 to send and receive, and in slot 8 to receive alone.
pub(crate) fn doorbell(alloc: Global) -> Result<String, NoMemory> {
    joined(
        alloc,
        ONE,
        "doorbell 1\ncap 2 7 5 3 1\ncap 2 8 5 2 0\nvm 2 3\n",
    )
}

/// A capability space whose 127 slots are filled.
pub(crate) fn full(alloc: Global) -> Result<String, NoMemory> {
    let mut text = joined(alloc, ONE, "doorbell 1\ncap 2 1 1 1 0\ncap 2 2 2 15 0\n")?;
    for slot in 3..128u8 {
        let line = format!(in alloc; "cap 2 {slot} 5 3 0\n")?;
        text.push_str(line.as_str())?;
    }
    text.push_str("vm 2 3\n")?;
    Ok(text)
}

/// Two VMs: the first may change the capability space of the second, which has a doorbell in slot
/// 7.
pub(crate) fn shared_doorbell(alloc: Global) -> Result<String, NoMemory> {
    joined(
        alloc,
        TWO,
        "cap 2 1 7 3 1\ncap 2 6 3 15 0\ncap 3 2 3 15 0\ncap 3 7 7 3 0\nvm 2 4\nvm 3 5\n",
    )
}

/// The first VM has a doorbell's master capability, the second three capabilities of it.
pub(crate) fn three_copies(alloc: Global) -> Result<String, NoMemory> {
    joined(
        alloc,
        TWO,
        "cap 2 1 7 3 1\ncap 3 1 7 3 0\ncap 3 2 7 3 0\ncap 3 3 7 3 0\nvm 2 4\nvm 3 5\n",
    )
}

/// One page that isn't mapped yet.
pub(crate) fn one_page(alloc: Global) -> Result<String, NoMemory> {
    joined(alloc, ONE, "extent 1 4 3 1 7 0 1\ncap 2 4 5 7 1\nvm 2 3\n")
}

/// All pages mapped, and what is needed to make objects.
pub(crate) fn maker(alloc: Global) -> Result<String, NoMemory> {
    joined(
        alloc,
        ONE,
        "extent 1 4 0 8 7 0 8\nmap 3 5 0 0 8 7\ncap 2 1 1 1 0\ncap 2 2 2 15 0\n\
         cap 2 4 5 7 1\nvm 2 3\n",
    )
}

/// Two extents of one span, each of which holds half of it.
pub(crate) fn siblings(alloc: Global) -> Result<String, NoMemory> {
    joined(
        alloc,
        ONE,
        "extent 1 4 0 8 7 0 4\nextent 1 4 0 8 7 4 4\nmap 3 5 0 0 8 7\ncap 2 1 5 7 1\n\
         cap 2 2 6 7 1\nvm 2 3\n",
    )
}

/// The second VM has a doorbell's only capability, a master one, in slot 7; the first may delete it
/// and make objects.
pub(crate) fn lone_doorbell(alloc: Global) -> Result<String, NoMemory> {
    joined(
        alloc,
        TWO,
        "cap 2 1 1 1 0\ncap 2 2 2 15 0\ncap 2 6 3 15 0\ncap 3 7 7 3 1\nvm 2 4\nvm 3 5\n",
    )
}

/// The same in a partition of its own, which has units for the doorbell and one more.
pub(crate) fn narrow_partition(alloc: Global) -> Result<String, NoMemory> {
    joined(
        alloc,
        "gunyah 1\npages 8\npartition 40\npartition 2\n",
        "cspace 1\ncspace 1\naddrspace 1\naddrspace 1\nrootextent 1\ndoorbell 2\n\
         cap 3 1 2 1 0\ncap 3 2 3 15 0\ncap 3 6 4 15 0\ncap 4 7 8 3 1\nvm 3 5\nvm 4 6\n",
    )
}
