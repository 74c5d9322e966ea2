//! The boot files of the worked calls.

use gh_base::NoMemory;
use std::alloc::Global;

/// A partition of 40 units on eight pages, a capability space, an address space and the root
/// extent.
const ONE: &str = "gunyah 1\npages 8\npartition 40\ncspace 1\naddrspace 1\nrootextent 1\n";

/// The same with two of each space, and a doorbell.
const TWO: &str = "gunyah 1\npages 8\npartition 40\ncspace 1\ncspace 1\naddrspace 1\naddrspace 1\n\
                   rootextent 1\ndoorbell 1\n";

fn joined(alloc: Global, front: &str, rest: &str) -> Result<String, NoMemory> {
    let mut text = String::from_str(alloc, front)?;
    text.push_str(rest)?;
    Ok(text)
}

/// The first VM has a doorbell's master capability, the second three capabilities of it.
pub(crate) fn three_copies(alloc: Global) -> Result<String, NoMemory> {
    joined(
        alloc,
        TWO,
        "cap 2 1 7 3 1\ncap 3 1 7 3 0\ncap 3 2 7 3 0\ncap 3 3 7 3 0\nvm 2 4\nvm 3 5\n",
    )
}

/// All pages mapped, and what is needed to make objects.
pub(crate) fn maker(alloc: Global) -> Result<String, NoMemory> {
    joined(
        alloc,
        ONE,
        "extent 1 4 0 8 7 0 8\nmap 3 5 0 0 8 7\ncap 2 1 1 1 0\ncap 2 2 2 15 0\n\
         cap 2 4 5 7 1\nvm 2 3\n",
    )
}
