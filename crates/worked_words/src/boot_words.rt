//! The words of a boot file, and the turn.

use gh_base::{CpuNo, Frame, Sequence};
use gh_bootfile::read_boot;
use gh_words::PlainWords;
use std::rt::HostRuntime;

/// Two VMs and a doorbell.
const BOOT: &str = "gunyah 1\npages 8\npartition 40\ncspace 1\ncspace 1\naddrspace 1\n\
    addrspace 1\nrootextent 1\ndoorbell 1\ncap 2 1 7 3 1\ncap 3 7 7 3 0\nvm 2 4\nvm 3 5\n";

#[test]
fn a_turn_of_new_words_is_taken(rt: HostRuntime) {
    let alloc = rt.alloc();
    let boot = read_boot(alloc, BOOT.as_bytes()).expect(&rt, "a boot file");
    let mut words = PlainWords::new(alloc, &boot).expect(&rt, "memory");
    let frame = Frame {
        x: [0; 9],
        bytes: Sequence::new(alloc),
    };
    words
        .take(alloc, CpuNo(1), 1, &frame, &[])
        .expect(&rt, "memory");
    assert!(rt; words.turn().is_some());
    assert!(rt; words.entries().is_empty());
}
