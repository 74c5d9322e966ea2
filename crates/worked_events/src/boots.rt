//! The boot files of the worked histories.

/// Two VMs: the first may change the capability space of the second, which has a doorbell in slot
/// 7.
pub(crate) const SHARED_DOORBELL: &str = "gunyah 1\npages 8\npartition 40\ncspace 1\ncspace 1\n\
    addrspace 1\naddrspace 1\nrootextent 1\ndoorbell 1\ncap 2 1 7 3 1\ncap 2 6 3 15 0\n\
    cap 3 2 3 15 0\ncap 3 7 7 3 0\nvm 2 4\nvm 3 5\n";

/// The first VM has a doorbell's master capability, the second three capabilities of it.
pub(crate) const THREE_COPIES: &str = "gunyah 1\npages 8\npartition 40\ncspace 1\ncspace 1\n\
    addrspace 1\naddrspace 1\nrootextent 1\ndoorbell 1\ncap 2 1 7 3 1\ncap 3 1 7 3 0\n\
    cap 3 2 7 3 0\ncap 3 3 7 3 0\nvm 2 4\nvm 3 5\n";

/// The second partition has room for one object, the doorbell of the second VM. The first VM may
/// make objects there, and change the second's capability space.
pub(crate) const FULL_PARTITION: &str = "gunyah 1\npages 8\npartition 40\npartition 2\ncspace 1\n\
    cspace 1\naddrspace 1\naddrspace 1\nrootextent 1\ndoorbell 2\ncap 3 1 2 1 0\n\
    cap 3 2 3 15 0\ncap 3 6 4 15 0\ncap 4 7 8 3 1\nvm 3 5\nvm 4 6\n";
