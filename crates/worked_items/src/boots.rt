//! The boot files of the worked histories.

/// One VM with a doorbell: its master capability in slot 7, one that only receives in slot 8.
pub(crate) const OWN_DOORBELL: &str = "gunyah 1\npages 8\npartition 40\ncspace 1\naddrspace 1\n\
    rootextent 1\ndoorbell 1\ncap 2 7 5 3 1\ncap 2 8 5 2 0\nvm 2 3\n";

/// One VM that may make objects in the partition, and has an extent of all pages.
pub(crate) const OWN_EXTENT: &str = "gunyah 1\npages 8\npartition 40\ncspace 1\naddrspace 1\n\
    rootextent 1\nextent 1 4 0 8 7 0 8\nmap 3 5 0 0 8 7\ncap 2 1 1 1 0\ncap 2 2 2 15 0\n\
    cap 2 4 5 7 1\nvm 2 3\n";

/// Two VMs: the first has a doorbell's master capability and may change the capability space of the
/// second, which has a capability of the doorbell in slot 7.
pub(crate) const SHARED_DOORBELL: &str = "gunyah 1\npages 8\npartition 40\ncspace 1\ncspace 1\n\
    addrspace 1\naddrspace 1\nrootextent 1\ndoorbell 1\ncap 2 1 7 3 1\ncap 2 6 3 15 0\n\
    cap 3 2 3 15 0\ncap 3 7 7 3 0\nvm 2 4\nvm 3 5\n";

/// Two VMs: the second has a doorbell, and the first may make objects and change the second's
/// capability space.
pub(crate) const OTHERS_DOORBELL: &str = "gunyah 1\npages 8\npartition 40\ncspace 1\ncspace 1\n\
    addrspace 1\naddrspace 1\nrootextent 1\ndoorbell 1\ncap 2 1 1 1 0\ncap 2 2 2 15 0\n\
    cap 2 6 3 15 0\ncap 3 7 7 3 1\nvm 2 4\nvm 3 5\n";

/// The second partition has room for one object, the doorbell of the second VM. The first VM may
/// make objects there, and change the second's capability space.
pub(crate) const FULL_PARTITION: &str = "gunyah 1\npages 8\npartition 40\npartition 2\ncspace 1\n\
    cspace 1\naddrspace 1\naddrspace 1\nrootextent 1\ndoorbell 2\ncap 3 1 2 1 0\n\
    cap 3 2 3 15 0\ncap 3 6 4 15 0\ncap 4 7 8 3 1\nvm 3 5\nvm 4 6\n";
