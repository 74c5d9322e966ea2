//! The limits of a machine, a file and a run. All are this project's own.

/// Bytes of a page.
pub const PAGE_BYTES: u64 = 4096;

/// The most pages of a machine; the least is 1.
pub const MACHINE_PAGES: u16 = 1024;

/// The most partitions that exist at a time.
pub const PARTITIONS: usize = 8;

/// The most units of a partition's quota; the least is 1.
pub const PARTITION_UNITS: u16 = 128;

/// Places for objects in a partition. Every object costs a unit, so they never run out.
pub const PARTITION_PLACES: usize = 128;

/// Indices of objects: the places of all partitions.
pub const OBJECT_INDICES: usize = 1024;

/// The most capability spaces that exist at a time.
pub const CSPACES: usize = 16;

/// The greatest capability number of a capability space; the least is 1.
pub const CSPACE_SLOTS: u8 = 127;

/// Pages of an address space.
pub const SPACE_PAGES: u64 = 4096;

/// The most mapping rows of an address space.
pub const SPACE_ROWS: usize = 64;

/// The most VMs, beside the resource manager.
pub const VMS: u8 = 8;

/// CPUs of a machine: that of the resource manager and one for each VM.
pub const CPUS: usize = 9;

/// The flags of a new doorbell, and of one after a reset.
pub const NEW_BELL_FLAGS: u64 = 0;

/// The enable mask of a new doorbell, and of one after a reset.
pub const NEW_BELL_ENABLE: u64 = u64::MAX;

/// The ack mask of a new doorbell, and of one after a reset.
pub const NEW_BELL_ACK: u64 = 0;

/// The most messages that a message queue can be configured to hold; the least is 1.
pub const QUEUE_DEPTH: u64 = 64;

/// The most bytes of a message; the least is 1.
pub const MESSAGE_BYTES: usize = 1024;

/// The most memory parcels that are live at a time.
pub const PARCELS: usize = 64;

/// The most bytes of a fragment of a resource manager message.
pub const FRAGMENT_BYTES: usize = 240;

/// The most fragments that follow the first of a message.
pub const FURTHER_FRAGMENTS: u8 = 62;

/// The most calls of all call files of a run, repeats counted.
pub const CALL_FILE_CALLS: u32 = 65_536;

/// The number of a CPU's last possible call, which is the exit call whatever the program.
pub const CALL_NUMBERS: u32 = 458_752;

/// The most entries of a history before which a further act may begin: the act of most entries, a
/// revoke of all capabilities of an object with the sweep before it, has its room below 2^32.
pub const HISTORY_ENTRIES: u32 = 4_294_963_200;

/// The most entries that one act makes.
pub const ACT_ENTRIES: usize = 4096;

/// The most bytes of a boot file, a call file or a schedule.
pub const BOOT_FILE_BYTES: usize = 8_388_608;

/// The most bytes of a history file.
pub const HISTORY_FILE_BYTES: usize = 67_108_864;
