//! The CPUs' counters of read sections.

ghost use Rattle.std.specs.Prelude.{◌≡◌};
ghost use Rattle.gh_base.specs.Counters.{is_odd};

use crate::limits::CPUS;

/// The counter of each CPU, by its number. It is odd while the CPU is in a read section.
pub type Counters = [u64; CPUS];

/// Whether a CPU with this counter is in a read section.
pub const fn is_reading(counter: u64) -> bool
    ensures { result ≡ is_odd counter }
{
    counter % 2 == 1
}
