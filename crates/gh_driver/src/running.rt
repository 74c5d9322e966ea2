//! How far programs have come.

use gh_base::Sequence;
use gh_items::Progress;

/// A run between two calls.
#[derive(Drop)]
pub struct Running<P> {
    pub progress: Progress,
    /// The programs of the CPUs, by number; one that the boot doesn't have has none.
    pub programs: Sequence<Option<P>>,
}
