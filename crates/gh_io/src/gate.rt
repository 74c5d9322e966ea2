//! A gate that each call of a CPU passes before it begins.

use gh_base::CpuNo;

/// A place before each call. It promises nothing and changes nothing; a test may hold a CPU there.
pub trait Gate {
    /// Comes before the call of that number of the CPU, from 1.
    fn pass(&self, cpu: CpuNo, call: u32);
}

/// A gate that holds nobody.
#[derive(Clone, Copy, Debug)]
pub struct NoGate;

impl Gate for NoGate {
    fn pass(&self, _cpu: CpuNo, _call: u32) {}
}
