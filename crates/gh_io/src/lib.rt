//! The outside of the program: the files that it reads, the stream that it writes, and the gate
//! before each call of a CPU.
#![tactic(auto)]

mod disk;
mod fault_plan;
mod files;
mod gate;
mod host;
mod memory_files;
mod memory_sink;
mod requests;
mod sink;
mod system;
mod writer;

pub use disk::{Disk, Reader};
pub use files::{Files, LoadErr, Request};
pub use gate::{Gate, NoGate};
pub use host::{HostFiles, HostSink};
pub use memory_files::{MemFiles, SureFiles};
pub use memory_sink::{MemSink, SureSink};
pub use sink::{PutErr, Sink};
pub use system::{StandardOutput, SystemDisk, SystemFile};
pub use writer::Writer;
