//! The commands that a command line can spell.

/// A command line that is none of the forms.
#[derive(Clone, Copy, Debug, PartialEq, Eq)]
pub struct Usage;

/// A command and its words. By now only `step` is built, and the words of the others aren't read.
#[derive(Debug, Drop)]
pub enum Command {
    Step(StepArgs),
    Run(RunArgs),
    Check(CheckArgs),
    Gen(GenArgs),
}

/// Run by a schedule and write the history text. Each word names a file.
#[derive(Debug, Drop)]
pub struct StepArgs {
    pub boot: String,
    pub schedule: String,
    pub calls: Vec<String>,
}

/// Run one thread for each CPU and write the history text. Each word names a file.
#[derive(Debug, Drop)]
pub struct RunArgs {
    pub boot: String,
    pub calls: Vec<String>,
}

/// Check a history text. Each word names a file.
#[derive(Debug, Drop)]
pub struct CheckArgs {
    pub boot: String,
    pub history: String,
    pub calls: Vec<String>,
}

/// What of a generated run is written.
#[derive(Clone, Copy, Debug, PartialEq, Eq)]
pub enum GenPart {
    /// A summary of the run.
    Summary,
    /// The boot file.
    Boot,
    /// The call file of a VM.
    Calls(u8),
}

/// Generate a boot file and call files.
#[derive(Clone, Copy, Debug, PartialEq, Eq)]
pub struct GenArgs {
    /// 0 to 2147483647.
    pub seed: u32,
    /// 1 to 8.
    pub vms: u8,
    /// Calls of all VMs, 1 to 65,536.
    pub calls: u32,
    pub part: GenPart,
}
