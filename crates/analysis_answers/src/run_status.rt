//! How a run of one of the programs ends.
ghost use Rattle.std.specs.Prelude.{◌≡◌};
ghost use Rattle.analysis_answers.specs.Codes.{run_code};

use analysis_sources::{Device, Refusal};

/// How a run ended.
#[derive(Clone, Copy, Debug, PartialEq, Eq)]
pub enum RunStatus {
    /// What was asked for was done.
    Done,
    /// The words, or the files that they name, were refused.
    Refused(Refusal),
    /// A table that was named is none, by the fault of this number.
    TableFault(u8),
    /// A device failed.
    DeviceFault(Device),
    /// There was no memory left.
    Memory,
    /// The words are no command.
    Usage,
}

impl RunStatus {
    /// The code that the program ends with. Takes no memory.
    pub fn code(&self) -> u8
        ensures { result ≡ run_code self.now }
    {
        match self {
            RunStatus::Done => 0,
            RunStatus::Refused(_) => 1,
            RunStatus::TableFault(_) => 3,
            RunStatus::DeviceFault(_) => 4,
            RunStatus::Memory => 5,
            RunStatus::Usage => 6,
        }
    }
}
