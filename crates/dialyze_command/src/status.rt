ghost use Rattle.std.specs.Prelude.{◌≡◌};
ghost use Rattle.dialyze_command.specs.Codes.{code_of};

use analysis_sources::{Device, Refusal};

/// How a run ended.
#[derive(Clone, Copy, Debug, PartialEq, Eq)]
pub enum Status {
    /// Nothing was found.
    Clean,
    /// The sources were refused.
    Refused(Refusal),
    /// The report has a line at least.
    Warnings,
    /// The table that was named is none, by the fault of this number.
    TableFault(u8),
    /// A device failed.
    DeviceFault(Device),
    /// There was no memory left.
    Memory,
    /// The words are no command.
    Usage,
}

impl Status {
    /// The code that the program ends with, from 0 to 6. Takes no memory.
    pub fn code(&self) -> u8
        ensures { result ≡ code_of self.now }
    {
        match self {
            Status::Clean => 0,
            Status::Refused(_) => 1,
            Status::Warnings => 2,
            Status::TableFault(_) => 3,
            Status::DeviceFault(_) => 4,
            Status::Memory => 5,
            Status::Usage => 6,
        }
    }
}
