// Why a file is refused, and the line that says so.
ghost use Rattle.std.specs.Prelude.{◌≡◌, ◌++◌, OnOk};
ghost use Rattle.analysis_sources.specs.Refusals.{refusal_number, refusal_text, position, refusal_at, refusal_line};

use type_kinds::{Bytes, Memory};

/// A refusal: its number, the positions among the words of the file that it speaks of and of another,
/// and the line. A number that a refusal lacks is 0.
#[derive(Clone, Copy, Debug, PartialEq, Eq)]
pub struct Refusal {
    pub number: u8,
    pub word: u32,
    pub line: u32,
    pub other: u32,
}

/// The device that failed, and the position among the words of the file that was read or replaced.
#[derive(Clone, Copy, Debug, PartialEq, Eq)]
pub enum Device {
    Read(u32),
    Replace(u32),
    Write,
}

/// The names of refusals of sources, in the order of their numbers.
#[derive(Clone, Copy, Debug, PartialEq, Eq)]
pub enum RefusalName {
    /// A byte at which no token begins.
    BadByte,
    /// A quote that isn't closed.
    OpenQuote,
    /// A backslash between quotes that begins no escape.
    BadEscape,
    /// An integer of a magnitude of 2^127 or more.
    WideInteger,
    /// A token up to which no module's tokens go.
    Syntax,
    /// A node at depth 401.
    TooDeep,
    /// A variable that isn't bound.
    Unbound,
    /// A variable that is bound twice.
    RepeatedVariable,
    /// A function that isn't defined.
    UndefinedFunction,
    /// A function that is defined twice.
    RepeatedFunction,
    /// An export that isn't defined.
    BadExport,
    /// A wrong number of values, parameters, patterns or catch variables.
    Degree,
    /// A source of more than 16 MiB, or of more than 64 MiB with those before it.
    TooLong,
    /// A file that isn't held.
    Missing,
}

/// Why a source is refused: by its name, and the line of the source at which it stands, or 0 for a refusal of the whole file.
#[derive(Clone, Copy, Debug, PartialEq, Eq)]
pub struct SourceFault {
    pub name: RefusalName,
    pub line: u32,
}

/// The refusal of a file that isn't held.
pub const MISSING: SourceFault = SourceFault {
    name: RefusalName::Missing,
    line: 0,
};

/// The refusal of what has too many bytes: a file, by itself or with others, or a table that is to be written.
pub const TOO_LONG: SourceFault = SourceFault {
    name: RefusalName::TooLong,
    line: 0,
};

impl RefusalName {
    /// The number of the refusal.
    pub fn number(self) -> u8
        ensures { result ≡ refusal_number self }
    {
        match self {
            RefusalName::BadByte => 1,
            RefusalName::OpenQuote => 2,
            RefusalName::BadEscape => 3,
            RefusalName::WideInteger => 4,
            RefusalName::Syntax => 5,
            RefusalName::TooDeep => 6,
            RefusalName::Unbound => 8,
            RefusalName::RepeatedVariable => 9,
            RefusalName::UndefinedFunction => 10,
            RefusalName::RepeatedFunction => 11,
            RefusalName::BadExport => 12,
            RefusalName::Degree => 13,
            RefusalName::TooLong => 25,
            RefusalName::Missing => 26,
        }
    }

    // The name of the refusal, as the output has it.
    fn text(self) -> &'static str
        ensures { result.now ≡ refusal_text self }
    {
        match self {
            RefusalName::BadByte => "BadByte",
            RefusalName::OpenQuote => "OpenQuote",
            RefusalName::BadEscape => "BadEscape",
            RefusalName::WideInteger => "WideInteger",
            RefusalName::Syntax => "Syntax",
            RefusalName::TooDeep => "TooDeep",
            RefusalName::Unbound => "Unbound",
            RefusalName::RepeatedVariable => "RepeatedVariable",
            RefusalName::UndefinedFunction => "UndefinedFunction",
            RefusalName::RepeatedFunction => "RepeatedFunction",
            RefusalName::BadExport => "BadExport",
            RefusalName::Degree => "Degree",
            RefusalName::TooLong => "TooLong",
            RefusalName::Missing => "Missing",
        }
    }
}

impl SourceFault {
    /// The refusal by this fault of the file at a position among the words.
    pub fn refusal(self, word: u32) -> Refusal
        ensures { result ≡ refusal_at word self }
    {
        Refusal {
            number: self.name.number(),
            word,
            line: self.line,
            other: 0,
        }
    }

    /// Adds the line that the output has for it. If allocation fails a part of the line may be added.
    pub fn append_line(self, file: &str, out: &mut Bytes) -> Result<(), Memory>
        ensures { OnOk result (out.new ≡ out.old ++ refusal_line file.now self) }
    {
        out.append(file.as_bytes())?;
        self.append_position(out)?;
        out.append(b": refused ")?;
        out.append_decimal(self.name.number() as u32)?;
        out.append(b" ")?;
        out.append(self.name.text().as_bytes())?;
        out.append(b"\n")
    }

    // Adds the line's number, where the fault has one.
    fn append_position(self, out: &mut Bytes) -> Result<(), Memory>
        ensures { OnOk result (out.new ≡ out.old ++ position self) }
    {
        match self.name {
            RefusalName::TooLong | RefusalName::Missing => Ok(()),
            _ => {
                out.append(b":")?;
                out.append_decimal(self.line)
            }
        }
    }
}
