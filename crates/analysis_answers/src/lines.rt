//! The lines of what isn't a report.
ghost use Rattle.std.specs.Prelude.{◌≡◌, ◌++◌, IfOk};
ghost use Rattle.std.specs.List.{concat};
ghost use Rattle.analysis_sources.specs.Refusals.{line, refusal_line};
ghost use Rattle.analysis_answers.specs.Lines.{duplicate_line, duplicate_refusal, read_fault_line, replace_fault_line, table_fault_line};
ghost use Rattle.analysis_answers.specs.Lines.{table_fault_number, table_fault_text, too_many_line};

use analysis_sources::{Refusal, SourceFault};
use std::alloc::Global;
use table_file::TableFault;
use type_kinds::{Bytes, List, Memory};

/// The refusal of words that name too many files.
pub const TOO_MANY: Refusal = Refusal {
    number: 24,
    word: 0,
    line: 0,
    other: 0,
};

/// The refusal of a file, the word at this position, whose module has the name of the other's.
pub fn duplicate_refusal(word: u32, other: u32) -> Refusal
    ensures { result ≡ duplicate_refusal word other }
{
    Refusal {
        number: 14,
        word,
        line: 0,
        other,
    }
}

/// The line of a file, or a table, that is refused.
pub fn refusal_line(alloc: Global, file: &str, fault: SourceFault) -> Result<Bytes, Memory>
    ensures { IfOk result (λ found. found ≡ refusal_line file.now fault) }
{
    let mut line: Bytes = List::new(alloc);
    fault.append_line(file, &mut line)?;
    Ok(line)
}

/// The line of two files whose modules have the same name.
pub fn duplicate_line(alloc: Global, file: &str, other: &str) -> Result<Bytes, Memory>
    ensures { IfOk result (λ found. found ≡ duplicate_line file.now other.now) }
{
    let mut line: Bytes = List::new(alloc);
    line.append(file.as_bytes())?;
    line.append(b": refused 14 DuplicateModule with ")?;
    line.append(other.as_bytes())?;
    line.append(b"\n")?;
    Ok(line)
}

/// The line of words that name too many files.
pub fn too_many_line(alloc: Global) -> Result<Bytes, Memory>
    ensures { IfOk result (λ found. found ≡ too_many_line) }
{
    line_of(alloc, "", b"refused 24 TooMany")
}

/// The line of a file, or a table, that the shelf failed to read.
pub fn read_fault_line(alloc: Global, file: &str) -> Result<Bytes, Memory>
    ensures { IfOk result (λ found. found ≡ read_fault_line file.now) }
{
    line_of(alloc, file, b": device fault read")
}

/// The line of a file that the shelf failed to replace.
pub fn replace_fault_line(alloc: Global, file: &str) -> Result<Bytes, Memory>
    ensures { IfOk result (λ found. found ≡ replace_fault_line file.now) }
{
    line_of(alloc, file, b": device fault replace")
}

/// Reports, or other lists of bytes, one after the other.
pub fn joined(alloc: Global, reports: &[Bytes]) -> Result<Bytes, Memory>
    ensures { IfOk result (λ output. output ≡ concat reports.now) }
{
    let mut output: Bytes = List::new(alloc);
    for report in reports {
        output.append(report.as_slice())?;
    }
    Ok(output)
}

// The line of a name with this text behind it.
fn line_of(alloc: Global, name: &str, text: &[u8]) -> Result<Bytes, Memory>
    ensures { IfOk result (λ found. found ≡ line (name.now ++ text.now)) }
{
    let mut line: Bytes = List::new(alloc);
    line.append(name.as_bytes())?;
    line.append(text)?;
    line.append(b"\n")?;
    Ok(line)
}

/// The line of a table whose bytes have this fault.
pub fn table_fault_line(alloc: Global, name: &str, fault: TableFault) -> Result<Bytes, Memory>
    ensures { IfOk result (λ found. found ≡ table_fault_line name.now fault) }
{
    let mut line: Bytes = List::new(alloc);
    line.append(name.as_bytes())?;
    line.append(b": table fault ")?;
    line.append_decimal(table_fault_number(fault) as u32)?;
    line.append(b" ")?;
    line.append(table_fault_text(fault).as_bytes())?;
    line.append(b"\n")?;
    Ok(line)
}

/// The number of a table's fault, and 0 for a failed allocation, which is none.
pub fn table_fault_number(fault: TableFault) -> u8
    ensures { result ≡ table_fault_number fault }
{
    match fault {
        TableFault::NotATable => 18,
        TableFault::Version => 19,
        TableFault::Torn => 20,
        TableFault::Order => 21,
        TableFault::BadEntry => 22,
        TableFault::Rest => 23,
        TableFault::Memory => 0,
    }
}

// Its name, as the output has it.
fn table_fault_text(fault: TableFault) -> &'static str
    ensures { result.now ≡ table_fault_text fault }
{
    match fault {
        TableFault::NotATable => "NotATable",
        TableFault::Version => "Version",
        TableFault::Torn => "Torn",
        TableFault::Order => "Order",
        TableFault::BadEntry => "BadEntry",
        TableFault::Rest => "Rest",
        TableFault::Memory => "",
    }
}
