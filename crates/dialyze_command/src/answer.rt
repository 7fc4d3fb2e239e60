//! What a run answers: its status, and the bytes that it writes.
ghost use Rattle.std.specs.Prelude.{◌≡◌, ◌≢◌, IfOk};
ghost use Rattle.std.specs.List.{concat};
ghost use Rattle.analysis_sources.specs.Refusals.{refusal_line};
ghost use Rattle.dialyze_command.specs.Lines.{usage_line, refused, too_many, too_many_line, duplicate};
ghost use Rattle.dialyze_command.specs.Lines.{duplicate_line, read_fault_line, faulty_table, table_fault_line};
ghost use Rattle.dialyze_command.specs.Outcome.{SaysWhether};

use crate::status::Status;
use analysis_answers::{
    TOO_MANY, duplicate_line, duplicate_refusal, joined, read_fault_line, refusal_line,
    table_fault_line, table_fault_number, too_many_line,
};
use analysis_sources::{Device, SourceFault};
use std::alloc::Global;
use table_file::TableFault;
use type_kinds::{Bytes, List, Memory};

/// The status that a run means to end with, and its output.
#[derive(Drop)]
pub struct Answer {
    pub status: Status,
    pub output: Bytes,
}

/// The reports one after the other.
pub fn reported(alloc: Global, reports: &[Bytes]) -> Result<Answer, Memory>
    ensures output { IfOk result (λ a. a.output ≡ concat reports.now) }
    ensures status { IfOk result (λ a. SaysWhether a.status a.output) }
{
    let output = joined(alloc, reports)?;
    if output.is_empty() {
        let status = Status::Clean;
        return Ok(Answer { status, output });
    }
    let status = Status::Warnings;
    Ok(Answer { status, output })
}

/// The answer to a file, or a table, that is refused.
pub fn refuse(alloc: Global, file: &str, word: u32, fault: SourceFault) -> Result<Answer, Memory>
    ensures status { IfOk result (λ a. a.status ≡ refused word fault) }
    ensures output { IfOk result (λ a. a.output ≡ refusal_line file.now fault) }
{
    let output = refusal_line(alloc, file, fault)?;
    let status = Status::Refused(fault.refusal(word));
    Ok(Answer { status, output })
}

/// The answer to two files whose modules have the same name, each with its position among the words.
pub fn duplicate(
    alloc: Global,
    file: &str,
    word: u32,
    other: &str,
    other_word: u32,
) -> Result<Answer, Memory>
    ensures status { IfOk result (λ a. a.status ≡ duplicate word other_word) }
    ensures output { IfOk result (λ a. a.output ≡ duplicate_line file.now other.now) }
{
    let output = duplicate_line(alloc, file, other)?;
    let status = Status::Refused(duplicate_refusal(word, other_word));
    Ok(Answer { status, output })
}

/// The answer where the shelf failed to read.
pub fn unread(alloc: Global, file: &str, word: u32) -> Result<Answer, Memory>
    ensures status { IfOk result (λ a. a.status ≡ Status.DeviceFault (Device.Read word)) }
    ensures output { IfOk result (λ a. a.output ≡ read_fault_line file.now) }
{
    let output = read_fault_line(alloc, file)?;
    let status = Status::DeviceFault(Device::Read(word));
    Ok(Answer { status, output })
}

/// The answer to a check of too many files.
pub fn too_many(alloc: Global) -> Result<Answer, Memory>
    ensures status { IfOk result (λ a. a.status ≡ too_many) }
    ensures output { IfOk result (λ a. a.output ≡ too_many_line) }
{
    let output = too_many_line(alloc)?;
    let status = Status::Refused(TOO_MANY);
    Ok(Answer { status, output })
}

/// The answer to words that are no command.
pub fn usage(alloc: Global) -> Result<Answer, Memory>
    ensures status { IfOk result (λ a. a.status ≡ Status.Usage) }
    ensures output { IfOk result (λ a. a.output ≡ usage_line) }
{
    let mut output: Bytes = List::new(alloc);
    output.append(b"usage: dialyze check [--plt T] [--out T2] [--workers N] FILE.. | make N")?;
    output.append(b"\n")?;
    Ok(Answer {
        status: Status::Usage,
        output,
    })
}

/// The answer to a table whose bytes have this fault.
pub fn bad_table(alloc: Global, name: &str, fault: TableFault) -> Result<Answer, Memory>
    ensures status { IfOk result (λ a. a.status ≡ faulty_table fault) }
    ensures output { IfOk result (λ a. a.output ≡ table_fault_line name.now fault) }
{
    let output = table_fault_line(alloc, name, fault)?;
    let status = Status::TableFault(table_fault_number(fault));
    Ok(Answer { status, output })
}
