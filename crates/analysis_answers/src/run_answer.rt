//! What a run answers: its status, and the bytes that it writes.
ghost use Rattle.std.specs.Prelude.{◌≡◌, ℕ, ◌<◌, ◌^◌, List, Some, length, slice_get, IfOk};
ghost use Rattle.analysis_sources.specs.Refusals.{line, refusal_line};
ghost use Rattle.analysis_sources.specs.Words.{texts};
ghost use Rattle.analysis_answers.specs.FileRuns.{duplicate, refused, too_many};
ghost use Rattle.analysis_answers.specs.Lines.{duplicate_line, read_fault_line, too_many_line};

use crate::lines::{
    TOO_MANY, duplicate_line, duplicate_refusal, read_fault_line, refusal_line, too_many_line,
};
use crate::run_status::RunStatus;
use analysis_sources::{Device, SourceFault};
use std::alloc::Global;
use type_kinds::{Bytes, List, Memory};

/// The status that a run means to end with, and its output.
#[derive(Drop)]
pub struct RunAnswer {
    pub status: RunStatus,
    pub output: Bytes,
}

/// The answer to words that are no command, with this usage line.
pub fn usage(alloc: Global, text: &str) -> Result<RunAnswer, Memory>
    ensures status { IfOk result (λ a. a.status ≡ RunStatus.Usage) }
    ensures output { IfOk result (λ a. a.output ≡ line text.now) }
{
    let mut output: Bytes = List::new(alloc);
    output.append(text.as_bytes())?;
    output.append(b"\n")?;
    let status = RunStatus::Usage;
    Ok(RunAnswer { status, output })
}

/// The answer to words that name too many files.
pub fn refuse_many(alloc: Global) -> Result<RunAnswer, Memory>
    ensures status { IfOk result (λ a. a.status ≡ too_many) }
    ensures output { IfOk result (λ a. a.output ≡ too_many_line) }
{
    let output = too_many_line(alloc)?;
    let status = RunStatus::Refused(TOO_MANY);
    Ok(RunAnswer { status, output })
}

/// The answer to a file that is refused, the word at this position.
pub fn refuse(alloc: Global, file: &str, word: u32, fault: SourceFault) -> Result<RunAnswer, Memory>
    ensures status { IfOk result (λ a. a.status ≡ refused word fault) }
    ensures output { IfOk result (λ a. a.output ≡ refusal_line file.now fault) }
{
    let output = refusal_line(alloc, file, fault)?;
    let status = RunStatus::Refused(fault.refusal(word));
    Ok(RunAnswer { status, output })
}

/// The answer where the shelf failed to read the file, the word at this position.
pub fn unread(alloc: Global, file: &str, word: u32) -> Result<RunAnswer, Memory>
    ensures status { IfOk result (λ a. a.status ≡ RunStatus.DeviceFault (Device.Read word)) }
    ensures output { IfOk result (λ a. a.output ≡ read_fault_line file.now) }
{
    let output = read_fault_line(alloc, file)?;
    let status = RunStatus::DeviceFault(Device::Read(word));
    Ok(RunAnswer { status, output })
}

/// The answer where the modules of the files at these positions among the words have the same name.
pub fn refuse_second(
    alloc: Global,
    words: &[&str],
    first: u32,
    second: u32,
) -> Result<RunAnswer, Memory>
    requires first { first < length words.now }
    requires second { second < length words.now }
    ensures status { IfOk result (λ a. a.status ≡ duplicate second first) }
    ensures output { IfOk result (λ a. (file other : List ℕ) → slice_get (texts words.now) second ≡ Some file
        → slice_get (texts words.now) first ≡ Some other → a.output ≡ duplicate_line file other) }
{
    let file = words[second as usize];
    let other = words[first as usize];
    let output = duplicate_line(alloc, file, other)?;
    let status = RunStatus::Refused(duplicate_refusal(second, first));
    Ok(RunAnswer { status, output })
}
