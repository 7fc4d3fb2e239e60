//! The lines of a session that aren't reports.
ghost use Rattle.std.specs.Prelude.{◌≡◌, ◌++◌, IfOk};
ghost use Rattle.std.specs.List.{concat};
ghost use Rattle.dia_session_command.specs.Lines.{asked_line, bad_line, bad_line_line, not_there_line, ok_line};

use analysis_answers::{RunAnswer, RunStatus, joined};
use analysis_sources::Refusal;
use std::alloc::Global;
use type_kinds::{Bytes, List, Memory};

/// The line of an edit that was made.
pub fn ok_line(alloc: Global) -> Result<Bytes, Memory>
    ensures { IfOk result (λ found. found ≡ ok_line) }
{
    let mut line: Bytes = List::new(alloc);
    line.append(b"ok\n")?;
    Ok(line)
}

/// The line of a file that isn't held by the session.
pub fn not_there_line(alloc: Global, file: &str) -> Result<Bytes, Memory>
    ensures { IfOk result (λ found. found ≡ not_there_line file.now) }
{
    let mut line: Bytes = List::new(alloc);
    line.append(file.as_bytes())?;
    line.append(b": refused 34 NotThere")?;
    line.append(b"\n")?;
    Ok(line)
}

/// Reports one after another, and behind them the line that says so.
pub fn asked_lines(alloc: Global, reports: &[Bytes]) -> Result<Bytes, Memory>
    ensures { IfOk result (λ found. found ≡ concat reports.now ++ asked_line) }
{
    let mut lines = joined(alloc, reports)?;
    lines.append(b"asked\n")?;
    Ok(lines)
}

/// The answer to a script, the word at this position, whose line of this number is bad.
pub fn refuse_line(alloc: Global, script: &str, word: u32, number: u32) -> Result<RunAnswer, Memory>
    ensures status { IfOk result (λ a. a.status ≡ bad_line word number) }
    ensures output { IfOk result (λ a. a.output ≡ bad_line_line script.now number) }
{
    let mut output: Bytes = List::new(alloc);
    output.append(script.as_bytes())?;
    output.append(b":")?;
    output.append_decimal(number)?;
    output.append(b": refused 33 BadLine")?;
    output.append(b"\n")?;
    let status = RunStatus::Refused(Refusal {
        number: 33,
        word,
        line: number,
        other: 0,
    });
    Ok(RunAnswer { status, output })
}
