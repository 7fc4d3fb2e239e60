//! The lines of the program, and the answers that have them.
ghost use Rattle.std.specs.Prelude.{◌≡◌, IfOk};
ghost use Rattle.analysis_answers.specs.Lines.{table_fault_line};
ghost use Rattle.analysis_answers.specs.Tables.{faulty_table};
ghost use Rattle.table_verify_laws.specs.Rules.{TableRule, rule_number};
ghost use Rattle.table_verify_command.specs.Lines.{accepted_line, rejected, rejected_line, rule_text};

use analysis_answers::{RunAnswer, RunStatus, table_fault_line, table_fault_number};
use analysis_sources::Refusal;
use std::alloc::Global;
use table_file::TableFault;
use table_verify_rules::{SAME_FUNCTIONS, SAME_MODULES, SAME_SOURCE};
use type_kinds::{Atom, Bytes, List, Memory};

/// The answer to a table whose bytes have this fault.
pub fn bad_table(alloc: Global, name: &str, fault: TableFault) -> Result<RunAnswer, Memory>
    ensures status { IfOk result (λ a. a.status ≡ faulty_table fault) }
    ensures output { IfOk result (λ a. a.output ≡ table_fault_line name.now fault) }
{
    let output = table_fault_line(alloc, name, fault)?;
    let status = RunStatus::TableFault(table_fault_number(fault));
    Ok(RunAnswer { status, output })
}

/// The answer to a table that is right.
pub fn accepted(alloc: Global) -> Result<RunAnswer, Memory>
    ensures status { IfOk result (λ a. a.status ≡ RunStatus.Done) }
    ensures output { IfOk result (λ a. a.output ≡ accepted_line) }
{
    let output = List::from_slice(alloc, b"accepted\n")?;
    let status = RunStatus::Done;
    Ok(RunAnswer { status, output })
}

/// The answer to a table that breaks the rule of this number, at this module.
pub fn rejected(alloc: Global, number: u8, home: &Atom) -> Result<RunAnswer, Memory>
    ensures status { IfOk result (λ a. (r : TableRule) → number ≡ rule_number r → a.status ≡ rejected r) }
    ensures output { IfOk result (λ a. (r : TableRule) → number ≡ rule_number r → a.output ≡ rejected_line r home.now) }
{
    let output = rejected_line(alloc, number, home)?;
    let status = RunStatus::Refused(Refusal {
        number,
        word: 1,
        line: 0,
        other: 0,
    });
    Ok(RunAnswer { status, output })
}

// The line of a table that breaks a rule.
fn rejected_line(alloc: Global, number: u8, home: &Atom) -> Result<Bytes, Memory>
    ensures { IfOk result (λ found. (r : TableRule) → number ≡ rule_number r → found ≡ rejected_line r home.now) }
{
    let mut line: Bytes = List::new(alloc);
    line.append(b"rejected ")?;
    line.append_decimal(u32::from(number))?;
    line.append(b" ")?;
    line.append(rule_text(number).as_bytes())?;
    line.append(b" ")?;
    home.text(&mut line)?;
    line.append(b"\n")?;
    Ok(line)
}

// The name of what a table has that breaks the rule of this number.
fn rule_text(number: u8) -> &'static str
    ensures { (r : TableRule) → number ≡ rule_number r → result.now ≡ rule_text r }
{
    match number {
        SAME_MODULES => "OtherModules",
        SAME_SOURCE => "OtherSource",
        SAME_FUNCTIONS => "OtherFunctions",
        _ => "NotClosed",
    }
}
