//! The new table is put onto the shelf.
ghost use Rattle.std.specs.Prelude.{◌≡◌, ◌<◌, length, IfOk, IfSome, OnErr};
ghost use Rattle.analysis_sources.specs.Words.{texts};
ghost use Rattle.dialyze_command.specs.steps.Plans.{IsPutAs, IsStored};

use crate::answer::Answer;
use crate::plan::{CheckPlan, NewTable};
use crate::status::Status;
use analysis_sources::Device;
use da_shelf::{Shelf, ShelfFault};
use type_kinds::Memory;

/// Puts the table of a plan onto the shelf, if it has one, and gives what is to be answered then. Nothing but the shelf takes
/// memory; where it has none, it holds what it held.
pub fn stored<F: Shelf>(words: &[&str], plan: CheckPlan, shelf: &mut F) -> Result<Answer, Memory>
    requires { IfSome plan.table (λ t. t.word < length words.now) }
    ensures stored { IfOk result (λ a. IsStored (texts words.now) (F.held shelf.old) (F.held shelf.new) (F.replace_faults shelf.old)
        (F.replace_faults shelf.new) plan.answer plan.table a) }
    ensures memory { OnErr result (F.held shelf.new ≡ F.held shelf.old) }
    ensures reads { F.read_faults shelf.new ≡ F.read_faults shelf.old }
    ensures no_read { F.reads shelf.new ≡ F.reads shelf.old }
{
    let CheckPlan { answer, table } = plan;
    match table {
        Some(table) => put(words[table.word as usize], table, answer, shelf),
        None => Ok(answer),
    }
}

// Puts the table onto the shelf under this name.
fn put<F: Shelf>(
    name: &str,
    table: NewTable,
    answer: Answer,
    shelf: &mut F,
) -> Result<Answer, Memory>
    ensures put { IfOk result (λ a. IsPutAs name.now (F.held shelf.old) (F.held shelf.new) (F.replace_faults shelf.old)
        (F.replace_faults shelf.new) answer table a) }
    ensures memory { OnErr result (F.held shelf.new ≡ F.held shelf.old) }
    ensures reads { F.read_faults shelf.new ≡ F.read_faults shelf.old }
    ensures no_read { F.reads shelf.new ≡ F.reads shelf.old }
{
    match shelf.replace(name, table.bytes.as_slice()) {
        Ok(()) => Ok(answer),
        Err(ShelfFault::Failed) => {
            let status = Status::DeviceFault(Device::Replace(table.word));
            let output = table.line;
            Ok(Answer { status, output })
        }
        Err(ShelfFault::Memory) => Err(Memory),
        Err(ShelfFault::Missing) => unreachable!(),
    }
}
