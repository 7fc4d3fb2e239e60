//! What the program writes of sources: what the applications of values in them may enter.
ghost use Rattle.std.specs.Prelude.{◌≡◌, ℕ, ◌<◌, ◌^◌, List, length, map, IfOk, IfErr, OnOk};
ghost use Rattle.core_scope.specs.Checked.{module_of};
ghost use Rattle.core_scope.specs.Sets.{StandsEarlier};
ghost use Rattle.table_keep.specs.Model.{sources_so};
ghost use Rattle.analysis_answers.specs.Programs.{IsOutputFault};
ghost use Rattle.fun_flow_command.specs.Listed.{Lists, usage_line};

use analysis_answers::{FileProgram, OutputFault};
use core_scope::check_set;
use fun_flow_answers::{call_lines, positions_are_within};
use fun_flow_applied::applied;
use std::alloc::Global;
use table_keep::Source;
use type_kinds::{Bytes, Memory};

/// The program.
pub struct FlowProgram;

impl FileProgram for FlowProgram {
    ghost usage_line = { usage_line };

    ghost gives = { Lists };

    fn usage(&self) -> &str {
        "usage: fun_flow FILE.."
    }

    fn output_of(&self, alloc: Global, sources: &[Source]) -> Result<Bytes, OutputFault> {
        if let Err(fault) = check_set(sources) {
            return Err(OutputFault::Set(fault));
        }
        match lines_of(alloc, sources) {
            Ok(output) => Ok(output),
            Err(Memory) => Err(OutputFault::Memory),
        }
    }
}

// The lines of the applications of values in the modules of these sources, which have names of their own.
fn lines_of(alloc: Global, sources: &[Source]) -> Result<Bytes, Memory>
    requires distinct { (j : ℕ) → j < length sources.now → StandsEarlier (map (λ s. (module_of s.checked).name) sources.now) j → ⊥ }
    ensures { IfOk result (λ output. Lists (sources_so sources.now) output) }
{
    positions_are_within();
    let calls = applied(alloc, sources)?;
    call_lines(alloc, sources, calls.as_slice())
}
