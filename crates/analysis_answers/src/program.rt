//! A program whose words are the names of files: what it writes of the sources that they hold.
ghost use Rattle.std.specs.Prelude.{◌≡◌, ℕ, ◌<◌, ◌^◌, List as ListOf, length, map, IfOk, IfErr, OnOk};
ghost use Rattle.core_scope.specs.Checked.{module_of};
ghost use Rattle.core_scope.specs.Sets.{StandsEarlier};
ghost use Rattle.table_keep.specs.Model.{Source as SourceModel, sources_so};
ghost use Rattle.analysis_sources.specs.Refusals.{line};
ghost use Rattle.analysis_answers.specs.Programs.{IsOutputFault};

use core_scope::SetFault;
use std::alloc::Global;
use table_keep::Source;
use type_kinds::Bytes;

/// Why a program writes nothing of sources.
#[derive(Clone, Copy, Debug, PartialEq, Eq)]
pub enum OutputFault {
    /// Their modules can't be taken together.
    Set(SetFault),
    /// Allocation failed, or a limit of the program was reached. This says nothing of the sources.
    Memory,
}

/// A program whose words are the names of files, 1 to 1,024: what it writes of the sources that they hold.
pub trait FileProgram {
    /// The line that is written where the words are no command.
    ghost usage_line: { ListOf ℕ };

    /// What is written of sources whose modules have names of their own.
    ghost gives: { ListOf SourceModel → ListOf ℕ → Type 0 };

    /// The usage line, without its end.
    fn usage(&self) -> &str
        ensures { line result.now ≡ usage_line };

    /// What is written of these sources. `Set`: two of their modules have one name.
    fn output_of(&self, alloc: Global, sources: &[Source]) -> Result<Bytes, OutputFault>
        requires few { length sources.now < 2 ^ 32 }
        ensures distinct { OnOk result ((j : ℕ) → j < length sources.now → StandsEarlier (map (λ s. (module_of s.checked).name) sources.now) j → ⊥) }
        ensures gives { IfOk result (λ output. gives (sources_so sources.now) output) }
        ensures set { IfErr result (IsOutputFault (map (λ s. (module_of s.checked).name) sources.now)) };
}
