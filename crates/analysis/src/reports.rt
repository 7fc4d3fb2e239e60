//! The report on a module.
ghost use Rattle.std.specs.Prelude.{IfOk};
ghost use Rattle.core_scope.specs.Checked.{tree_of};
ghost use Rattle.cons_tree.specs.Callees.{found};
ghost use Rattle.module_flow.specs.Flow.{findings};
ghost use Rattle.warn_list.specs.Lines.{AreLines};

use cons_tree::Summaries;
use core_scope::Checked;
use module_flow::flow;
use std::alloc::Global;
use type_kinds::{Bytes, Memory};
use warn_list::lines;

/// The report on one module. `Memory` if allocation fails.
pub fn report_on(alloc: Global, source: &Checked, known: &Summaries) -> Result<Bytes, Memory>
    ensures { IfOk result (λ bytes. AreLines (tree_of source.now).name (findings (found known.now) (tree_of source.now)) bytes) }
{
    let flowed = flow(alloc, source, known)?;
    lines(alloc, &source.module().name, &flowed.findings)
}
