//! The lines of all typings.
ghost use Rattle.std.specs.Prelude.{◌≡◌, ◌++◌, map, IfOk, OnOk};
ghost use Rattle.core_ast.specs.Tree.{all_defs};
ghost use Rattle.core_scope.specs.Checked.{tree_of};
ghost use Rattle.core_scope.specs.Names.{defined_names};
ghost use Rattle.typer_command.specs.Typed.{lines_of, typings_in, typings_of};

use cons_tree::Summary;
use core_ast::FunDef;
use std::alloc::Global;
use table_keep::Source;
use type_kinds::{Atom, Bytes, List, Memory, Shared};
use typer_lines::append_line_of;

/// The line of each function of these modules, where these are the summaries of the functions of each.
pub fn typing_lines(
    alloc: Global,
    sources: &[Source],
    found: &[List<Summary>],
) -> Result<Bytes, Memory>
    ensures { IfOk result (λ output. output ≡ lines_of (typings_of (map (λ s. tree_of s.checked) sources.now) found.now)) }
{
    let mut output: Bytes = List::new(alloc);
    for (source, summaries) in sources.iter().zip(found.iter()) {
        let module = source.checked.module();
        append_lines(
            &module.name,
            module.defs.as_slice(),
            summaries.as_slice(),
            &mut output,
        )?;
    }
    Ok(output)
}

// Appends the lines of the functions of the module of this name, which have these summaries.
fn append_lines(
    home: &Atom,
    defs: &[Shared<FunDef>],
    summaries: &[Summary],
    out: &mut Bytes,
) -> Result<(), Memory>
    ensures { OnOk result (out.new ≡ out.old ++ lines_of (typings_in home.now (defined_names (all_defs defs.now)) summaries.now)) }
{
    for (def, summary) in defs.iter().zip(summaries.iter()) {
        append_line_of(home, &def.get().name, summary.strict.get(), out)?;
    }
    Ok(())
}
