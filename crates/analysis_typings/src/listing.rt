//! What is known of functions, listed in the order of the text.
ghost use Rattle.std.specs.Prelude.{◌≡◌, Some, Contains, map, IfOk};
ghost use Rattle.core_ast.specs.Model.{Module as ModuleTree};
ghost use Rattle.core_ast.specs.Tree.{all_defs, module_tree};
ghost use Rattle.core_ast.specs.declared.syntax.FunName.{FunName};
ghost use Rattle.core_scope.specs.Checked.{tree_of};
ghost use Rattle.core_scope.specs.Names.{defined_names};
ghost use Rattle.cons_tree.specs.Callees.{found};
ghost use Rattle.sound_laws.specs.Knowledge.{summary_of};
ghost use Rattle.analysis_typings.specs.Typings.{AreKnownIn, AreKnownOf, HasSummary};

use cons_tree::{Callee, Summaries, Summary};
use core_ast::{FunDef, Module};
use core_scope::AsChecked;
use std::alloc::Global;
use type_kinds::{Atom, List, Memory, Shared};

/// The summaries of the functions that modules define, where each is known.
pub fn all_summaries<S: AsChecked>(
    alloc: Global,
    mods: &[S],
    known: &Summaries,
) -> Result<List<List<Summary>>, Memory>
    requires { (x : ModuleTree) → Contains (map (λ s. tree_of (S.stands_for s)) mods.now) x → (f : FunName) → Contains (defined_names x.defs) f
        → HasSummary (found known.now x.name f) }
    ensures { IfOk result (λ all. AreKnownOf (found known.now) (map (λ s. tree_of (S.stands_for s)) mods.now) all) }
{
    let mut all = List::new(alloc);
    for source in mods {
        let summaries = module_summaries(alloc, source.checked().module(), known)?;
        all.add(summaries)?;
    }
    Ok(all)
}

// The summaries of the functions that a module defines.
#[tactic(auto, using(crate::proofs::Listed::names_in))]
fn module_summaries(
    alloc: Global,
    module: &Module,
    known: &Summaries,
) -> Result<List<Summary>, Memory>
    requires { (f : FunName) → Contains (defined_names (module_tree module.now).defs) f → HasSummary (found known.now module.now.name f) }
    ensures { IfOk result (λ summaries. AreKnownIn (found known.now) module.now.name (defined_names (module_tree module.now).defs) summaries) }
{
    def_summaries(alloc, &module.name, module.defs.as_slice(), known)
}

// The summaries of functions of the module of this name.
fn def_summaries(
    alloc: Global,
    home: &Atom,
    defs: &[Shared<FunDef>],
    known: &Summaries,
) -> Result<List<Summary>, Memory>
    requires { (f : FunName) → Contains (defined_names (all_defs defs.now)) f → HasSummary (found known.now home.now f) }
    ensures { IfOk result (λ summaries. AreKnownIn (found known.now) home.now (map (λ d. d.name) defs.now) summaries) }
{
    let mut summaries = List::new(alloc);
    for def in defs {
        let summary = summary_in(alloc, known.find(home, &def.get().name))?;
        summaries.add(summary)?;
    }
    Ok(summaries)
}

/// The summary of a function that has one. `Memory` if allocation fails.
pub fn summary_in(alloc: Global, callee: &Callee) -> Result<Summary, Memory>
    requires { HasSummary callee.now }
    ensures { IfOk result (λ summary. summary_of callee.now ≡ Some summary) }
{
    match callee {
        Callee::Known(summary) | Callee::Local(summary) => summary.copy(alloc),
        Callee::Undefined | Callee::Unknown => unreachable!(),
    }
}
