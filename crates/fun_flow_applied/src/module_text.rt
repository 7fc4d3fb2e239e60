//! What of a module's text is listed: its name, the lines of its nodes, and the names of its functions.
ghost use Rattle.std.specs.Prelude.{◌≡◌, ℕ, map, slice_index, IfOk};
ghost use Rattle.core_ast.specs.Tree.{all_defs, module_tree};
ghost use Rattle.core_scope.specs.Checked.{tree_of};
ghost use Rattle.fun_flow_applied.specs.steps.Texts.{AreTextsOf, IsTextOf, name_at, name_with};

use core_ast::{FunDef, FunName, Module};
use core_lines::node_lines;
use core_scope::AsChecked;
use std::alloc::Global;
use std::collections::BTreeMap;
use type_kinds::{Atom, List, Memory, Shared};

/// A module's name, the line of each node by its label, and the name of each definition by its label.
#[derive(Drop)]
pub struct ModuleText<'a> {
    pub home: &'a Atom,
    pub lines: List<u32>,
    pub definitions: BTreeMap<u32, &'a FunName>,
}

/// Those of modules.
pub fn module_texts<S: AsChecked>(alloc: Global, mods: &[S]) -> Result<Vec<ModuleText<'_>>, Memory>
    ensures { IfOk result (λ texts. AreTextsOf (map (λ s. tree_of (S.stands_for s)) mods.now) texts.items) }
{
    let mut texts = Vec::new(alloc);
    for source in mods {
        let text = module_text(alloc, source.checked().module())?;
        match texts.push(text) {
            Ok(()) => {}
            Err(_) => return Err(Memory),
        }
    }
    Ok(texts)
}

fn module_text(alloc: Global, module: &Module) -> Result<ModuleText<'_>, Memory>
    ensures { IfOk result (λ text. IsTextOf (module_tree module.now) text) }
{
    let lines = node_lines(alloc, module)?;
    let definitions = definitions_by_label(alloc, module.defs.as_slice())?;
    Ok(ModuleText {
        home: &module.name,
        lines,
        definitions,
    })
}

// The names of definitions by their labels, of two with one label that of the first.
fn definitions_by_label(
    alloc: Global,
    defs: &[Shared<FunDef>],
) -> Result<BTreeMap<u32, &FunName>, Memory>
    ensures { IfOk result (λ names. (l : ℕ) → name_at names l ≡ name_with (all_defs defs.now) l) }
{
    let mut definitions = BTreeMap::new(alloc);
    for passed in 0..defs.len() {
        let def = defs[defs.len() - 1 - passed].get();
        if definitions.insert(def.mark.label, &def.name).is_err() {
            return Err(Memory);
        }
    }
    Ok(definitions)
}

/// The line of the node at a label, 0 where there is none.
pub fn line_at(text: &ModuleText, label: u32) -> u32
    ensures { result ≡ slice_index text.now.lines label }
{
    match text.lines.get(label as usize) {
        Some(line) => *line,
        None => 0,
    }
}
