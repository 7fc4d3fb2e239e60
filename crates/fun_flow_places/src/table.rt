//! What modules export.
ghost use Rattle.std.specs.Prelude.{◌≡◌, ◌++◌, ◌∷◌, [], map, IfOk, OnOk};
ghost use Rattle.core_ast.specs.Tree.{all_defs, module_tree};
ghost use Rattle.core_meaning.specs.Programs.{Program, function_named, locals_of};
ghost use Rattle.core_scope.specs.Checked.{tree_of};
ghost use Rattle.core_scope.specs.Names.{Distinct};
ghost use Rattle.fun_flow_places.specs.Naming.{module_names};
ghost use Rattle.fun_flow_places.specs.Tables.{Finds, IsTableOf, exports_of, frame};

use crate::bindings::Bindings;
use core_ast::{FunDef, FunName, Module};
use core_scope::{AsChecked, Names, is_text};
use std::alloc::Global;
use type_kinds::{Atom, List, Memory, Shared};

/// The functions that are seen, each with the label of its definition.
pub type FunctionLabels = Bindings<FunName, u32>;

/// What a call by a module's name and a function's finds.
#[derive(Clone, Copy, Debug)]
pub enum FoundFunction {
    /// A function of the module `erlang`, whatever module of that name was passed.
    BuiltIn,
    /// A function of a module that wasn't passed.
    Outside,
    /// A function that its module doesn't export.
    Hidden,
    /// A function that its module exports: the module's position, and the label of the definition, where there
    /// is one.
    Exported(usize, Option<u32>),
}

/// The names of modules, and the functions that they export. A look-up is one in a hash table.
#[derive(Drop)]
pub struct ModuleTable {
    names: Names<Atom>,
    exports: List<Bindings<FunName, Option<u32>>>,
}

/// Names the definitions of a module, the first of them innermost. `Memory` if allocation fails.
pub fn define_module(functions: &mut FunctionLabels, defs: &[Shared<FunDef>]) -> Result<(), Memory>
    ensures { OnOk result (functions.new ≡ functions.old ++ frame (locals_of (all_defs defs.now))) }
{
    for passed in 0..defs.len() {
        let def = defs[defs.len() - 1 - passed].get();
        functions.push(&def.name, def.mark.label)?;
    }
    Ok(())
}

/// Names the definitions of a `letrec`, the first of them innermost. `Memory` if allocation fails.
pub fn define_all(functions: &mut FunctionLabels, defs: &[FunDef]) -> Result<(), Memory>
    ensures { OnOk result (functions.new ≡ functions.old ++ frame (locals_of (all_defs defs.now))) }
{
    for passed in 0..defs.len() {
        let def = &defs[defs.len() - 1 - passed];
        functions.push(&def.name, def.mark.label)?;
    }
    Ok(())
}

// What a module exports, each function with its label.
fn exports_of(alloc: Global, source: &Module) -> Result<Bindings<FunName, Option<u32>>, Memory>
    ensures { IfOk result (λ exports. exports ≡ exports_of (module_tree source.now)) }
{
    let mut functions = Bindings::new(alloc);
    define_module(&mut functions, source.defs.as_slice())?;
    let mut exports = Bindings::new(alloc);
    let names = source.exports.as_slice();
    for name in names {
        let label = functions.get(name);
        exports.push(name, label)?;
    }
    Ok(exports)
}

/// The table of these modules. `Memory` if allocation fails.
pub fn module_table<S: AsChecked>(alloc: Global, mods: &[S]) -> Result<ModuleTable, Memory>
    ensures { IfOk result (λ table. IsTableOf (map (λ s. tree_of (S.stands_for s)) mods.now) table) }
{
    let mut table = ModuleTable {
        names: Names::new(alloc),
        exports: List::new(alloc),
    };
    for source in mods {
        table.add(alloc, source.checked().module())?;
    }
    Ok(table)
}

impl ModuleTable {
    // Adds a module behind the others.
    fn add(&mut self, alloc: Global, source: &Module) -> Result<(), Memory>
        ensures names { OnOk result (self.new.names ≡ self.old.names ++ (module_tree source.now).name ∷ []) }
        ensures exports { OnOk result (self.new.exports ≡ self.old.exports ++ exports_of (module_tree source.now) ∷ []) }
    {
        let exports = exports_of(alloc, source)?;
        self.names.push(&source.name)?;
        self.exports.add(exports)
    }

    /// What a call by a module's name and a function's finds, among modules with distinct names. Takes no memory.
    pub fn resolve(&self, home: &Atom, name: &FunName) -> FoundFunction
        ensures { (U : Program) → Distinct (module_names U) → IsTableOf U self.now → Finds U home.now name.now result }
    {
        if is_text(home, b"erlang") {
            return FoundFunction::BuiltIn;
        }
        let Some(position) = self.names.place_of(home) else {
            return FoundFunction::Outside;
        };
        let Some(exports) = self.exports.get(position) else {
            return FoundFunction::Outside;
        };
        match exports.get(name) {
            Some(label) => FoundFunction::Exported(position, label),
            None => FoundFunction::Hidden,
        }
    }
}
