//! Functions by their names, each with the label of its definition.
ghost use Rattle.std.specs.Prelude.{◌≡◌, ◌∷◌, ◌++◌, [], slice_index_or, take, OnOk, IfOk};
ghost use Rattle.core_ast.specs.Tree.{all_defs};
ghost use Rattle.core_scope.specs.Names.{defined_names};
ghost use Rattle.module_flow_calls.specs.Functions.{defined_labels, label_named};

use core_ast::{FunDef, FunName};
use core_scope::Names;
use std::alloc::Global;
use type_kinds::{List, Memory, Shared};

/// Functions by their names, the outer before the inner, and beside them the labels of their definitions.
#[derive(Drop)]
pub struct Functions {
    pub names: Names<FunName>,
    pub labels: List<u32>,
}

/// What a name of a function stands for, by the label of the definition.
#[derive(Clone, Copy, Debug)]
pub enum ResolvedName {
    /// A function of a `letrec` around.
    Inner(u32),
    /// A function of the module.
    Top(u32),
    Nothing,
}

/// The label of the innermost function that has the name. Takes no memory.
pub fn label_named(names: &Names<FunName>, labels: &List<u32>, name: &FunName) -> Option<u32>
    ensures { result ≡ label_named names.now labels.now name.now }
{
    match names.place_of(name) {
        Some(position) => Some(label_at(labels, position)),
        None => None,
    }
}

// The label at a position, where there is one.
fn label_at(labels: &List<u32>, position: usize) -> u32
    ensures { result ≡ slice_index_or labels.now position 0 }
{
    match labels.get(position) {
        Some(label) => *label,
        None => 0,
    }
}

impl Functions {
    /// No functions. Takes no memory.
    pub fn new(alloc: Global) -> Functions
        ensures names { result.names ≡ [] }
        ensures labels { result.labels ≡ [] }
    {
        Functions {
            names: Names::new(alloc),
            labels: List::new(alloc),
        }
    }

    /// Adds a function, inside all others.
    pub fn add(&mut self, def: &FunDef) -> Result<(), Memory>
        ensures names { OnOk result (self.new.names ≡ self.old.names ++ def.now.name ∷ []) }
        ensures labels { OnOk result (self.new.labels ≡ self.old.labels ++ def.now.mark.label ∷ []) }
    {
        self.names.push(&def.name)?;
        self.labels.add(def.mark.label)
    }

    /// Adds functions, inside all others.
    pub fn add_all(&mut self, defs: &[FunDef]) -> Result<(), Memory>
        ensures names { OnOk result (self.new.names ≡ self.old.names ++ defined_names (all_defs defs.now)) }
        ensures labels { OnOk result (self.new.labels ≡ self.old.labels ++ defined_labels (all_defs defs.now)) }
    {
        for def in defs {
            self.add(def)?;
        }
        Ok(())
    }

    /// The functions of a module.
    pub fn of_module(alloc: Global, defs: &[Shared<FunDef>]) -> Result<Functions, Memory>
        ensures names { IfOk result (λ functions. functions.names ≡ defined_names (all_defs defs.now)) }
        ensures labels { IfOk result (λ functions. functions.labels ≡ defined_labels (all_defs defs.now)) }
    {
        let mut functions = Functions::new(alloc);
        for def in defs {
            functions.add(def.get())?;
        }
        Ok(functions)
    }

    /// Only the first `len` functions are left.
    pub fn leave(&mut self, len: usize)
        ensures names { self.new.names ≡ take len self.old.names }
        ensures labels { self.new.labels ≡ take len self.old.labels }
    {
        if len < self.names.len() {
            self.names.leave(len);
        }
        self.labels.truncate(len);
    }

    /// The label of the innermost function that has the name. Takes no memory.
    pub fn label_named(&self, name: &FunName) -> Option<u32>
        ensures { result ≡ label_named self.now.names self.now.labels name.now }
    {
        label_named(&self.names, &self.labels, name)
    }
}
