//! The functions of modules that are analysed together, found by module and name.
ghost use Rattle.std.specs.Prelude.{◌≡◌, ℕ, ◌+◌, ◌<◌, [], Some, true, length, map, IfOk, OnOk};
ghost use Rattle.indexmap.specs.IndexMap.{insert_entry};
ghost use Rattle.indexmap.specs.IndexSet.{insert_key};
ghost use Rattle.core_ast.specs.Tree.{all_defs, module_tree};
ghost use Rattle.core_scope.specs.Asks.{function_name};
ghost use Rattle.core_scope.specs.Checked.{module_of, tree_of};
ghost use Rattle.core_scope.specs.Names.{same_atom};
ghost use Rattle.core_scope.specs.Sets.{StandsEarlier};
ghost use Rattle.call_graph.specs.Calls.{functions_in, module_functions};
ghost use Rattle.call_graph.specs.Tables.{IsTableOf, key_of, own_number, reached, resolved, same_key};
ghost use Rattle.call_graph.specs.steps.Building.{Adds};

use crate::keys::FunctionKey;
use core_ast::{FunDef, FunName, Module};
use core_scope::{AsChecked, Names};
use indexmap::{IndexMap, IndexSet};
use std::alloc::Global;
use type_kinds::{Atom, Memory, Shared};

/// What a table has of a function.
#[derive(Clone, Copy, Debug)]
pub struct FunctionEntry {
    /// How many functions stand before it: those of the modules before its own, and those before it in its
    /// module's text.
    pub number: u32,
    /// Whether its module exports it.
    pub exported: bool,
}

/// What a call by literal module and name reaches.
#[derive(Clone, Copy, Debug, PartialEq, Eq)]
pub enum Resolved {
    /// The module `erlang`, whose functions are the built-in ones, also where a module of that name was passed.
    BuiltIn,
    /// Another module that isn't among those that were passed.
    NotPassed,
    /// A module that was passed and doesn't export such a function.
    NotExported,
    /// The function of this number.
    Function(u32),
}

/// The functions of modules, numbered from 0: the modules in the order passed, each module's functions in
/// the order of its text. A look-up is one in a hash table.
#[derive(Drop)]
pub struct FunctionTable {
    alloc: Global,
    modules: IndexSet<Atom>,
    functions: IndexMap<FunctionKey, FunctionEntry>,
    count: u32,
}

/// Drops a table.
pub fn discard_table(_table: FunctionTable) {}

/// The table of the functions of modules with distinct names. `Memory`: allocation failed, or there are 2^32
/// functions or more.
pub fn function_table<S: AsChecked>(alloc: Global, mods: &[S]) -> Result<FunctionTable, Memory>
    requires distinct { (j : ℕ) → j < length mods.now → StandsEarlier (map (λ s. (module_of (S.stands_for s)).name) mods.now) j → ⊥ }
    ensures { IfOk result (λ table. IsTableOf (map (λ s. tree_of (S.stands_for s)) mods.now) table) }
{
    let mut table = FunctionTable::new(alloc);
    for source in mods {
        table.add_module(source.checked().module())?;
    }
    Ok(table)
}

impl FunctionTable {
    /// No functions. Takes no memory.
    pub(crate) fn new(alloc: Global) -> FunctionTable
        ensures modules { result.modules.keys ≡ [] }
        ensures functions { result.functions.entries ≡ [] }
        ensures count { result.count ≡ 0 }
    {
        FunctionTable {
            alloc,
            modules: IndexSet::new(alloc),
            functions: IndexMap::new(alloc),
            count: 0,
        }
    }

    // Adds a module and its functions behind those that are there.
    fn add_module(&mut self, source: &Module) -> Result<(), Memory>
        ensures functions { OnOk result (Adds self.old self.new (module_functions (module_tree source.now))) }
        ensures modules { OnOk result (self.new.modules.keys ≡ insert_key same_atom self.old.modules.keys source.now.name) }
    {
        let name = source.name.copy(self.alloc)?;
        if self.modules.insert(name).is_err() {
            return Err(Memory);
        }
        let exports = export_names(self.alloc, source.exports.as_slice())?;
        self.add_functions(&source.name, &exports, source.defs.as_slice())
    }

    // Adds the functions of a module that exports these.
    fn add_functions(
        &mut self,
        home: &Atom,
        exports: &Names<FunName>,
        defs: &[Shared<FunDef>],
    ) -> Result<(), Memory>
        ensures functions { OnOk result (Adds self.old self.new (functions_in home.now exports.now (all_defs defs.now))) }
        ensures modules { OnOk result (self.new.modules.keys ≡ self.old.modules.keys) }
    {
        for def in defs {
            let name = &def.get().name;
            let exported = exports.has(name);
            self.add(home, name, exported)?;
        }
        Ok(())
    }

    // Adds one function.
    fn add(&mut self, home: &Atom, name: &FunName, exported: bool) -> Result<(), Memory>
        ensures functions { OnOk result (self.new.functions.entries
            ≡ insert_entry same_key self.old.functions.entries (key_of home.now name.now) (record { number = self.old.count; exported = exported })) }
        ensures count { OnOk result (self.new.count ≡ self.old.count + 1) }
        ensures modules { OnOk result (self.new.modules.keys ≡ self.old.modules.keys) }
    {
        if self.count == u32::MAX {
            return Err(Memory);
        }
        let key = FunctionKey::of(self.alloc, home, name)?;
        let entry = FunctionEntry {
            number: self.count,
            exported,
        };
        if self.functions.insert(key, entry).is_err() {
            return Err(Memory);
        }
        self.count += 1;
        Ok(())
    }

    /// Adds one function, which its module exports, behind those that are there.
    pub(crate) fn add_exported(&mut self, home: &Atom, name: &FunName) -> Result<(), Memory>
        ensures functions { OnOk result (self.new.functions.entries
            ≡ insert_entry same_key self.old.functions.entries (key_of home.now name.now) (record { number = self.old.count; exported = true })) }
        ensures count { OnOk result (self.new.count ≡ self.old.count + 1) }
        ensures modules { OnOk result (self.new.modules.keys ≡ insert_key same_atom self.old.modules.keys home.now) }
    {
        let module = home.copy(self.alloc)?;
        if self.modules.insert(module).is_err() {
            return Err(Memory);
        }
        self.add(home, name, true)
    }

    /// How many functions there are. Takes no memory.
    pub fn count(&self) -> u32
        ensures { result ≡ self.now.count }
    {
        self.count
    }

    /// The number of a module's function by its name, or `None` where there is no such function. `Memory`:
    /// allocation failed.
    pub fn own(&self, home: &Atom, name: &FunName) -> Result<Option<u32>, Memory>
        ensures { IfOk result (λ number. number ≡ own_number self.now home.now name.now) }
    {
        let key = FunctionKey::of(self.alloc, home, name)?;
        match self.functions.get(&key) {
            Some(entry) => Ok(Some(entry.number)),
            None => Ok(None),
        }
    }

    /// What a call by literal module and name reaches, with `count` arguments. `Memory`: allocation failed.
    pub fn called(&self, home: &Atom, name: &Atom, count: usize) -> Result<Resolved, Memory>
        ensures { IfOk result (λ to. to ≡ resolved self.now home.now (function_name name.now count)) }
    {
        if is_text(home, b"erlang") {
            return Ok(Resolved::BuiltIn);
        }
        if !self.modules.contains(home) {
            return Ok(Resolved::NotPassed);
        }
        let key = FunctionKey::new(self.alloc, home, name, count)?;
        match self.functions.get(&key) {
            Some(entry) => Ok(reached(*entry)),
            None => Ok(Resolved::NotExported),
        }
    }
}

// The exports of a module, for look-ups.
fn export_names(alloc: Global, exports: &[FunName]) -> Result<Names<FunName>, Memory>
    ensures { IfOk result (λ names. names ≡ exports.now) }
{
    let mut names = Names::new(alloc);
    for name in exports {
        names.push(name)?;
    }
    Ok(names)
}

// What a call reaches that finds this entry.
fn reached(entry: FunctionEntry) -> Resolved
    ensures { result ≡ reached (Some entry) }
{
    if entry.exported {
        Resolved::Function(entry.number)
    } else {
        Resolved::NotExported
    }
}

// Whether an atom has these bytes.
fn is_text(name: &Atom, bytes: &[u8]) -> bool
    ensures { result ≡ same_atom name.now bytes.now }
{
    name.bytes() == bytes
}
