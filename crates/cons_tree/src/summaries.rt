//! What is known of the functions that a module calls, found by module and name.
ghost use Rattle.std.specs.Prelude.{◌≡◌, ℕ, cond, slice_get, Some, IfOk, OnOk, OnErr};
ghost use Rattle.std.specs.Map.{lookup};
ghost use Rattle.core_ast.specs.declared.syntax.FunName.{FunName};
ghost use Rattle.type_kinds.specs.declared.atom.Atom.{Atom};
ghost use Rattle.cons_tree.specs.declared.parts.Callee.{Callee};
ghost use Rattle.cons_tree.specs.declared.parts.Callee.TheVariants.{Undefined, Unknown};
ghost use Rattle.cons_tree.specs.Callees.{Fits, HomeCallees, callee_in, found, same_home, same_name};

use crate::parts::Callee;
use core_ast::FunName;
use indexmap::IndexMap;
use std::alloc::{AllocFailed, Global};
use std::marker::Model;
use type_kinds::{Atom, Memory};

mod equality;

// The callees of one module, by name, and the callee under every other name.
#[derive(Drop)]
struct CalleeTable {
    callees: IndexMap<FunName, Callee>,
    rest: Callee,
}

impl Model for CalleeTable {
    ghost use Rattle.std.specs.Prelude.{ℕ, List};
    ghost use Rattle.core_ast.specs.declared.syntax.FunName.{FunName};
    ghost use Rattle.cons_tree.specs.declared.parts.Callee.{Callee};
    ghost use Rattle.cons_tree.specs.Callees.{Fits, callee_in};
    ghost use Rattle.cons_tree.specs.Codes.{callees_code};

    ghost Value = { List (FunName × Callee) × Callee };

    ghost coded = { callees_code };

    ghost view = { λ table. (table.callees.entries, table.rest) };

    ghost invariant = { λ table. ((f : FunName) → Fits (callee_in (table.callees.entries, table.rest) f) f.arity) × ((n : ℕ) → Fits table.rest n) };
}

// Each drops what a table returned.
fn discard_callee(_callee: Callee) {}

fn discard_before(_before: Option<Callee>) {}

fn discard_failed(_failed: AllocFailed<(FunName, Callee)>) {}

fn discard_table(_table: CalleeTable) {}

fn discard_summaries(_summaries: Summaries) {}

fn discard_table_before(_before: Option<CalleeTable>) {}

fn discard_failed_table(_failed: AllocFailed<(Atom, CalleeTable)>) {}

impl CalleeTable {
    // A table of one callee, in a module of which nothing else is known.
    fn one(alloc: Global, name: FunName, callee: Callee) -> Result<CalleeTable, Memory>
        requires { Fits callee name.arity }
        ensures { IfOk result (λ table. (f : FunName) → callee_in table f ≡ cond (same_name name f) callee Unknown) }
    {
        let mut table = CalleeTable::open(alloc);
        match table.set(name, callee) {
            Ok(()) => Ok(table),
            Err(Memory) => {
                discard_table(table);
                Err(Memory)
            }
        }
    }

    // The table of a module of which nothing is known. Takes no memory.
    fn open(alloc: Global) -> CalleeTable
        ensures { (f : FunName) → callee_in result f ≡ Unknown }
    {
        CalleeTable::of_rest(alloc, Callee::Unknown)
    }

    // The table of a module that has no functions. Takes no memory.
    fn closed(alloc: Global) -> CalleeTable
        ensures { (f : FunName) → callee_in result f ≡ Undefined }
    {
        CalleeTable::of_rest(alloc, Callee::Undefined)
    }

    // The table in which every name has this callee. Takes no memory.
    fn of_rest(alloc: Global, rest: Callee) -> CalleeTable
        requires { (n : ℕ) → Fits rest n }
        ensures { (f : FunName) → callee_in result f ≡ rest }
    {
        CalleeTable {
            callees: IndexMap::new(alloc),
            rest,
        }
    }

    // Puts a callee under its name, in position of one that is there. If allocation fails all is as
    // before.
    fn set(&mut self, name: FunName, callee: Callee) -> Result<(), Memory>
        requires { Fits callee name.arity }
        ensures ok { OnOk result ((f : FunName) → callee_in self.new f ≡ cond (same_name name f) callee (callee_in self.old f)) }
        ensures err { OnErr result (self.new ≡ self.old) }
    {
        match self.callees.insert(name, callee) {
            Ok(before) => {
                discard_before(before);
                Ok(())
            }
            Err(failed) => {
                discard_failed(failed);
                Err(Memory)
            }
        }
    }

    // Sets what the entry at a position of another table says.
    fn set_entry(&mut self, alloc: Global, table: &CalleeTable, at: usize) -> Result<(), Memory>
        ensures { OnOk result ((e : FunName × Callee) → slice_get (table.now).0 at ≡ Some e → (f : FunName)
            → callee_in self.new f ≡ cond (same_name e.0 f) e.1 (callee_in self.old f)) }
    {
        match table.callees.get_index(at) {
            None => Ok(()),
            Some((name, callee)) => {
                let name = name.copy(alloc)?;
                match callee.copy(alloc) {
                    Ok(callee) => self.set(name, callee),
                    Err(Memory) => Err(Memory),
                }
            }
        }
    }

    // A second table, in which each name has the same callee. The entries are set from the last to the first,
    // so that of a name the first one counts.
    fn copy(&self, alloc: Global) -> Result<CalleeTable, Memory>
        ensures { IfOk result (λ copy. (f : FunName) → callee_in copy f ≡ callee_in self.now f) }
    {
        let rest = self.rest.copy(alloc)?;
        let mut copy = CalleeTable::of_rest(alloc, rest);
        let mut at = self.callees.len();
        while at > 0 {
            at -= 1;
            match copy.set_entry(alloc, self, at) {
                Ok(()) => {}
                Err(Memory) => {
                    discard_table(copy);
                    return Err(Memory);
                }
            }
        }
        Ok(copy)
    }

    // The callee under a name, and where nothing was set the one under every other name.
    fn find(&self, name: &FunName) -> &Callee
        ensures value { result.now ≡ callee_in self.now name.now }
        ensures fits { Fits result.now name.now.arity }
    {
        match self.callees.get(name) {
            Some(callee) => callee,
            None => &self.rest,
        }
    }
}

/// What is known of functions, by module and name.
#[derive(Drop)]
pub struct Summaries {
    alloc: Global,
    tables: IndexMap<Atom, CalleeTable>,
    unknown: Callee,
}

impl Model for Summaries {
    ghost use Rattle.std.specs.Prelude.{◌≡◌, List};
    ghost use Rattle.type_kinds.specs.declared.atom.Atom.{Atom};
    ghost use Rattle.core_ast.specs.declared.syntax.FunName.{FunName};
    ghost use Rattle.cons_tree.specs.declared.parts.Callee.{Callee};
    ghost use Rattle.cons_tree.specs.declared.parts.Callee.TheVariants.{Unknown};
    ghost use Rattle.cons_tree.specs.Codes.{tables_code};

    ghost Value = { List (Atom × (List (FunName × Callee) × Callee)) };

    ghost coded = { tables_code };

    ghost view = { λ it. it.tables.entries };

    ghost invariant = { λ it. it.unknown ≡ Unknown };
}

impl Summaries {
    /// Nothing is known. Takes no memory.
    #[tactic(auto, unfolding(crate::specs::Callees::found))]
    pub fn new(alloc: Global) -> Summaries
        ensures { (h : Atom) (f : FunName) → found result h f ≡ Unknown }
    {
        Summaries {
            alloc,
            tables: IndexMap::new(alloc),
            unknown: Callee::Unknown,
        }
    }

    /// Sets the callee under a module and a name, in position of one that is there. If allocation fails
    /// all is as before.
    pub fn set(&mut self, home: &Atom, name: &FunName, callee: Callee) -> Result<(), Memory>
        requires { Fits callee name.now.arity }
        ensures set { OnOk result (found self.new home.now name.now ≡ callee) }
        ensures others { OnOk result ((h : Atom) (f : FunName) → ((h ≡ home.now) × (f ≡ name.now) → ⊥)
            → found self.new h f ≡ found self.old h f) }
        ensures err { OnErr result (self.new ≡ self.old) }
    {
        match name.copy(self.alloc) {
            Ok(name) => self.put(home, name, callee),
            Err(Memory) => {
                discard_callee(callee);
                Err(Memory)
            }
        }
    }

    // The same with a name of its own.
    fn put(&mut self, home: &Atom, name: FunName, callee: Callee) -> Result<(), Memory>
        requires { Fits callee name.arity }
        ensures set { OnOk result (found self.new home.now name ≡ callee) }
        ensures others { OnOk result ((h : Atom) (f : FunName) → ((h ≡ home.now) × (f ≡ name) → ⊥) → found self.new h f ≡ found self.old h f) }
        ensures err { OnErr result (self.new ≡ self.old) }
    {
        if let Some(table) = self.tables.get_mut(home) {
            return table.set(name, callee);
        }
        match CalleeTable::one(self.alloc, name, callee) {
            Ok(table) => self.add(home, table),
            Err(Memory) => Err(Memory),
        }
    }

    // Adds the table of a module. If allocation fails all is as before.
    fn add(&mut self, home: &Atom, table: CalleeTable) -> Result<(), Memory>
        ensures ok { OnOk result ((q : Atom) → lookup (same_home q) self.new ≡ cond (same_home home.now q) (Some table) (lookup (same_home q) self.old)) }
        ensures err { OnErr result (self.new ≡ self.old) }
    {
        let home = match home.copy(self.alloc) {
            Ok(home) => home,
            Err(Memory) => {
                discard_table(table);
                return Err(Memory);
            }
        };
        match self.tables.insert(home, table) {
            Ok(before) => {
                discard_table_before(before);
                Ok(())
            }
            Err(failed) => {
                discard_failed_table(failed);
                Err(Memory)
            }
        }
    }

    // Adds a second table of the module at a position of other summaries.
    fn add_entry(&mut self, from: &Summaries, at: usize) -> Result<(), Memory>
        ensures { OnOk result ((e : Atom × HomeCallees) → slice_get from.now at ≡ Some e → (h : Atom) (f : FunName)
            → found self.new h f ≡ cond (same_home e.0 h) (callee_in e.1 f) (found self.old h f)) }
    {
        match from.tables.get_index(at) {
            None => Ok(()),
            Some((home, table)) => match table.copy(self.alloc) {
                Ok(table) => self.add(home, table),
                Err(Memory) => Err(Memory),
            },
        }
    }

    /// Second summaries, which have the same callee under each module and name. `Memory` if allocation fails.
    pub fn copy(&self, alloc: Global) -> Result<Summaries, Memory>
        ensures { IfOk result (λ copy. found copy ≡ found self.now) }
    {
        let mut copy = Summaries::new(alloc);
        let mut at = self.tables.len();
        while at > 0 {
            at -= 1;
            match copy.add_entry(self, at) {
                Ok(()) => {}
                Err(Memory) => {
                    discard_summaries(copy);
                    return Err(Memory);
                }
            }
        }
        Ok(copy)
    }

    /// Closes a module, whose functions are all those that are set from now on: each of its names is
    /// `Undefined`, whatever was set for it before. If allocation fails all is as before.
    pub fn close(&mut self, home: &Atom) -> Result<(), Memory>
        ensures closed { OnOk result ((f : FunName) → found self.new home.now f ≡ Undefined) }
        ensures others { OnOk result ((h : Atom) (f : FunName) → (h ≡ home.now → ⊥) → found self.new h f ≡ found self.old h f) }
        ensures err { OnErr result (self.new ≡ self.old) }
    {
        self.add(home, CalleeTable::closed(self.alloc))
    }

    /// The callee under a module and a name. Where nothing was set it is `Undefined` in a module that
    /// was closed, and else `Unknown`. Takes no memory.
    pub fn find(&self, home: &Atom, name: &FunName) -> &Callee
        ensures value { result.now ≡ found self.now home.now name.now }
        ensures fits { Fits result.now name.now.arity }
    {
        match self.tables.get(home) {
            Some(table) => table.find(name),
            None => &self.unknown,
        }
    }
}
