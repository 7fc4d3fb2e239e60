//! The functions of one component, found by module and name.
ghost use Rattle.std.specs.Prelude.{◌≡◌, ◌||◌, [], cond, Some, true, false, IfOk, OnOk, OnErr};
ghost use Rattle.std.specs.Map.{lookup};
ghost use Rattle.core_ast.specs.declared.syntax.FunName.{FunName};
ghost use Rattle.type_kinds.specs.declared.atom.Atom.{Atom};
ghost use Rattle.cons_tree.specs.Callees.{same_home, same_name};
ghost use Rattle.cons_gen_rows.specs.Members.{has_name, is_member};

use core_ast::FunName;
use indexmap::{IndexMap, IndexSet};
use std::alloc::{AllocFailed, Global};
use std::marker::Model;
use type_kinds::{Atom, Memory};

// The functions of one module, by name.
#[derive(Drop)]
struct MemberTable {
    names: IndexSet<FunName>,
}

impl Model for MemberTable {
    ghost use Rattle.std.specs.Prelude.{List};
    ghost use Rattle.core_ast.specs.declared.syntax.FunName.{FunName};
    ghost use Rattle.cons_gen_rows.specs.steps.Codes.{names_code};

    ghost Value = { List FunName };

    ghost coded = { names_code };

    ghost view = { λ table. table.names.keys };
}

// Each drops what a table returned.
fn discard_failed(_failed: AllocFailed<FunName>) {}

fn discard_table(_table: MemberTable) {}

fn discard_table_before(_before: Option<MemberTable>) {}

fn discard_failed_table(_failed: AllocFailed<(Atom, MemberTable)>) {}

impl MemberTable {
    // No functions. Takes no memory.
    fn new(alloc: Global) -> MemberTable
        ensures { result ≡ [] }
    {
        MemberTable {
            names: IndexSet::new(alloc),
        }
    }

    // A table of one function.
    fn one(alloc: Global, name: FunName) -> Result<MemberTable, Memory>
        ensures { IfOk result (λ table. (f : FunName) → has_name table f ≡ same_name name f) }
    {
        let mut table = MemberTable::new(alloc);
        match table.add(name) {
            Ok(()) => Ok(table),
            Err(Memory) => {
                discard_table(table);
                Err(Memory)
            }
        }
    }

    // Adds a function, which may be there already. If allocation fails all is as before.
    fn add(&mut self, name: FunName) -> Result<(), Memory>
        ensures ok { OnOk result ((f : FunName) → has_name self.new f ≡ (same_name name f || has_name self.old f)) }
        ensures err { OnErr result (self.new ≡ self.old) }
    {
        match self.names.insert(name) {
            Ok(_) => Ok(()),
            Err(failed) => {
                discard_failed(failed);
                Err(Memory)
            }
        }
    }

    // Whether a function is there.
    fn has(&self, name: &FunName) -> bool
        ensures { result ≡ has_name self.now name.now }
    {
        self.names.contains(name)
    }
}

/// The functions of one component, by module and name.
#[derive(Drop)]
pub struct Members {
    alloc: Global,
    tables: IndexMap<Atom, MemberTable>,
}

impl Model for Members {
    ghost use Rattle.std.specs.Prelude.{List};
    ghost use Rattle.core_ast.specs.declared.syntax.FunName.{FunName};
    ghost use Rattle.type_kinds.specs.declared.atom.Atom.{Atom};
    ghost use Rattle.cons_gen_rows.specs.steps.Codes.{members_code};

    ghost Value = { List (Atom × List FunName) };

    ghost coded = { members_code };

    ghost view = { λ it. it.tables.entries };
}

impl Members {
    /// No functions. Takes no memory.
    #[tactic(auto, unfolding(crate::specs::Members::is_member))]
    pub fn new(alloc: Global) -> Members
        ensures { (h : Atom) (f : FunName) → is_member result h f ≡ false }
    {
        Members {
            alloc,
            tables: IndexMap::new(alloc),
        }
    }

    /// Adds a function, which may be there already. `Memory` if allocation fails; then all is as before.
    pub fn add(&mut self, home: &Atom, name: &FunName) -> Result<(), Memory>
        ensures added { OnOk result (is_member self.new home.now name.now ≡ true) }
        ensures others { OnOk result ((h : Atom) (f : FunName) → ((h ≡ home.now) × (f ≡ name.now) → ⊥)
            → is_member self.new h f ≡ is_member self.old h f) }
        ensures err { OnErr result (self.new ≡ self.old) }
    {
        match name.copy(self.alloc) {
            Ok(name) => self.put(home, name),
            Err(Memory) => Err(Memory),
        }
    }

    // The same with a name of its own.
    fn put(&mut self, home: &Atom, name: FunName) -> Result<(), Memory>
        ensures added { OnOk result (is_member self.new home.now name ≡ true) }
        ensures others { OnOk result ((h : Atom) (f : FunName) → ((h ≡ home.now) × (f ≡ name) → ⊥)
            → is_member self.new h f ≡ is_member self.old h f) }
        ensures err { OnErr result (self.new ≡ self.old) }
    {
        if let Some(table) = self.tables.get_mut(home) {
            return table.add(name);
        }
        match MemberTable::one(self.alloc, name) {
            Ok(table) => self.put_table(home, table),
            Err(Memory) => Err(Memory),
        }
    }

    // Puts the functions of a module. If allocation fails all is as before.
    fn put_table(&mut self, home: &Atom, table: MemberTable) -> Result<(), Memory>
        ensures ok { OnOk result ((q : Atom) → lookup (same_home q) self.new ≡ cond (same_home home.now q) (Some table) (lookup (same_home q) self.old)) }
        ensures err { OnErr result (self.new ≡ self.old) }
    {
        let home = match home.copy(self.alloc) {
            Ok(home) => home,
            Err(Memory) => {
                discard_table(table);
                return Err(Memory);
            }
        };
        match self.tables.insert(home, table) {
            Ok(before) => {
                discard_table_before(before);
                Ok(())
            }
            Err(failed) => {
                discard_failed_table(failed);
                Err(Memory)
            }
        }
    }

    /// Whether a function is among them. Takes no memory.
    pub fn has(&self, home: &Atom, name: &FunName) -> bool
        ensures { result ≡ is_member self.now home.now name.now }
    {
        match self.tables.get(home) {
            Some(table) => table.has(name),
            None => false,
        }
    }
}
