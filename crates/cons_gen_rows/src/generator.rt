//! What a walk through a text has made so far, and its small steps.
ghost use Rattle.std.specs.Prelude.{◌≡◌, ◌+◌, ◌-◌, ◌≤◌, [], ◌∷◌, drop, length, take, IfOk, OnOk};
ghost use Rattle.core_ast.specs.Tree.{all_defs};
ghost use Rattle.core_scope.specs.Names.{defined_names};
ghost use Rattle.cons_tree.specs.Constraints.{only};
ghost use Rattle.cons_tree.specs.Named.{just_true};
ghost use Rattle.cons_gen_rows.specs.Scopes.{binding};
ghost use Rattle.cons_gen_rows.specs.Walking.{Adds, Binds, Defines, Gathers, Rotates, bindings_at};
ghost use Rattle.cons_gen_rows.specs.Words.{bound, equal, one_of, together};
ghost use Rattle.cons_gen_rows.specs.steps.Pushing.{Pushes};

use crate::types::true_type;
use crate::variables::Variables;
use cons_tree::{Constraint, Part, Slot};
use core_ast::{FunDef, FunName, VarName};
use core_scope::{Names, is_text};
use std::alloc::{AllocFailed, Global};
use type_kinds::{Atom, List, Memory, Shared};
use type_lattice::Ty;

/// What a walk through a text has made: the scope at the position where it stands, the number of the next free
/// slot, and the rows so far. An alternative takes up the rows that were added since it began.
#[derive(Drop)]
pub struct Generator {
    pub alloc: Global,
    pub variables: Variables,
    pub functions: Names<FunName>,
    pub next: Slot,
    pub members: Vec<Constraint>,
}

// Each drops what wasn't stored.
fn discard_failed(_failed: AllocFailed<Constraint>) {}

fn discard_members(_members: Vec<Constraint>) {}

impl Generator {
    /// Nothing was made, and the next free slot has this number. Takes no memory.
    pub fn new(alloc: Global, next: Slot) -> Generator
        ensures variables { result.variables ≡ [] }
        ensures functions { result.functions ≡ [] }
        ensures next { result.next ≡ next }
        ensures members { result.members.items ≡ [] }
    {
        Generator {
            alloc,
            variables: Variables::new(alloc),
            functions: Names::new(alloc),
            next,
            members: Vec::new(alloc),
        }
    }

    /// How many rows there are.
    pub fn count(&self) -> usize
        ensures { result ≡ length self.now.members.items }
    {
        self.members.len()
    }

    /// Takes `count` slots and answers the first. `Memory`: the slots end.
    pub fn take(&mut self, count: usize) -> Result<Slot, Memory>
        ensures first { IfOk result (λ first. first ≡ self.old.next) }
        ensures taken { OnOk result (Adds self.old self.new count []) }
    {
        let first = self.next;
        match first.checked_add(count as u64) {
            Some(next) => {
                self.next = next;
                Ok(first)
            }
            None => Err(Memory),
        }
    }

    // Adds a constraint. `Memory` if allocation fails.
    fn push(&mut self, constraint: Constraint) -> Result<(), Memory>
        ensures { OnOk result (Pushes self.old self.new constraint) }
    {
        match self.members.push(constraint) {
            Ok(()) => Ok(()),
            Err(failed) => {
                discard_failed(failed);
                Err(Memory)
            }
        }
    }

    /// Adds a part. `Memory` if allocation fails, here and below.
    #[tactic(auto, using(crate::proofs::Adding::adds_part))]
    pub fn add(&mut self, part: Part) -> Result<(), Memory>
        ensures { OnOk result (Adds self.old self.new 0 (only part ∷ [])) }
    {
        self.push(Constraint::Part(part))
    }

    /// Adds that a slot's value is of a type.
    pub fn bound(&mut self, slot: Slot, ty: Ty) -> Result<(), Memory>
        ensures { OnOk result (Adds self.old self.new 0 (bound slot ty)) }
    {
        let shared = Shared::new(self.alloc, ty)?;
        self.add(Part::Bound(slot, shared))
    }

    /// Adds that two slots have one value.
    pub fn equal(&mut self, left: Slot, right: Slot) -> Result<(), Memory>
        ensures { OnOk result (Adds self.old self.new 0 (equal left right)) }
    {
        self.add(Part::Equal(left, right))
    }

    /// Adds that a slot's value is true.
    pub fn holds(&mut self, slot: Slot) -> Result<(), Memory>
        ensures { OnOk result (Adds self.old self.new 0 (bound slot just_true)) }
    {
        let yes = true_type(self.alloc)?;
        self.bound(slot, yes)
    }

    // Takes the members from a position on away from the others.
    fn taken_since(&mut self, start: usize) -> Result<List<Constraint>, Memory>
        requires { start ≤ length self.old.members.items }
        ensures taken { IfOk result (λ taken. taken ≡ drop start self.old.members.items) }
        ensures left { OnOk result (self.new.members.items ≡ take start self.old.members.items) }
        ensures next { self.new.next ≡ self.old.next }
        ensures variables { self.new.variables ≡ self.old.variables }
        ensures functions { self.new.functions ≡ self.old.functions }
    {
        match self.members.split_off(start) {
            Ok(taken) => Ok(List::from_vec(taken)),
            Err(_) => Err(Memory),
        }
    }

    /// Makes one constraint of the rows from a position on: all of them.
    pub fn all_since(&mut self, start: usize) -> Result<(), Memory>
        requires { start ≤ length self.old.members.items }
        ensures { OnOk result (Gathers (λ rows. together rows ∷ []) start self.old self.new) }
    {
        let all = self.taken_since(start)?;
        self.push(Constraint::All(all))
    }

    /// Makes one constraint of the rows from a position on: one of them.
    pub fn any_since(&mut self, start: usize) -> Result<(), Memory>
        requires { start ≤ length self.old.members.items }
        ensures { OnOk result (Gathers one_of start self.old self.new) }
    {
        let any = self.taken_since(start)?;
        self.push(Constraint::Any(any))
    }

    /// Puts the rows from the middle on before those that stand between the start and the middle, which begin at
    /// the answered position then.
    pub fn rotate(&mut self, start: usize, middle: usize) -> usize
        requires start { start ≤ middle }
        requires middle { middle ≤ length self.old.members.items }
        ensures start { result ≡ start + (length self.old.members.items - middle) }
        ensures rows { Rotates start middle self.old self.new }
    {
        let added = self.count() - middle;
        let rows = &mut self.members[start..];
        rows.rotate_left(middle - start);
        start + added
    }

    /// Binds a variable to a slot, inside all others. `_` binds nothing.
    pub fn bind(&mut self, name: &Atom, slot: Slot) -> Result<(), Memory>
        ensures { OnOk result (Binds self.old self.new 0 [] (binding name.now slot)) }
    {
        if is_text(name, b"_") {
            return Ok(());
        }
        self.variables.push(name, slot)
    }

    /// Binds variables, each to the slot at its position.
    pub fn bind_all(&mut self, vars: &[VarName], slots: &[Slot]) -> Result<(), Memory>
        ensures { OnOk result (Binds self.old self.new 0 [] (bindings_at vars.now slots.now)) }
    {
        let count = vars.len().min(slots.len());
        for position in 0..count {
            self.bind(&vars[position].name, slots[position])?;
        }
        Ok(())
    }

    // Names a function, inside all others.
    fn define(&mut self, name: &FunName) -> Result<(), Memory>
        ensures { OnOk result (Defines self.old self.new (name.now ∷ [])) }
    {
        self.functions.push(name)
    }

    /// Names the functions of a `letrec`, inside all others.
    pub fn define_all(&mut self, defs: &[FunDef]) -> Result<(), Memory>
        ensures { OnOk result (Defines self.old self.new (defined_names (all_defs defs.now))) }
    {
        for def in defs {
            self.define(&def.name)?;
        }
        Ok(())
    }

    /// Names functions, inside all others.
    pub fn define_names(&mut self, names: &[FunName]) -> Result<(), Memory>
        ensures { OnOk result (Defines self.old self.new names.now) }
    {
        for name in names {
            self.define(name)?;
        }
        Ok(())
    }
}
