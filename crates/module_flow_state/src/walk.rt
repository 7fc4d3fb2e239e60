//! The state of a walk, and its small steps.
ghost use Rattle.std.specs.Prelude.{◌≡◌, ◌≤◌, ◌-◌, ◌++◌, ◌∷◌, [], cond, false, true};
ghost use Rattle.std.specs.Prelude.{None, Some, length, replicate, is_some, IfOk, OnOk};
ghost use Rattle.core_ast.specs.Tree.{all_defs, all_trees, tree};
ghost use Rattle.core_scope.specs.Asks.{function_name};
ghost use Rattle.type_lattice.specs.Types.{any, is_none, meet};
ghost use Rattle.cons_gen_rows.specs.Words.{function_type};
ghost use Rattle.cons_tree.specs.Constraints.{constraint};
ghost use Rattle.cons_tree.specs.Named.{naturals};
ghost use Rattle.cons_tree.specs.Trails.{answer, laid, Within};
ghost use Rattle.cons_solve.specs.Environments.{solution};
ghost use Rattle.cons_gen_rows.specs.Scopes.{binding};
ghost use Rattle.warn_list.specs.declared.finding.FindingKind.TheVariants.{DeadCall};
ghost use Rattle.warn_list.specs.declared.finding.CallText.TheVariants.{Local, Remote, Value};
ghost use Rattle.module_flow_calls.specs.declared.functions.ResolvedName.TheVariants.{Top};
ghost use Rattle.module_flow_state.specs.declared.states.Contribution.TheVariants.{Enters};
ghost use Rattle.module_flow_calls.specs.NodeContext.{at_node};
ghost use Rattle.module_flow_state.specs.Applications.{applied, by_meaning, enters, may_apply, may_by_meaning};
ghost use Rattle.module_flow_state.specs.Applications.{resolved_name, unless_function, unless_given, where_meets};
ghost use Rattle.module_flow_calls.specs.Calls.{called, may_return};
ghost use Rattle.module_flow_calls.specs.TypeLists.{value};
ghost use Rattle.module_flow_state.specs.States.{returns};
ghost use Rattle.module_flow_state.specs.Scopes.{argument_names, argument_slot, argument_slots, of_variable, outermost};
ghost use Rattle.module_flow_state.specs.Scopes.{type_of, variable_name, variable_names, with_functions, with_variables};
ghost use Rattle.module_flow_state.specs.World.{lenient, strict};
ghost use Rattle.module_flow_state.specs.steps.Walking.{first_listed, left, noting, reporting_if, seeing};
ghost use Rattle.module_flow_state.specs.steps.Walking.{walk_scope_of, undefined, with_bindings, with_types, world_of};

use crate::states::{Contribution, FlowStates};
use cons_gen::InScope;
use cons_gen_rows::{all_naturals, function_type};
use cons_solve::solve_slots;
use cons_tree::{Callee, Constraint, Slot, Slots, Summaries, TrailEntry, add_anys, copy_types};
use core_ast::{Expr, Form, FunDef, FunName, Mark, VarName};
use core_scope::is_text;
use module_flow_calls::{
    Functions, Given, NodeContext, ResolvedName, as_many, by_state, called, discard, discard_given,
    first, function_name, label_named, may_return, meets, one, value,
};
use std::alloc::Global;
use type_kinds::{Atom, List, Memory, Shared};
use type_lattice::Ty;
use warn_list::{CallText, Finding, FindingKind};

/// What a walk knows: the module in which the text stands and its functions, what is known of all others, and
/// the state of the flow.
#[derive(Clone, Copy)]
pub struct WalkContext<'a> {
    pub home: &'a Atom,
    pub tops: &'a Functions,
    pub known: &'a Summaries,
    pub state: &'a FlowStates,
}

/// The state of a walk: what is in scope where it stands, the labels of the functions there, the types of all
/// slots, what it has given to the state and what it has found.
#[derive(Drop)]
pub struct FlowWalk {
    pub alloc: Global,
    pub scope: InScope,
    pub labels: List<u32>,
    pub types: List<Shared<Ty>>,
    pub contributions: List<Contribution>,
    pub found: List<Finding>,
    /// Whether it notes what it finds, as the last walk does outside of guards.
    pub reporting: bool,
}

/// How many variables are in scope, and how many slots there are.
#[derive(Clone, Copy, Debug)]
pub struct ScopePosition {
    pub variables: usize,
    pub types: usize,
}

/// Whether a constraint left a solution, and what the slots were that it lowered.
#[derive(Drop)]
pub struct Narrowed {
    pub alive: bool,
    pub trail: List<TrailEntry>,
}

impl FlowWalk {
    /// Nothing was walked, and nothing is in scope.
    pub fn new(alloc: Global, reporting: bool) -> FlowWalk
        ensures walk_scope { walk_scope_of result ≡ outermost }
        ensures contributions { result.contributions ≡ [] }
        ensures found { result.found ≡ [] }
        ensures reporting { result.reporting ≡ reporting }
    {
        FlowWalk {
            alloc,
            scope: InScope::new(alloc),
            labels: List::new(alloc),
            types: List::new(alloc),
            contributions: List::new(alloc),
            found: List::new(alloc),
            reporting,
        }
    }

    // ---- scope

    /// What is in scope here.
    pub fn position(&self) -> ScopePosition
        ensures variables { result.variables ≡ length self.now.scope.variables }
        ensures types { result.types ≡ length self.now.types }
    {
        ScopePosition {
            variables: self.scope.variables.len(),
            types: self.types.len(),
        }
    }

    /// Ends what came into scope since the position.
    pub fn leave(&mut self, position: ScopePosition)
        ensures { self.new ≡ left self.old position.variables position.types }
    {
        self.scope.variables.leave(position.variables);
        self.types.truncate(position.types);
    }

    /// Binds variables of these types, inside all others. `Memory` past 2^64 slots, too.
    pub fn bind(&mut self, vars: &[VarName], types: List<Ty>) -> Result<(), Memory>
        ensures { OnOk result (self.new ≡ seeing self.old (with_variables (walk_scope_of self.old) vars.now types)) }
    {
        let first = self.types.len() as u64;
        let types = as_many(types, vars.len())?;
        for position in 0..vars.len() {
            let Some(slot) = first.checked_add(position as u64) else {
                return Err(Memory);
            };
            self.bind_one(&vars[position].name, slot)?;
        }
        self.add_types(types)
    }

    // Binds a variable to a slot. `_` binds nothing.
    fn bind_one(&mut self, name: &Atom, slot: Slot) -> Result<(), Memory>
        ensures { OnOk result (self.new ≡ with_bindings self.old (binding name.now slot)) }
    {
        if is_text(name, b"_") {
            return Ok(());
        }
        self.scope.variables.push(name, slot)
    }

    /// Adds types of slots.
    pub fn add_types(&mut self, types: List<Ty>) -> Result<(), Memory>
        ensures { OnOk result (self.new ≡ with_types self.old (self.old.types ++ types)) }
    {
        for ty in types.into_vec() {
            let shared = Shared::new(self.alloc, ty)?;
            self.types.add(shared)?;
        }
        Ok(())
    }

    /// Adds slots that may be anything, up to this number.
    pub fn add_slots(&mut self, end: Slot) -> Result<(), Memory>
        ensures { OnOk result (self.new ≡ with_types self.old (self.old.types ++ replicate (end - length self.old.types) any)) }
    {
        let count = (end as usize).saturating_sub(self.types.len());
        add_anys(self.alloc, &mut self.types, count as u64)
    }

    /// Names the functions of a `letrec`, inside all others.
    pub fn define(&mut self, defs: &[FunDef]) -> Result<(), Memory>
        ensures { OnOk result (self.new ≡ seeing self.old (with_functions (walk_scope_of self.old) (all_defs defs.now))) }
    {
        for def in defs {
            self.scope.functions.push(&def.name)?;
            self.labels.add(def.mark.label)?;
        }
        Ok(())
    }

    /// Ends all but the first `functions` functions and the first `labels` labels.
    pub fn undefine(&mut self, functions: usize, labels: usize)
        requires { functions ≤ length self.old.scope.functions }
        ensures { self.new ≡ undefined self.old functions labels }
    {
        self.scope.functions.leave(functions);
        self.labels.truncate(labels);
    }

    /// The type of a variable.
    pub fn variable(&self, name: &Atom) -> Result<Given, Memory>
        ensures { IfOk result (λ given. given ≡ of_variable (type_of (walk_scope_of self.now) name.now)) }
    {
        match self.scope.variables.slot_of(name) {
            Some(slot) => match self.types.get(slot as usize) {
                Some(ty) => value(self.alloc, ty.get().copy()?),
                None => value(self.alloc, Ty::any()),
            },
            None => Ok(None),
        }
    }

    /// The slots of the `count` arguments of a `case`, of which those that are no variables have the next ones.
    pub fn matched_slots(&self, argument: &Expr, count: usize) -> Result<List<Slot>, Memory>
        ensures { IfOk result (λ slots. slots ≡ argument_slots self.now.scope.variables (length self.now.types) (argument_names (tree argument.now) count)) }
    {
        let next = self.types.len() as u64;
        match &argument.form {
            Form::Values(items) => self.item_slots(items.as_slice(), next),
            Form::Var(name) => self.variable_slot(name, next),
            _ => self.own_slots(count, next),
        }
    }

    // The slots of these items, of which those that are no variables have the next ones. `Memory` past 2^64 slots, too.
    fn item_slots(&self, items: &[Expr], next: Slot) -> Result<List<Slot>, Memory>
        ensures { IfOk result (λ slots. slots ≡ argument_slots self.now.scope.variables next (variable_names (all_trees items.now))) }
    {
        let mut slots = List::new(self.alloc);
        for position in 0..items.len() {
            let Some(own) = next.checked_add(position as u64) else {
                return Err(Memory);
            };
            slots.add(self.matched_slot(&items[position], own))?;
        }
        Ok(slots)
    }

    // The slot of one variable, or else the next one.
    fn variable_slot(&self, name: &Atom, next: Slot) -> Result<List<Slot>, Memory>
        ensures { IfOk result (λ slots. slots ≡ argument_slots self.now.scope.variables next (Some name.now ∷ [])) }
    {
        let mut slots = List::new(self.alloc);
        slots.add(self.slot_or(name, next))?;
        Ok(slots)
    }

    // The next `count` slots. `Memory` past 2^64 slots, too.
    fn own_slots(&self, count: usize, next: Slot) -> Result<List<Slot>, Memory>
        ensures { IfOk result (λ slots. slots ≡ argument_slots self.now.scope.variables next (replicate count None)) }
    {
        let mut slots = List::new(self.alloc);
        for position in 0..count {
            let Some(own) = next.checked_add(position as u64) else {
                return Err(Memory);
            };
            slots.add(own)?;
        }
        Ok(slots)
    }

    // The slot of a variable, or else the own one.
    fn matched_slot(&self, item: &Expr, own: Slot) -> Slot
        ensures { result ≡ argument_slot self.now.scope.variables own (variable_name (tree item.now)) }
    {
        match &item.form {
            Form::Var(name) => self.slot_or(name, own),
            _ => own,
        }
    }

    // The slot that a variable is bound to, or else this one.
    fn slot_or(&self, name: &Atom, own: Slot) -> Slot
        ensures { result ≡ argument_slot self.now.scope.variables own (Some name.now) }
    {
        match self.scope.variables.slot_of(name) {
            Some(slot) => slot,
            None => own,
        }
    }

    // ---- clauses

    /// Narrows the types to the solution of a constraint.
    pub fn narrow(&mut self, asked: &Constraint) -> Result<Narrowed, Memory>
        ensures solved { IfOk result (λ narrowed. solution (constraint asked.now) self.old.types ≡ answer narrowed.alive self.new.types) }
        ensures back { IfOk result (λ narrowed. laid narrowed.trail self.new.types ≡ self.old.types) }
        ensures within { IfOk result (λ narrowed. Within (length self.new.types) narrowed.trail) }
        ensures others { OnOk result (self.new ≡ with_types self.old self.new.types) }
    {
        let types = std::mem::replace(&mut self.types, List::new(self.alloc));
        let mut slots = Slots::new(self.alloc, types);
        let mut visits = 0;
        let alive = solve_slots(self.alloc, asked, &mut slots, &mut visits)?;
        let trail = std::mem::replace(&mut slots.trail, List::new(self.alloc));
        self.types = slots.into_types();
        Ok(Narrowed { alive, trail })
    }

    /// Puts back what was lowered.
    pub fn restore(&mut self, trail: List<TrailEntry>)
        requires { Within (length self.old.types) trail }
        ensures { self.new ≡ with_types self.old (laid trail self.old.types) }
    {
        let types = std::mem::replace(&mut self.types, List::new(self.alloc));
        let mut slots = Slots::new(self.alloc, types);
        discard_trail_entries(std::mem::replace(&mut slots.trail, trail));
        slots.undo(0);
        self.types = slots.into_types();
    }

    /// Whether a timeout may end, after which the action of a `receive` runs: one of this type may be a number of milliseconds.
    pub fn may_end(&self, limit: Ty) -> Result<bool, Memory>
        ensures { IfOk result (λ may. is_none (meet limit naturals) ≡ cond may false true) }
    {
        let may = meets(self.alloc, &limit, &all_naturals());
        discard(limit);
        may
    }

    // ---- what is noted

    /// Notes what is found at a node.
    pub fn report(
        &mut self,
        around: NodeContext,
        mark: &Mark,
        kind: FindingKind,
    ) -> Result<(), Memory>
        ensures { OnOk result (self.new ≡ noting self.old [] (at_node around mark.now kind)) }
    {
        if !self.reporting || around.quiet {
            discard_kind(kind);
            return Ok(());
        }
        let line = match around.line {
            Some(line) => line,
            None => mark.place.line,
        };
        self.found.add(Finding {
            label: mark.label,
            kind,
            line,
        })
    }

    /// Notes nothing of what it finds from here on, and tells whether it did before.
    pub fn mute(&mut self) -> bool
        ensures before { result ≡ self.old.reporting }
        ensures after { self.new ≡ reporting_if self.old false }
    {
        std::mem::replace(&mut self.reporting, false)
    }

    /// Notes what it finds again, if it did before.
    pub fn resume(&mut self, reporting: bool)
        ensures { self.new ≡ reporting_if self.old reporting }
    {
        self.reporting = reporting;
    }

    /// Notes that a function gives a value.
    pub fn give(&mut self, label: u32, given: Given) -> Result<(), Memory>
        ensures { OnOk result (self.new ≡ noting self.old (returns label given) []) }
    {
        match given {
            Some(types) => self
                .contributions
                .add(Contribution::Returns(label, first(types))),
            None => Ok(()),
        }
    }

    // ---- calls

    // What a name of a function stands for.
    fn resolved_name(&self, context: &WalkContext, name: &FunName) -> ResolvedName
        ensures { result ≡ resolved_name (world_of context.now) (walk_scope_of self.now) name.now }
    {
        match label_named(&self.scope.functions, &self.labels, name) {
            Some(label) => ResolvedName::Inner(label),
            None => match context.tops.label_named(name) {
                Some(label) => ResolvedName::Top(label),
                None => ResolvedName::Nothing,
            },
        }
    }

    /// The application of a name to arguments of these types.
    pub fn apply_name(
        &mut self,
        context: &WalkContext,
        around: NodeContext,
        mark: &Mark,
        name: &FunName,
        types: List<Ty>,
    ) -> Result<Given, Memory>
        ensures given { IfOk result (λ given. given ≡ applied (world_of context.now) (walk_scope_of self.old) name.now types) }
        ensures noted { OnOk result (self.new ≡ noting self.old (enters (world_of context.now) (walk_scope_of self.old) name.now types)
            (unless_given (may_apply (world_of context.now) (walk_scope_of self.old) name.now types) (at_node around mark.now (DeadCall (Local name.now))))) }
    {
        if name.arity as usize != types.len() {
            self.report_name(around, mark, name)?;
            return Ok(None);
        }
        match self.resolved_name(context, name) {
            ResolvedName::Inner(label) => {
                let given = one(self.alloc, context.state.result(label)?)?;
                self.contributions.add(Contribution::Enters(label, types))?;
                Ok(given)
            }
            ResolvedName::Top(label) => self.apply_top(context, around, mark, name, label, types),
            ResolvedName::Nothing => {
                self.report_name(around, mark, name)?;
                Ok(None)
            }
        }
    }

    // The application of a function of the module.
    fn apply_top(
        &mut self,
        context: &WalkContext,
        around: NodeContext,
        mark: &Mark,
        name: &FunName,
        label: u32,
        types: List<Ty>,
    ) -> Result<Given, Memory>
        ensures given { IfOk result (λ given. given ≡ by_meaning (world_of context.now) name.now (Top label) types) }
        ensures noted { OnOk result (self.new ≡ noting self.old (Enters label types ∷ [])
            (unless_given (may_by_meaning (world_of context.now) name.now (Top label) types) (at_node around mark.now (DeadCall (Local name.now))))) }
    {
        let callee = context.known.find(context.home, name);
        self.report_dead_name(around, mark, name, callee, types.as_slice())?;
        let result = context.state.result(label)?;
        let given = by_state(self.alloc, result, callee, types.as_slice())?;
        self.contributions.add(Contribution::Enters(label, types))?;
        Ok(given)
    }

    // Reports the application of a name that may not return.
    fn report_dead_name(
        &mut self,
        around: NodeContext,
        mark: &Mark,
        name: &FunName,
        callee: &Callee,
        types: &[Ty],
    ) -> Result<(), Memory>
        ensures { OnOk result (self.new ≡ noting self.old []
            (unless_given (may_return callee.now types.now) (at_node around mark.now (DeadCall (Local name.now))))) }
    {
        if !self.reporting || around.quiet {
            return Ok(());
        }
        let may = may_return(self.alloc, callee, types)?;
        if may {
            return Ok(());
        }
        self.report_name(around, mark, name)
    }

    // Reports the application of a name.
    fn report_name(
        &mut self,
        around: NodeContext,
        mark: &Mark,
        name: &FunName,
    ) -> Result<(), Memory>
        ensures { OnOk result (self.new ≡ noting self.old [] (at_node around mark.now (DeadCall (Local name.now)))) }
    {
        let name = name.copy(self.alloc)?;
        self.report(around, mark, FindingKind::DeadCall(CallText::Local(name)))
    }

    /// The application of a value of this type to `count` arguments.
    pub fn apply_value(
        &mut self,
        around: NodeContext,
        mark: &Mark,
        operator: Ty,
        count: usize,
    ) -> Result<Given, Memory>
        ensures given { IfOk result (λ given. given ≡ where_meets operator (function_type count) (value any)) }
        ensures noted { OnOk result (self.new ≡ noting self.old [] (unless_function operator count (at_node around mark.now (DeadCall (Value count))))) }
    {
        let may = meets(self.alloc, &operator, &function_type(count));
        discard(operator);
        if may? {
            return value(self.alloc, Ty::any());
        }
        self.report_value(around, mark, count)?;
        Ok(None)
    }

    // Reports the application of a value to `count` arguments. `Memory` for 2^32 or more, too.
    fn report_value(&mut self, around: NodeContext, mark: &Mark, count: usize) -> Result<(), Memory>
        ensures { OnOk result (self.new ≡ noting self.old [] (at_node around mark.now (DeadCall (Value count)))) }
    {
        let Ok(count) = u32::try_from(count) else {
            return Err(Memory);
        };
        self.report(around, mark, FindingKind::DeadCall(CallText::Value(count)))
    }

    /// The call by a literal module and name with arguments of these types.
    pub fn call(
        &mut self,
        context: &WalkContext,
        around: NodeContext,
        mark: &Mark,
        home: &Atom,
        name: &Atom,
        types: &[Ty],
    ) -> Result<Given, Memory>
        ensures given { IfOk result (λ given. given ≡ called (strict (world_of context.now)) home.now name.now types.now) }
        ensures noted { OnOk result (self.new ≡ noting self.old []
            (unless_given (called (lenient (world_of context.now)) home.now name.now types.now)
            (at_node around mark.now (DeadCall (Remote home.now (function_name name.now (length types.now))))))) }
    {
        self.report_dead_call(context, around, mark, home, name, types)?;
        called(self.alloc, context.known, false, home, name, types)
    }

    // Reports the call that may not return.
    fn report_dead_call(
        &mut self,
        context: &WalkContext,
        around: NodeContext,
        mark: &Mark,
        home: &Atom,
        name: &Atom,
        types: &[Ty],
    ) -> Result<(), Memory>
        ensures { OnOk result (self.new ≡ noting self.old []
            (unless_given (called (lenient (world_of context.now)) home.now name.now types.now)
            (at_node around mark.now (DeadCall (Remote home.now (function_name name.now (length types.now))))))) }
    {
        if !self.reporting || around.quiet {
            return Ok(());
        }
        let given = called(self.alloc, context.known, true, home, name, types)?;
        if given.is_some() {
            discard_given(given);
            return Ok(());
        }
        let function = function_name(self.alloc, name, types.len())?;
        let home = home.copy(self.alloc)?;
        self.report(
            around,
            mark,
            FindingKind::DeadCall(CallText::Remote(home, function)),
        )
    }
}

/// Adds the first type, and says whether there are types.
pub fn add_first(given: Given, types: &mut List<Ty>) -> Result<bool, Memory>
    ensures there { IfOk result (λ there. there ≡ is_some given) }
    ensures added { OnOk result (types.new ≡ types.old ++ first_listed given) }
{
    match given {
        Some(list) => {
            types.add(first(list))?;
            Ok(true)
        }
        None => Ok(false),
    }
}

// Drops entries, or a kind.
fn discard_trail_entries(_entries: List<TrailEntry>) {}

fn discard_kind(_kind: FindingKind) {}
