//! The constraint of a definition, and that of a clause by itself.
ghost use Rattle.std.specs.Prelude.{◌≡◌, [], length, IfOk};
ghost use Rattle.core_ast.specs.Tree.{clause_parts, tree};
ghost use Rattle.cons_tree.specs.Constraints.{constraint};
ghost use Rattle.cons_gen_rows.specs.Knowing.{knowledge};
ghost use Rattle.cons_gen_rows.specs.Slots.{slots_from};
ghost use Rattle.cons_gen_rows.specs.Walking.{rows_of, scope_of};
ghost use Rattle.cons_gen_rows.specs.Words.{together};
ghost use Rattle.cons_gen_rows.specs.declared.passes.Pass.TheVariants.{Strict};
ghost use Rattle.cons_gen.specs.Made.{clause_params, clause_result, clause_slots, constraint_of_clause, constraint_of_definition, definition_slots};
ghost use Rattle.cons_gen.specs.Made.{seen};

use crate::expressions::walk_expression;
use cons_gen_rows::{Generator, Pass, Surroundings, walk_outer};
use cons_tree::{Constraint, Slot, Summaries};
use core_ast::{Clause, FunDef, FunName};
use core_scope::Ask;
use std::alloc::Global;
use type_kinds::{Atom, List, Memory};

/// The constraint of a definition or of a clause.
#[derive(Drop)]
pub struct Made {
    /// What it says of its slots.
    pub constraint: Constraint,
    /// The slots of a definition's parameters, or those of a clause's variables in the order of the text.
    pub params: List<Slot>,
    /// The slot of a definition's result, or that of a clause's guard.
    pub result: Slot,
    /// The number behind all slots.
    pub slots: u64,
}

/// What a clause sees that is taken by itself.
#[derive(Drop)]
pub struct Scope {
    /// The slots of the variables that are bound around it, the outer before the inner.
    pub vars: List<(Atom, Slot)>,
    /// For each of its patterns the slot of what is matched.
    pub args: List<Slot>,
    /// The functions of the `letrec`s around it.
    pub locals: List<FunName>,
    /// The number behind all these slots.
    pub slots: u64,
}

/// The constraint of a definition that stands in the module `home`, for a pass that knows these summaries. The
/// slots of its parameters come first, then that of its result.
///
/// `Memory`: allocation failed, there are 2^64 slots or more, or a call has 2^32 arguments or more.
pub fn generate(
    alloc: Global,
    def: &FunDef,
    home: &Atom,
    known: &Summaries,
    pass: &Pass,
) -> Result<Made, Memory>
    ensures constraint { IfOk result (λ made. constraint made.constraint ≡ constraint_of_definition (knowledge pass.now known.now) home.now def.now) }
    ensures params { IfOk result (λ made. made.params ≡ slots_from 0 (length def.now.fun.params)) }
    ensures value { IfOk result (λ made. made.result ≡ length def.now.fun.params) }
    ensures slots { IfOk result (λ made. made.slots ≡ definition_slots def.now.fun.params (tree def.now.fun.body)) }
{
    let context = Surroundings { home, known, pass };
    let mut made = Generator::new(alloc, 0);
    let vars = def.fun.params.as_slice();
    let params = made.take_run(vars.len())?;
    made.bind_all(vars, params.as_slice())?;
    let value = made.next;
    walk_expression(&mut made, &context, Ask::Exactly(1), def.fun.body.get())?;
    Ok(finished(made, params, value))
}

/// What a clause says by itself in the strict pass: its patterns, at the slots of what is matched, and its guard,
/// which isn't asked to be true. Its slots begin behind those of the scope.
///
/// `Memory`: as of `generate`.
pub fn clause(
    alloc: Global,
    clause: &Clause,
    scope: &Scope,
    home: &Atom,
    known: &Summaries,
) -> Result<Made, Memory>
    ensures constraint { IfOk result (λ made. constraint made.constraint ≡ constraint_of_clause (knowledge Strict known.now) home.now scope.now clause.now) }
    ensures params { IfOk result (λ made. made.params ≡ clause_params scope.now.slots (clause_parts clause.now).patterns) }
    ensures value { IfOk result (λ made. made.result ≡ clause_result scope.now.slots (clause_parts clause.now).patterns) }
    ensures slots { IfOk result (λ made. made.slots ≡ clause_slots scope.now.slots (clause_parts clause.now).patterns (clause_parts clause.now).guard) }
{
    let context = Surroundings {
        home,
        known,
        pass: &Pass::Strict,
    };
    let mut made = entered(alloc, scope)?;
    let around = made.variables.len();
    walk_outer(&mut made, scope.args.as_slice(), clause.patterns.as_slice())?;
    made.all_since(0)?;
    let params = made.variables.slots_since(alloc, around)?;
    let value = made.next;
    walk_expression(&mut made, &context, Ask::Exactly(1), &clause.guard)?;
    made.all_since(1)?;
    Ok(finished(made, params, value))
}

// Nothing made, in this scope.
fn entered(alloc: Global, scope: &Scope) -> Result<Generator, Memory>
    ensures scope { IfOk result (λ made. scope_of made ≡ seen scope.now) }
    ensures next { IfOk result (λ made. made.next ≡ scope.now.slots) }
    ensures members { IfOk result (λ made. made.members.items ≡ []) }
{
    let mut made = Generator::new(alloc, scope.slots);
    made.variables.push_all(scope.vars.as_slice())?;
    made.define_names(scope.locals.as_slice())?;
    Ok(made)
}

// All rows in one constraint.
fn finished(made: Generator, params: List<Slot>, value: Slot) -> Made
    ensures constraint { constraint result.constraint ≡ together (rows_of made) }
    ensures params { result.params ≡ params }
    ensures value { result.result ≡ value }
    ensures slots { result.slots ≡ made.next }
{
    let Generator { members, next, .. } = made;
    Made {
        constraint: Constraint::All(List::from_vec(members)),
        params,
        result: value,
        slots: next,
    }
}
