//! The head of a clause, in a scope that its caller keeps.
ghost use Rattle.std.specs.Prelude.{◌≡◌, [], ◌++◌, map, IfOk, OnOk};
ghost use Rattle.core_ast.specs.Tree.{clause_parts};
ghost use Rattle.cons_tree.specs.Constraints.{constraint};
ghost use Rattle.cons_gen_rows.specs.Knowing.{knowledge};
ghost use Rattle.cons_gen_rows.specs.Patterns.{outer_bindings};
ghost use Rattle.cons_gen_rows.specs.declared.passes.Pass.TheVariants.{Strict};
ghost use Rattle.cons_gen.specs.Made.{clause_slots, rows_of_head};
ghost use Rattle.cons_gen.specs.steps.Heading.{HeadsClause};

use crate::expressions::walk_expression;
use cons_gen_rows::{Generator, Pass, Surroundings, Variables, walk_outer};
use cons_tree::{Constraint, Slot, Summaries};
use core_ast::{Clause, FunName};
use core_scope::{Ask, Names};
use std::alloc::Global;
use type_kinds::{Atom, List, Memory};

/// What is in scope at a position of a text, for one who walks through it: the variables with their slots, and the
/// functions of the `letrec`s around.
#[derive(Drop)]
pub struct InScope {
    pub variables: Variables,
    pub functions: Names<FunName>,
}

/// What the head of a clause says of its slots: its patterns, its guard, and that the guard is true.
#[derive(Drop)]
pub struct ClauseHead {
    /// What it says of its slots, all of it together.
    pub rows: List<Constraint>,
    /// The number behind all slots.
    pub slots: Slot,
}

impl InScope {
    /// Nothing is in scope. Takes no memory.
    pub fn new(alloc: Global) -> InScope
        ensures variables { result.variables ≡ [] }
        ensures functions { result.functions ≡ [] }
    {
        InScope {
            variables: Variables::new(alloc),
            functions: Names::new(alloc),
        }
    }
}

/// What the head of a clause says in the strict pass, for what is matched at the slots `args`, with slots of its own from
/// `first` on. The clause's variables are bound then, inside all others.
///
/// `Memory`: as of `generate`; nothing is said of the scope then.
pub fn head(
    alloc: Global,
    clause: &Clause,
    scope: &mut InScope,
    args: &[Slot],
    first: Slot,
    home: &Atom,
    known: &Summaries,
) -> Result<ClauseHead, Memory>
    ensures rows { IfOk result (λ head. map constraint head.rows ≡ rows_of_head (knowledge Strict known.now) home.now scope.old args.now first clause.now) }
    ensures slots { IfOk result (λ head. head.slots ≡ clause_slots first (clause_parts clause.now).patterns (clause_parts clause.now).guard) }
    ensures variables { OnOk result (scope.new.variables ≡ scope.old.variables ++ outer_bindings first (clause_parts clause.now).patterns) }
    ensures functions { OnOk result (scope.new.functions ≡ scope.old.functions) }
{
    let context = Surroundings {
        home,
        known,
        pass: &Pass::Strict,
    };
    let mut made = entered(alloc, scope, first);
    walk_head(&mut made, &context, clause, args)?;
    Ok(finished(made, scope))
}

// Nothing made, in this scope, which is moved out of its position.
fn entered(alloc: Global, scope: &mut InScope, first: Slot) -> Generator
    ensures variables { result.variables ≡ scope.old.variables }
    ensures functions { result.functions ≡ scope.old.functions }
    ensures next { result.next ≡ first }
    ensures members { result.members.items ≡ [] }
{
    Generator {
        alloc,
        variables: std::mem::replace(&mut scope.variables, Variables::new(alloc)),
        functions: std::mem::replace(&mut scope.functions, Names::new(alloc)),
        next: first,
        members: Vec::new(alloc),
    }
}

// The patterns, the guard, and that the guard is true, where nothing was made before.
fn walk_head(
    made: &mut Generator,
    context: &Surroundings,
    clause: &Clause,
    args: &[Slot],
) -> Result<(), Memory>
    requires { made.old.members.items ≡ [] }
    ensures { OnOk result (HeadsClause context.now made.old made.new args.now clause.now) }
{
    walk_outer(made, args, clause.patterns.as_slice())?;
    made.all_since(0)?;
    let guard = made.next;
    walk_expression(made, context, Ask::Exactly(1), &clause.guard)?;
    made.all_since(1)?;
    made.holds(guard)
}

// The rows, and the scope, which is moved to its position.
fn finished(made: Generator, scope: &mut InScope) -> ClauseHead
    ensures rows { result.rows ≡ made.members.items }
    ensures slots { result.slots ≡ made.next }
    ensures variables { scope.new.variables ≡ made.variables }
    ensures functions { scope.new.functions ≡ made.functions }
{
    let Generator {
        alloc: _,
        variables,
        functions,
        next,
        members,
    } = made;
    scope.variables = variables;
    scope.functions = functions;
    ClauseHead {
        rows: List::from_vec(members),
        slots: next,
    }
}
