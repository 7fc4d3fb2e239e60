ghost use Rattle.std.specs.Prelude.{◌≡◌};
ghost use Rattle.core_ast.specs.Tree.{tree, pattern_tree, clause_parts, step_tree, all_steps};
ghost use Rattle.core_ast.specs.Notes.{marked, note_tree, noted_pattern, noted_clause, noted_step, note_steps};

use crate::drops::discard_step;
use crate::syntax::{Clause, Expr, Form, Literal, Mark, Note, Pattern, Step, StepOf};
use type_kinds::{List, Place};

impl Mark {
    /// The mark with another note.
    pub fn with_note(self, note: Note) -> Mark
        ensures { result ≡ marked note self }
    {
        Mark {
            label: self.label,
            place: self.place,
            note,
        }
    }
}

impl Expr {
    /// The expression with another note. That of a chain is its first step's.
    pub fn with_note(self, note: Note) -> Expr
        ensures { tree result ≡ note_tree note (tree self) }
    {
        let Expr { mark, form } = self;
        match form {
            Form::Chain(steps, last) => Expr {
                mark,
                form: Form::Chain(note_first(steps, note), last),
            },
            form => Expr {
                mark: mark.with_note(note),
                form,
            },
        }
    }
}

impl StepOf<Expr> {
    /// The step with another note.
    pub fn with_note(self, note: Note) -> Step
        ensures { step_tree result ≡ noted_step note (step_tree self) }
    {
        match self {
            Step::Let(mark, vars, value) => Step::Let(mark.with_note(note), vars, value),
            Step::Do(mark, value) => Step::Do(mark.with_note(note), value),
        }
    }
}

impl Pattern {
    /// The pattern with another note.
    pub fn with_note(self, note: Note) -> Pattern
        ensures { pattern_tree result ≡ noted_pattern note (pattern_tree self) }
    {
        let Pattern { mark, form } = self;
        Pattern {
            mark: mark.with_note(note),
            form,
        }
    }
}

impl Clause {
    /// The clause with another note.
    #[tactic(auto, using(crate::proofs::Trees::part_equations))]
    pub fn with_note(self, note: Note) -> Clause
        ensures { clause_parts result ≡ noted_clause note (clause_parts self) }
    {
        let Clause {
            mark,
            patterns,
            guard,
            body,
        } = self;
        Clause {
            mark: mark.with_note(note),
            patterns,
            guard,
            body,
        }
    }
}

// The steps, the first of them with another note.
fn note_first(mut steps: List<Step>, note: Note) -> List<Step>
    ensures { all_steps result ≡ note_steps note (all_steps steps) }
{
    if steps.is_empty() {
        return steps;
    }
    let unused = Step::Do(no_mark(), Expr::literal(no_mark(), Literal::Nil));
    let first = steps.replace(0, unused);
    let unused = steps.replace(0, first.with_note(note));
    discard_step(unused);
    steps
}

// The mark of a node that stands in no tree.
fn no_mark() -> Mark {
    Mark {
        label: 0,
        place: Place { byte: 0, line: 1 },
        note: Note {
            line: None,
            generated: false,
        },
    }
}
