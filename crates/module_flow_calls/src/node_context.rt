//! What stands around a node.
ghost use Rattle.std.specs.Prelude.{◌≡◌};
ghost use Rattle.core_ast.specs.Tree.{all_steps};
ghost use Rattle.module_flow_calls.specs.NodeContext.{nearer, under, under_steps};
ghost use Rattle.module_flow_calls.specs.steps.Notes.{step_note};

use core_ast::{Note, Step, StepOf};

/// What stands around a node: whether something that the compiler made, of which nothing is reported, and the
/// line of the innermost note that has one.
#[derive(Clone, Copy, Debug)]
pub struct NodeContext {
    pub quiet: bool,
    pub line: Option<u32>,
}

// The line of the own note, or else that of what stands around.
fn nearer(own: Option<u32>, around: Option<u32>) -> Option<u32>
    ensures { result ≡ nearer own around }
{
    match own {
        Some(line) => Some(line),
        None => around,
    }
}

impl NodeContext {
    /// What stands around the parts of a node with this note.
    pub fn under(self, note: Note) -> NodeContext
        ensures { result ≡ under self note }
    {
        NodeContext {
            quiet: self.quiet || note.generated,
            line: nearer(note.line, self.line),
        }
    }

    /// What stands around what follows these steps.
    pub fn under_steps(self, steps: &[Step]) -> NodeContext
        ensures { result ≡ under_steps self (all_steps steps.now) }
    {
        let mut inner = self;
        for step in steps {
            inner = inner.under(step_note(step));
        }
        inner
    }
}

/// The note of a step.
pub fn step_note(step: &Step) -> Note
    ensures { result ≡ step_note step.now }
{
    match step {
        StepOf::Let(mark, _, _) => mark.note,
        StepOf::Do(mark, _) => mark.note,
    }
}
