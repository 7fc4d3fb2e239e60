ghost use Rattle.std.specs.Prelude.{◌≡◌, IfOk, IfErr};
ghost use Rattle.summary_board.specs.DoneValue.{DoneValue};

use crate::work::Work;
use std::marker::Model;
use type_kinds::{List, Memory, Shared};

/// A component that was handed out, with its part and the outputs of its callees.
#[derive(Drop)]
pub struct Job<W: Work> {
    pub component: u32,
    pub part: Shared<W::Part>,
    pub inputs: List<Shared<W::Out>>,
}

/// A solved job: its output is the written one of its part and inputs. Only `Job::run` makes one, and a memo
/// out of the entries of a board.
#[derive(Drop)]
pub struct Done<W: Work> {
    pub(crate) job: Job<W>,
    pub(crate) output: Shared<W::Out>,
}

impl<W: Work> Model for Done<W> {
    ghost use Rattle.std.specs.Prelude.{◌≡◌};
    ghost use Rattle.summary_board.specs.DoneValue.{DoneValue, done_code};

    ghost Value = { DoneValue W.Part W.Out };

    ghost coded = { done_code W.Part.code W.Out.code };

    ghost view = { λ d. record { component = d.job.component; part = d.job.part; inputs = d.job.inputs; output = d.output } };

    ghost invariant = { λ d. d.output ≡ W.written d.job.part d.job.inputs };
}

impl<W: Work> Job<W> {
    /// Solves the job. If allocation fails, the job comes back.
    pub fn run(self, work: &W) -> Result<Done<W>, (Job<W>, Memory)>
        ensures job { IfOk result (λ done. (done.component ≡ self.component) × (done.part ≡ self.part) × (done.inputs ≡ self.inputs)) }
        ensures written { IfOk result (λ done. done.output ≡ W.written self.part self.inputs) }
        ensures err { IfErr result (λ back. back.0 ≡ self) }
    {
        match work.solve(self.part.get(), &self.inputs) {
            Ok(output) => Ok(Done { job: self, output }),
            Err(memory) => Err((self, memory)),
        }
    }
}

/// What a worker is told that asks for a component.
#[derive(Drop)]
pub enum Take<W: Work> {
    /// Solve this one.
    Given(Job<W>),
    /// Each component that isn't done is out, or has a callee that isn't done.
    NoneReady,
    /// All components are done.
    AllDone,
    /// The board was stopped.
    Stopped,
}
