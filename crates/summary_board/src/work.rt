ghost use Rattle.std.specs.Prelude.{◌≡◌, ℕ, List, ◌<◌, IfOk, true};
ghost use Rattle.summary_board.specs.Ascending.{AscendsBelow};

use type_kinds::{List, Memory, Shared};

/// Components that are to be solved, numbered from 0, each after those that it calls.
pub trait Work {
    /// What a component is solved from, beside the outputs of its callees.
    type Part: Eq + Drop + Send + Sync;

    /// What a solved component gives.
    type Out: Eq + Drop + Send + Sync;

    ghost count_of: { Self → ℕ };

    ghost part_of: { Self → ℕ → Self.Part };

    ghost callees_of: { Self → ℕ → List ℕ };

    // the output of a part and the outputs of its callees, and of nothing else
    ghost written: { Self.Part → List Self.Out → Self.Out };

    /// How many components there are.
    fn count(&self) -> u32
        ensures { result ≡ count_of self.now };

    /// The part of a component.
    fn part(&self, c: u32) -> &Shared<Self::Part>
        requires { c < count_of self.now }
        ensures { result.now ≡ part_of self.now c };

    /// The components that a component calls, ascending, all below its own number.
    fn callees(&self, c: u32) -> &List<u32>
        requires { c < count_of self.now }
        ensures { result.now ≡ callees_of self.now c };

    /// A number by which a memo finds what was solved of a part. It depends on the part alone. Nothing is claimed of it: of
    /// parts that share a number a memo keeps one, and what it doesn't find is solved again.
    fn part_number(part: &Self::Part) -> u64;

    /// The written output of a part, from the outputs of its callees.
    fn solve(
        &self,
        part: &Self::Part,
        inputs: &List<Shared<Self::Out>>,
    ) -> Result<Shared<Self::Out>, Memory>
        ensures { IfOk result (λ out. out ≡ written part.now inputs.now) };

    ghost ascending: { (work : Self) (c : ℕ) → c < count_of work → AscendsBelow c (callees_of work c) };

    // parts, and outputs, that are equal by `==` are the same value
    ghost same_part: { (a b : Self.Part) → Self.Part.eq a b ≡ true → a ≡ b };

    ghost same_out: { (a b : Self.Out) → Self.Out.eq a b ≡ true → a ≡ b };
}
