//! Facts that a client proves from the clauses of `cons_tree`.
ghost use Rattle.std.specs.Prelude.{◌≡◌, [], ◌∷◌, ℤ, IfOk};
ghost use Rattle.type_lattice_model.specs.Values.{Value, int, cons};
ghost use Rattle.type_lattice.specs.Types.{Type4, HasType};
ghost use Rattle.cons_tree.specs.declared.parts.Part.TheVariants.{Builtin};
ghost use Rattle.cons_tree.specs.declared.parts.Transfer.TheVariants.{Head};
ghost use Rattle.cons_tree.specs.Environments.{Assignment, IsBelow, state_of};
ghost use Rattle.cons_tree.specs.Satisfied.{SatPart};

use cons_tree::{Env, Part, narrow};
use std::alloc::Global;
use type_kinds::Memory;

/// An environment narrowed once, and that narrowed again: the second is below the first. `Memory`
/// comes if allocation fails.
pub fn narrowed_twice(alloc: Global, part: &Part, env: &Env) -> Result<(Env, Env), Memory>
    ensures below { IfOk result (λ r. IsBelow (state_of r.1) (state_of r.0)) }
    ensures first { IfOk result (λ r. IsBelow (state_of r.0) (state_of env.now)) }
{
    let once = narrow(alloc, part, env)?;
    let twice = narrow(alloc, part, &once)?;
    Ok((once, twice))
}

/// The head of a list of an integer and anything satisfies the part of `hd`, whatever type of lists the
/// argument is to be of.
pub fn some_head()
    ensures { (a : Assignment) (t : Type4) (n : ℤ) (rest : Value) → a 0 ≡ int n → a 1 ≡ cons (int n) rest → HasType (a 1) t
        → SatPart (Builtin 0 (1 ∷ []) (t ∷ []) Head) a }
{}
