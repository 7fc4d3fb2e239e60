//! What the laws rest on, gathered from the laws of the crates below.
ghost use Rattle.sound_laws.specs.Facts.{Facts, SolutionFacts};

use bif_types::builtin_laws;
use cons_solve::solution_laws;
use type_lattice::{maker_laws, type_laws};

/// Facts of types and of built-in functions, in one record, so that lemmas on forms can take it.
pub fn facts()
    ensures { Facts }
{
    maker_laws();
    builtin_laws();
}

/// Facts of solutions.
pub fn solution_facts()
    ensures { SolutionFacts }
{
    type_laws();
    solution_laws();
}
