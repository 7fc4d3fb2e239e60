//! What holds of the definitions, as functions that do nothing: who calls one has its clauses.
ghost use Rattle.std.specs.Prelude.{◌≡◌, ℕ, List, [], ◌∷◌, ◌++◌, codes, length, map};
ghost use Rattle.std.specs.List.{All};
ghost use Rattle.type_kinds.specs.declared.atom.Atom.{Atom};
ghost use Rattle.core_ast.specs.Model as m;
ghost use Rattle.core_scope.specs.Asks.{function_name};
ghost use Rattle.core_scope.specs.Checked.{tree_of};
ghost use Rattle.core_scope.specs.Names.{Distinct};
ghost use Rattle.core_scope.specs.declared.checked.Checked.{Checked};
ghost use Rattle.core_meaning.specs.Programs.{Program};
ghost use Rattle.fun_flow_sets.specs.Items.{Item};
ghost use Rattle.fun_flow_sets.specs.Sets.{MayEnter};
ghost use Rattle.fun_flow_sets.specs.Worked.{with_identity};
ghost use Rattle.fun_flow_answers.specs.declared.target.AppliedCall.{AppliedCall as TheCall};
ghost use Rattle.fun_flow_answers.specs.declared.target.Target.TheVariants.{Fun, Name};
ghost use Rattle.fun_flow_answers.specs.declared.target.ListedTargets.TheVariants.{Only};
ghost use Rattle.fun_flow_answers.specs.Answers.{AreCalls, IsSaid};
ghost use Rattle.fun_flow_answers.specs.Lines.{IsCallWithin, call_lines};
ghost use Rattle.fun_flow_answers.specs.Worked.{identity_calls};

use fun_flow_sets::{applications_are_in_order, worked_modules};

/// Accepted modules with names of their own have at most one list of applications.
pub fn one_list()
    ensures { (mods : List Checked) → Distinct (map (λ (x : m.Module). x.name) (map tree_of mods)) → (cs ds : List TheCall)
        → AreCalls (map tree_of mods) cs → AreCalls (map tree_of mods) ds → cs ≡ ds }
{
    applications_are_in_order();
}

/// The positions that the list has are those of modules.
pub fn positions_are_within()
    ensures { (U : Program) (cs : List TheCall) → AreCalls U cs → All (IsCallWithin (length U)) cs }
{}

/// What an application of accepted modules with names of their own may enter, the list says of it.
pub fn nothing_is_left_out()
    ensures { (mods : List Checked) → Distinct (map (λ (x : m.Module). x.name) (map tree_of mods)) → (cs : List TheCall)
        → AreCalls (map tree_of mods) cs → (home : Atom) (label : ℕ) (x : Item) → MayEnter (map tree_of mods) home label x
        → IsSaid (map tree_of mods) cs home label x }
{
    applications_are_in_order();
}

/// The list of the module of two applications that is worked by hand in `fun_flow_sets`, whose first one may enter the fun of line 2 and
/// whose second one anything (`list`), and its lines (`lines`). The lines of an application that may enter a fun and a definition, and of
/// one that may enter nothing (`more_lines`).
pub fn worked_list()
    ensures list { AreCalls with_identity identity_calls }
    ensures lines { call_lines (codes "q" ∷ []) identity_calls
        ≡ codes "'q':3: apply of a value with 1 arguments may enter fun 'q':2"
        ++ 10 ∷ codes "'q':3: apply of a value with 1 arguments may enter anything" ++ 10 ∷ [] }
    ensures more_lines { call_lines (codes "q" ∷ [])
        (record { «module» = 0; label = 6; line = 3; arity = 1; targets = Only (Fun 0 3 2 ∷ Name (codes "q") (function_name (codes "f") 1) ∷ []) }
        ∷ record { «module» = 0; label = 6; line = 3; arity = 1; targets = Only [] } ∷ [])
        ≡ codes "'q':3: apply of a value with 1 arguments may enter fun 'q':2, 'q':'f'/1"
        ++ 10 ∷ codes "'q':3: apply of a value with 1 arguments may enter nothing" ++ 10 ∷ [] }
{
    worked_modules();
}
