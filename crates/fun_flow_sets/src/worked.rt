//! What the applications of the modules worked by hand may enter, as a function that does nothing: who
//! calls it has its clauses.
ghost use Rattle.std.specs.Prelude.{◌≡◌};
ghost use Rattle.fun_flow_sets.specs.Items.{Item, anything};
ghost use Rattle.fun_flow_sets.specs.Sets.{MayEnter};
ghost use Rattle.fun_flow_sets.specs.Worked.{identity_item, q_name, with_atom, with_identity};

/// In the first module the application of `G`, at label 6, may enter the fun at line 2 and nothing else, and
/// that of `X`, at label 9, anything. In the second one the application of the atom may enter nothing.
pub fn worked_modules()
    ensures the_fun { MayEnter with_identity q_name 6 identity_item }
    ensures no_other { (x : Item) → MayEnter with_identity q_name 6 x → x ≡ identity_item }
    ensures parameter { MayEnter with_identity q_name 9 anything }
    ensures atom { (x : Item) → MayEnter with_atom q_name 6 x → ⊥ }
{}
