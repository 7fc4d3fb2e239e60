//! That the sets are the least, and when who computes them has exactly them; as functions that do nothing:
//! who calls one has its clauses.
ghost use Rattle.std.specs.Prelude.{◌≡◌, Bool, true};
ghost use Rattle.core_ast.specs.Model as m;
ghost use Rattle.core_scope.specs.Checked.{tree_of};
ghost use Rattle.core_scope.specs.Labels.{labels_of};
ghost use Rattle.core_scope.specs.Names.{Distinct};
ghost use Rattle.core_scope.specs.declared.checked.Checked.{Checked};
ghost use Rattle.core_meaning.specs.Programs.{Program};
ghost use Rattle.fun_flow_sets.specs.Applications.{IsLeftOf, application_labels};
ghost use Rattle.fun_flow_sets.specs.Items.{Item, Place, anything, anywhere, nowhere};
ghost use Rattle.fun_flow_sets.specs.Rules.{module_rules};
ghost use Rattle.fun_flow_sets.specs.Sets.{Holds, Meets};
ghost use Rattle.fun_flow_sets.specs.AtEnd.{IsAtEnd, IsJustified};

use core_scope::labels_are_distinct;

/// The sets are the least that meet the rules of the program: any sets that meet them hold what these hold.
/// That these meet them is what the rules one by one say.
pub fn sets_are_least()
    ensures least { (U : Program) (has : Place → Item → Bool) → Meets U has → (p : Place) (x : Item) → Holds U p x → has p x ≡ true }
{}

/// No rule leads to the two places that are the same in every text: nowhere there is no function, and
/// anywhere just `anything`.
pub fn constants_stay()
    ensures nothing { (U : Program) (x : Item) → Holds U nowhere x → ⊥ }
    ensures just_anything { (U : Program) (x : Item) → Holds U anywhere x → x ≡ anything }
{}

/// The rules of a module have its applications of values in the order of the text, the outer before the inner:
/// what is left of the labels of its nodes (`in_order`). So at no label of an accepted module stands more than
/// one (`once`).
pub fn applications_are_in_order()
    ensures in_order { (U : Program) (x : m.Module) → IsLeftOf (application_labels (module_rules U x)) (labels_of x) }
    ensures once { (U : Program) (c : Checked) → Distinct (application_labels (module_rules U (tree_of c))) }
{
    labels_are_distinct();
}

/// Pairs and edges with which nothing is left to do, and that were recorded with a reason, are exactly the
/// sets.
pub fn at_end()
    ensures sound { (U : Program) (pair : Place → Item → Bool) (edge : Place → Place → Bool) → IsAtEnd U pair edge → IsJustified U pair edge
        → (p : Place) (x : Item) → pair p x ≡ true → Holds U p x }
    ensures complete { (U : Program) (pair : Place → Item → Bool) (edge : Place → Place → Bool) → IsAtEnd U pair edge → IsJustified U pair edge
        → (p : Place) (x : Item) → Holds U p x → pair p x ≡ true }
{}
