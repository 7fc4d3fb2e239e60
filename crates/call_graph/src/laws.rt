//! The laws of outside calls, as a function that does nothing: who calls it has its clauses.
ghost use Rattle.std.specs.Prelude.{◌≢◌, ◌↔◌, ◌⊎◌, List, [], Contains};
ghost use Rattle.core_ast.specs.Model as m;
ghost use Rattle.core_ast.specs.declared.syntax.FunName.{FunName};
ghost use Rattle.core_scope.specs.Asks.{erlang};
ghost use Rattle.type_kinds.specs.declared.atom.Atom.{Atom};
ghost use Rattle.call_graph.specs.Calls.{ModuleFunction};
ghost use Rattle.call_graph.specs.Outside.{GoesInside, outside_of};
ghost use Rattle.call_graph.specs.Targets.{targets};
ghost use Rattle.call_graph.specs.Targets.CallTarget.{remote};

/// Of the calls by literal module and name in a function's body, those into a module other than `erlang` go to a
/// function of the modules or are outside calls; and the outside calls are exactly those that go to none.
pub fn outside_laws()
    ensures either { (xs : List m.Module) (f : ModuleFunction) (home : Atom) (name : FunName) → Contains (targets [] f.body) (remote home name)
        → home ≢ erlang → GoesInside xs f (remote home name) ⊎ Contains (outside_of xs f) (home, name) }
    ensures exact { (xs : List m.Module) (f : ModuleFunction) (home : Atom) (name : FunName)
        → Contains (outside_of xs f) (home, name) ↔ (Contains (targets [] f.body) (remote home name) × (home ≢ erlang)
        × (GoesInside xs f (remote home name) → ⊥)) }
{}
