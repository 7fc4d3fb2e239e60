//! The law of definitions, as a function that does nothing: who calls it has its clause.
ghost use Rattle.std.specs.Prelude.{◌<◌, Contains};
ghost use Rattle.core_ast.specs.Model.{Module as ModuleTree};
ghost use Rattle.core_ast.specs.declared.syntax.FunName.{FunName};
ghost use Rattle.core_scope.specs.Accepted.{IsSpelled};
ghost use Rattle.core_scope.specs.Names.{defined_names};

/// A function that a spelled module defines has at most 255 arguments.
pub fn small_definitions()
    ensures { (x : ModuleTree) (f : FunName) → IsSpelled x → Contains (defined_names x.defs) f → f.arity < 256 }
{}
