//! The names of modules by their positions, as a function that does nothing: who calls it has its clauses.
ghost use Rattle.std.specs.Prelude.{◌≡◌, ℕ, Some, None, slice_get};
ghost use Rattle.core_ast.specs.Model as m;
ghost use Rattle.core_meaning.specs.Programs.{Program, module_named};
ghost use Rattle.core_scope.specs.Names.{Distinct};
ghost use Rattle.fun_flow_places.specs.Naming.{module_names, name_of};

/// Among modules with distinct names the name at a position tells the position. Where a module has the position,
/// it has that name; past the last module, none has it.
pub fn names_and_positions()
    ensures there { (U : Program) (h : ℕ) (x : m.Module) → Distinct (module_names U) → slice_get U h ≡ Some x
        → (name_of U h ≡ x.name) × (module_named U (name_of U h) ≡ Some x) }
    ensures past { (U : Program) (h : ℕ) → slice_get U h ≡ None → module_named U (name_of U h) ≡ None }
    ensures one { (U : Program) (h k : ℕ) → Distinct (module_names U) → name_of U h ≡ name_of U k → h ≡ k }
{}
