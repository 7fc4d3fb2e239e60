//! Laws of called functions and of what is spelled, as functions that do nothing: who calls one has its clauses.
ghost use Rattle.std.specs.Prelude.{◌≡◌, ◌↔◌, ◌<◌, ◌≤◌, Bool, true, List, [], ◌∷◌, IsTrue, Contains, length};
ghost use Rattle.call_graph.specs.Outside.{Called};
ghost use Rattle.call_graph.specs.Targets.{def_targets};
ghost use Rattle.call_graph.specs.Calls.{functions_of};
ghost use Rattle.core_ast.specs.Model as m;
ghost use Rattle.core_ast.specs.declared.syntax.FunName.{FunName};
ghost use Rattle.core_parse_grammar.specs.Spells.{SpellsModule};
ghost use Rattle.core_scan.specs.declared.token.Token.{Token};
ghost use Rattle.core_scope.specs.Accepted.{IsSpelled};
ghost use Rattle.table_file.specs.Order.{rises, is_name_before};
ghost use Rattle.table_keep.specs.Calls.{all_leaving, called_cmp, called_functions, called_modules};
ghost use Rattle.table_keep.specs.Groups.{Groups, IsGroups, has};
ghost use Rattle.table_keep.specs.Made.{exported};
ghost use Rattle.type_kinds.specs.declared.atom.Atom.{Atom};
ghost use Rattle.type_kinds_sets.specs.Ascending.{is_ascending};

use components::a_numbering;

/// The called functions of a module are exactly those that its calls by literal names go to, without `erlang` and the module itself,
/// and the called modules are exactly theirs. Both rise. What an entry exports is exactly what the module does.
pub fn call_laws()
    ensures functions { (x : m.Module) (c : Called) → Contains (called_functions x) c ↔ Contains (all_leaving x.name (def_targets [] x.defs)) c }
    ensures functions_rise { (x : m.Module) → is_ascending called_cmp (called_functions x) ≡ true }
    ensures modules { (x : m.Module) (h : Atom) → (has (called_modules x) h ≡ true) ↔ ((c : Called) × Contains (called_functions x) c × (c.0 ≡ h)) }
    ensures modules_rise { (x : m.Module) → IsTrue (rises is_name_before (called_modules x)) }
    ensures exports { (x : m.Module) (f : FunName) → Contains (exported x) f ↔ Contains x.exports f }
{}

/// A function that a spelled module exports has at most 255 arguments, and tokens that spell a module are at least as many as its
/// functions.
pub fn spelled_laws()
    ensures small { (x : m.Module) (f : FunName) → IsSpelled x → Contains x.exports f → f.arity < 256 }
    ensures few { (ts : List Token) (x : m.Module) → SpellsModule ts x → length (functions_of (x ∷ [])) ≤ length ts }
{}

/// Where the nodes are some names, they have groups, whatever each of them calls.
pub fn some_groups()
    ensures { (nodes : Atom → Bool) (out : Atom → List Atom) (names : List Atom) → ((a : Atom) → (nodes a ≡ true) ↔ Contains names a)
        → (g : Groups) × IsGroups nodes out g }
{
    a_numbering();
}
