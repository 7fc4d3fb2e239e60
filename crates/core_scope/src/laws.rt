//! What holds of every accepted module, as functions that do nothing: who calls one has its clauses.
ghost use Rattle.std.specs.Prelude.{Contains, List, [], length, true, ◌≡◌, ◌⊎◌};
ghost use Rattle.core_scope.specs.Accepted.{FirstBreak, IsAccepted};
ghost use Rattle.core_scope.specs.Checked.{tree_of};
ghost use Rattle.core_scope.specs.Functions.{LabelledFunction, function_labels, functions_of};
ghost use Rattle.core_scope.specs.Labels.{CountFromZero, labels_of};
ghost use Rattle.core_scope.specs.Asks.{gives, suffices, width};
ghost use Rattle.core_scope.specs.Names.{Distinct, Scope, defined_names, has_function, has_variable};
ghost use Rattle.core_scope.specs.Places.{HaveArity, HaveWidth, Piece, StandsInModule, piece_breaks};
ghost use Rattle.core_scope.specs.Places.Piece.{expression};
ghost use Rattle.core_scope.specs.declared.ask.Ask.{Ask};
ghost use Rattle.core_scope.specs.declared.fault.Break.{Break};
ghost use Rattle.core_ast.specs.Model as m;
ghost use Rattle.core_ast.specs.declared.syntax.FunName.{FunName};
ghost use Rattle.core_ast.specs.declared.syntax.Mark.{Mark};
ghost use Rattle.core_ast.specs.declared.syntax.VarName.{VarName};
ghost use Rattle.type_kinds.specs.declared.atom.Atom.{Atom};
ghost use Rattle.core_scope.specs.declared.checked.Checked.{Checked};

/// Some text spells the module of a `Checked`, it breaks no rule, and it defines each of its names once.
#[tactic(auto, using(crate::proofs::CheckedLaws::checked_laws))]
pub fn checked_laws()
    ensures accepted { (c : Checked) → IsAccepted (tree_of c) }
    ensures once { (c : Checked) → Distinct (defined_names (tree_of c).defs) }
{}

/// A module has at most one first break.
pub fn first_break_once()
    ensures { (x : m.Module) (b c : Break) → FirstBreak x b → FirstBreak x c → b ≡ c }
{}

/// The labels of a `Checked` are 0, 1, 2 and so on in the order of the text, so no label stands twice.
#[tactic(auto, using(crate::proofs::LabelLaws::label_laws))]
pub fn labels_are_distinct()
    ensures counted { (c : Checked) → CountFromZero (tree_of c) }
    ensures once { (c : Checked) → Distinct (labels_of (tree_of c)) }
{}

/// A label names one function of a `Checked`: its functions, each fun and each definition of a `letrec` and of the
/// module, have distinct labels, which are among those of its nodes.
pub fn functions_by_label()
    ensures once { (c : Checked) (f g : LabelledFunction) → Contains (functions_of (tree_of c)) f → Contains (functions_of (tree_of c)) g
        → f.label ≡ g.label → f ≡ g }
    ensures distinct { (c : Checked) → Distinct (function_labels (functions_of (tree_of c))) }
    ensures among { (c : Checked) (f : LabelledFunction) → Contains (functions_of (tree_of c)) f → Contains (labels_of (tree_of c)) f.label }
{}

/// What the rules ask of a piece holds of every piece that stands in the module of a `Checked`, at any depth.
/// `unbroken` says it of all of them, and the other clauses what follows: a variable and a local function are
/// among those that they see, an expression gives what its place asks for, the clauses of a `case` have as many
/// patterns as its first and those of a `receive` one, each definition has as many parameters as its name's
/// arity, and a `try` two or three catch variables.
#[tactic(auto, using(crate::proofs::PlaceLaws::place_laws))]
pub fn places_are_sound()
    ensures unbroken { (c : Checked) (p : Piece) → StandsInModule (tree_of c) p → piece_breaks p ≡ [] }
    ensures variables { (c : Checked) (s : Scope) (k : Ask) (i : Mark) (x : Atom) → StandsInModule (tree_of c) (expression s k (m.variable i x))
        → has_variable s.variables x ≡ true }
    ensures functions { (c : Checked) (s : Scope) (k : Ask) (i : Mark) (f : FunName) → StandsInModule (tree_of c) (expression s k (m.local i f))
        → has_function s.functions f ≡ true }
    ensures degrees { (c : Checked) (s : Scope) (k : Ask) (t : m.Tree) → StandsInModule (tree_of c) (expression s k t) → suffices k (gives t) ≡ true }
    ensures cases { (c : Checked) (s : Scope) (k : Ask) (i : Mark) (t : m.Tree) (cs : m.Clauses) → StandsInModule (tree_of c) (expression s k (m.case i t cs))
        → HaveWidth (width cs) cs }
    ensures receives { (c : Checked) (s : Scope) (k : Ask) (i : Mark) (cs : m.Clauses) (t u : m.Tree)
        → StandsInModule (tree_of c) (expression s k (m.receive i cs t u)) → HaveWidth 1 cs }
    ensures letrecs { (c : Checked) (s : Scope) (k : Ask) (i : Mark) (ds : m.Defs) (t : m.Tree)
        → StandsInModule (tree_of c) (expression s k (m.letrec i ds t)) → HaveArity ds }
    ensures definitions { (c : Checked) → HaveArity (tree_of c).defs }
    ensures catches { (c : Checked) (s : Scope) (k : Ask) (i : Mark) (t : m.Tree) (xs : List VarName) (u : m.Tree) (ys : List VarName) (w : m.Tree)
        → StandsInModule (tree_of c) (expression s k (m.try i t xs u ys w)) → (length ys ≡ 2) ⊎ (length ys ≡ 3) }
{}
