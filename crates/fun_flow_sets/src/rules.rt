//! The rules, one by one, as functions that do nothing: who calls one has its clauses. `Stands` says that an
//! expression stands in the program, in a scope of a module, and is asked for some values.
ghost use Rattle.std.specs.Prelude.{◌≡◌, List, [], ◌∷◌};
ghost use Rattle.type_kinds.specs.declared.atom.Atom.{Atom};
ghost use Rattle.core_ast.specs.Model as m;
ghost use Rattle.core_ast.specs.declared.syntax.Literal.{Literal};
ghost use Rattle.core_ast.specs.declared.syntax.Mark.{Mark};
ghost use Rattle.core_ast.specs.declared.syntax.VarName.{VarName};
ghost use Rattle.core_scope.specs.declared.ask.Ask.{Ask};
ghost use Rattle.core_meaning.specs.Programs.{Program};
ghost use Rattle.fun_flow_sets.specs.Items.{Place, anywhere, anything, nowhere};
ghost use Rattle.fun_flow_sets.specs.Rules.{places};
ghost use Rattle.fun_flow_sets.specs.Scopes.{Scope, first, place_of, with_pattern, with_patterns, with_place, with_places};
ghost use Rattle.fun_flow_sets.specs.Sets.{Holds};
ghost use Rattle.fun_flow_sets.specs.CallRules.{ApplicationsGive, ArgumentsFlow, BuiltInCallsGiveAnything, CallsHandOn, ComputedCallsGiveAnything};
ghost use Rattle.fun_flow_sets.specs.CallRules.{ComputedNamesGiveAnything, ExportedCallsGive, HiddenCallsGiveAnything, OperatorsAreListed, OperatorsEnter};
ghost use Rattle.fun_flow_sets.specs.CallRules.{OutsideCallsGiveAnything, UnknownOperatorsGiveAnything, WrongNumbersGiveNothing};
ghost use Rattle.fun_flow_sets.specs.ValueRules.{AliasPatternsBind, BinaryPatternsBind, CapturedKeepPlaces, CasesHaveClauses, ChainsPassOn, DosDrop};
ghost use Rattle.fun_flow_sets.specs.ValueRules.{ExportedParametersAreOpen, ExternalsHaveThemselves, FunBodiesAreResults, FunParametersAreOpen};
ghost use Rattle.fun_flow_sets.specs.ValueRules.{FunsHaveThemselves, LetrecBodiesAreResults, LetrecsPassOn, LetsBind, ListPatternsBind, ListsHaveElements};
ghost use Rattle.fun_flow_sets.specs.ValueRules.{ListsHaveRests, MapPatternsBind, MapsHavePairs, ModuleBodiesAreResults, NamedParametersAreOpen};
ghost use Rattle.fun_flow_sets.specs.ValueRules.{NamesHaveThemselves, ReceivesHaveActions, ReceivesHaveClauses, TriesHaveBodies, TriesHaveHandlers};
ghost use Rattle.fun_flow_sets.specs.ValueRules.{TuplesHaveElements, UpdatesHaveMaps, UpdatesHavePairs, ValueListsPassOn};

/// A fun, a name and an external function as values have themselves.
pub fn functions_have_themselves()
    ensures funs { FunsHaveThemselves }
    ensures names { NamesHaveThemselves }
    ensures externals { ExternalsHaveThemselves }
{}

/// The parameters of a fun, of a function whose name stands as a value, and of an exported function may be
/// anything.
pub fn parameters_may_be_anything()
    ensures of_funs { FunParametersAreOpen }
    ensures of_names { NamedParametersAreOpen }
    ensures of_exports { ExportedParametersAreOpen }
{}

/// What the body of a fun, of a function of a `letrec` or of a module gives is the function's result.
pub fn bodies_are_results()
    ensures of_funs { FunBodiesAreResults }
    ensures of_letrecs { LetrecBodiesAreResults }
    ensures of_modules { ModuleBodiesAreResults }
{}

/// In a function's body a variable that is none of its parameters stands for what it stands for around it.
pub fn captured_keep_places()
    ensures captured { CapturedKeepPlaces }
{}

/// Literals and binaries have no functions. A list, a tuple and a map have what their parts have: elements
/// and what follows them, keys, values, and the map after the bar.
pub fn parts_are_joined()
    ensures literals { (U : Program) (home : Atom) (sc : Scope) (k : Ask) (i : Mark) (c : Literal) → places U home sc k (m.literal i c) ≡ nowhere ∷ [] }
    ensures binaries { (U : Program) (home : Atom) (sc : Scope) (k : Ask) (i : Mark) (ss : m.Segments)
        → places U home sc k (m.binary i ss) ≡ nowhere ∷ [] }
    ensures elements { ListsHaveElements }
    ensures rests { ListsHaveRests }
    ensures tuples { TuplesHaveElements }
    ensures maps { MapsHavePairs }
    ensures updates { UpdatesHavePairs }
    ensures bars { UpdatesHaveMaps }
{}

/// A variable has the set of what it stands for. A value list has those of its elements, one by one. `let`
/// binds its variables to what its expression gives, `do` drops it, and the last expression of a chain and
/// the body of a `letrec` pass on what they give.
pub fn values_pass_on()
    ensures variables { (U : Program) (home : Atom) (sc : Scope) (k : Ask) (i : Mark) (x : Atom)
        → places U home sc k (m.variable i x) ≡ place_of sc x ∷ [] }
    ensures value_lists { ValueListsPassOn }
    ensures chains { ChainsPassOn }
    ensures lets { LetsBind }
    ensures dos { DosDrop }
    ensures letrecs { LetrecsPassOn }
{}

/// A `case` and a `receive` have what the bodies of their clauses have, a `receive` also what its action
/// has, and a `try` what its body and its handler have: each value that is asked the set of its own number.
/// Of messages and of the handler's variables there are no places, so they may be anything.
pub fn clauses_are_joined()
    ensures cases { CasesHaveClauses }
    ensures receives { ReceivesHaveClauses }
    ensures actions { ReceivesHaveActions }
    ensures bodies { TriesHaveBodies }
    ensures handlers { TriesHaveHandlers }
{}

/// The variables of a pattern have the set of the value matched, at any depth, and those in the segments of
/// a binary may be anything.
pub fn patterns_bind()
    ensures variables { (q : Place) (sc : Scope) (i : Mark) (x : Atom) → with_pattern q (m.binds i x) sc ≡ with_place x q sc }
    ensures lists { ListPatternsBind }
    ensures tuples { (q : Place) (sc : Scope) (i : Mark) (ps : m.Patterns) → with_pattern q (m.tuple_of i ps) sc ≡ with_patterns q ps sc }
    ensures maps { MapPatternsBind }
    ensures binaries { BinaryPatternsBind }
    ensures aliases { AliasPatternsBind }
{}

/// An application of a name has what its function gives, and its arguments flow to the parameters; with a
/// wrong number of arguments it has nothing.
pub fn arguments_flow()
    ensures gives { ApplicationsGive }
    ensures flow { ArgumentsFlow }
    ensures wrong_number { WrongNumbersGiveNothing }
{}

/// An application of a value may enter what its operator's set holds: it has what functions of that set
/// with as many parameters give, and anything where nothing is known of what is applied.
pub fn operators_enter()
    ensures listed { OperatorsAreListed }
    ensures enters { OperatorsEnter }
    ensures unknown { UnknownOperatorsGiveAnything }
{}

/// A call by literal names of an exported function has what the function gives. `hd`, `tl` and `element` of
/// `erlang` have what their arguments have. Every other call may give anything.
pub fn calls_find()
    ensures of_exported { ExportedCallsGive }
    ensures handed_on { CallsHandOn }
    ensures of_built_in { BuiltInCallsGiveAnything }
    ensures of_hidden { HiddenCallsGiveAnything }
    ensures of_outside { OutsideCallsGiveAnything }
    ensures computed { ComputedCallsGiveAnything }
    ensures computed_name { ComputedNamesGiveAnything }
{}

/// Anything may stand where nothing is known: anywhere, and where a place is missing, as of what a primop
/// gives, of messages and of the variables of a handler. A `catch` may have anything.
pub fn unknown_values()
    ensures everywhere { (U : Program) → Holds U anywhere anything }
    ensures missing { first [] ≡ anywhere }
    ensures primops { (U : Program) (home : Atom) (sc : Scope) (k : Ask) (i : Mark) (x : Atom) (ts : m.Trees) → places U home sc k (m.primop i x ts) ≡ [] }
    ensures catches { (U : Program) (home : Atom) (sc : Scope) (k : Ask) (i : Mark) (t : m.Tree) → places U home sc k (m.catch i t) ≡ anywhere ∷ [] }
    ensures unbound { (x : VarName) (xs : List VarName) (sc : Scope) → with_places (x ∷ xs) [] sc ≡ with_places xs [] (with_place x.name anywhere sc) }
{}
