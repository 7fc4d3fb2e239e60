use type_kinds::Place;

/// The rules of scopes and degrees, in the order of their numbers.
#[derive(Clone, Copy, Debug, PartialEq, Eq)]
pub enum ScopeRule {
    /// A variable in an expression is bound around it.
    BoundVariables,
    /// A variable is bound once by the patterns of a clause, and once by a list of variables.
    DistinctVariables,
    /// A function's name in an expression is defined by the module or by a `letrec` around it.
    DefinedFunctions,
    /// A function is defined once in the module, and once in a `letrec`.
    DistinctFunctions,
    /// An export is defined by the module.
    DefinedExports,
    /// An expression can give as many values as its place asks for, at most 255. Parameters, patterns
    /// and catch variables are as many as their place wants.
    Degrees,
}

/// A broken rule, and where.
#[derive(Clone, Copy, Debug, PartialEq, Eq)]
pub struct Break {
    pub place: Place,
    pub rule: ScopeRule,
}

/// Why a module isn't accepted: its first broken rule, and where.
#[derive(Clone, Copy, Debug, PartialEq, Eq)]
pub enum ScopeFault {
    /// A variable here isn't bound. `_` never is.
    Unbound(Place),
    /// A variable here stands earlier in the patterns of its clause, or in its list.
    RepeatedVariable(Place),
    /// A function's name here is defined neither by the module nor by a `letrec` around it.
    UndefinedFunction(Place),
    /// The fun here is a second definition of its name.
    RepeatedFunction(Place),
    /// The export here isn't defined.
    BadExport(Place),
    /// The expression here can't give as many values as its place asks for, or its place asks for more
    /// than 255; or the fun, the clause or the `try` here has a wrong number of parameters, patterns or
    /// catch variables.
    Degree(Place),
    /// There is no memory left.
    Memory,
}

/// Why modules can't be analysed together.
#[derive(Clone, Copy, Debug, PartialEq, Eq)]
pub enum SetFault {
    /// Two modules have the same name: the least position whose module's name stands earlier, and the
    /// earliest position of that name.
    DuplicateModule { first: u32, second: u32 },
}
