/// What an argument or a result of a built-in function may be.
#[derive(Clone, Copy, Debug, PartialEq, Eq)]
pub enum ArgKind {
    /// `any()`
    Any,
    /// `integer() | float()`
    Number,
    /// `integer()`
    Integer,
    /// `integer(0..max)`
    Natural,
    /// `integer(1..max)`
    Positive,
    /// `'false' | 'true'`
    Boolean,
    /// `[] | cons(any())`
    ProperList,
    /// `[] | cons_any(any())`
    FreeList,
    /// `[] | cons(integer(0..1114111))`
    CharList,
    /// `cons_any(any())`
    FreeCons,
    /// `cons(integer(0..1114111))`
    CharCons,
    /// `cons(integer(0..255))`
    ByteCons,
    /// `tuple()`
    AnyTuple,
    /// `fun()`
    AnyFun,
    /// `atom()`
    AnyAtom,
    /// `float()`
    Float,
    /// `binary()`
    Binary,
    /// `bitstring()`
    Bitstring,
    /// `pid()`
    Pid,
    /// `port()`
    Port,
    /// `reference()`
    Reference,
    /// `map()`
    Map,
}

/// How the result of a built-in function comes of its arguments.
#[derive(Clone, Copy, Debug, PartialEq, Eq)]
pub enum Rule {
    /// Any value of the type.
    Plain(ArgKind),
    /// A number: an integer of integers, a float where an argument is one.
    Arith,
    /// The number without its sign.
    Abs,
    /// The head of the list.
    Head,
    /// The tail of the list.
    Tail,
    /// The element of the second argument, a tuple, at the position that the first one says.
    Element,
    /// Whether the argument is of the type.
    Test(ArgKind),
    /// Whether the first argument is of the type and fits the second one too.
    TestSome(ArgKind),
    /// Whether both arguments are one value.
    Same,
    /// Whether they are two.
    Differ,
    /// The function never gives a value.
    Never,
}

/// A built-in function: what its arguments may be, how many they are, and how its result comes of
/// them. The positions of `args` from `arity` on hold `Any`.
#[derive(Clone, Copy, Debug, PartialEq, Eq)]
pub struct Bif {
    pub args: [ArgKind; 3],
    pub arity: u8,
    pub rule: Rule,
}
