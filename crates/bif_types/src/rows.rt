// The rows of the table, by the number of arguments.
ghost use Rattle.std.specs.Prelude.{◌≡◌, ◌∷◌, [], map};
ghost use Rattle.bif_types.specs.Table.{without_arguments, of_one, conversions, type_tests, of_two, of_three, bif_of, row};

use crate::bif::{ArgKind, Bif, Rule};

/// A function of the module `erlang`.
#[derive(Clone, Copy)]
pub struct Row {
    pub name: &'static [u8],
    pub bif: Bif,
}

// The functions of no argument.
pub fn without_arguments() -> [Row; 4]
    ensures { map (λ r. record { name = r.name.now; bif = r.bif }) result ≡ without_arguments }
{
    [
        no_argument(b"self", Rule::Plain(ArgKind::Pid)),
        no_argument(b"make_ref", Rule::Plain(ArgKind::Reference)),
        no_argument(b"node", Rule::Plain(ArgKind::AnyAtom)),
        no_argument(b"halt", Rule::Never),
    ]
}

// The functions of one argument.
pub fn of_one() -> [Row; 17]
    ensures { map (λ r. record { name = r.name.now; bif = r.bif }) result ≡ of_one }
{
    [
        one_argument(b"+", ArgKind::Number, Rule::Arith),
        one_argument(b"-", ArgKind::Number, Rule::Arith),
        one_argument(b"bnot", ArgKind::Integer, Rule::Plain(ArgKind::Integer)),
        one_argument(b"abs", ArgKind::Number, Rule::Abs),
        one_argument(b"trunc", ArgKind::Number, Rule::Plain(ArgKind::Integer)),
        one_argument(b"round", ArgKind::Number, Rule::Plain(ArgKind::Integer)),
        one_argument(b"hd", ArgKind::FreeCons, Rule::Head),
        one_argument(b"tl", ArgKind::FreeCons, Rule::Tail),
        one_argument(
            b"length",
            ArgKind::ProperList,
            Rule::Plain(ArgKind::Natural),
        ),
        one_argument(
            b"tuple_size",
            ArgKind::AnyTuple,
            Rule::Plain(ArgKind::Natural),
        ),
        one_argument(
            b"tuple_to_list",
            ArgKind::AnyTuple,
            Rule::Plain(ArgKind::ProperList),
        ),
        one_argument(
            b"list_to_tuple",
            ArgKind::ProperList,
            Rule::Plain(ArgKind::AnyTuple),
        ),
        one_argument(b"not", ArgKind::Boolean, Rule::Plain(ArgKind::Boolean)),
        one_argument(b"error", ArgKind::Any, Rule::Never),
        one_argument(b"exit", ArgKind::Any, Rule::Never),
        one_argument(b"throw", ArgKind::Any, Rule::Never),
        one_argument(b"halt", ArgKind::Any, Rule::Never),
    ]
}

// The functions of one argument that give names and numbers as lists and back, and sizes.
pub fn conversions() -> [Row; 7]
    ensures { map (λ r. record { name = r.name.now; bif = r.bif }) result ≡ conversions }
{
    [
        one_argument(
            b"atom_to_list",
            ArgKind::AnyAtom,
            Rule::Plain(ArgKind::CharList),
        ),
        one_argument(
            b"list_to_atom",
            ArgKind::CharList,
            Rule::Plain(ArgKind::AnyAtom),
        ),
        one_argument(
            b"integer_to_list",
            ArgKind::Integer,
            Rule::Plain(ArgKind::ByteCons),
        ),
        one_argument(
            b"list_to_integer",
            ArgKind::CharCons,
            Rule::Plain(ArgKind::Integer),
        ),
        one_argument(
            b"byte_size",
            ArgKind::Bitstring,
            Rule::Plain(ArgKind::Natural),
        ),
        one_argument(
            b"bit_size",
            ArgKind::Bitstring,
            Rule::Plain(ArgKind::Natural),
        ),
        one_argument(b"map_size", ArgKind::Map, Rule::Plain(ArgKind::Natural)),
    ]
}

// The functions of one argument that tell whether it is of a type.
pub fn type_tests() -> [Row; 14]
    ensures { map (λ r. record { name = r.name.now; bif = r.bif }) result ≡ type_tests }
{
    [
        one_argument(b"is_atom", ArgKind::Any, Rule::Test(ArgKind::AnyAtom)),
        one_argument(b"is_binary", ArgKind::Any, Rule::Test(ArgKind::Binary)),
        one_argument(
            b"is_bitstring",
            ArgKind::Any,
            Rule::Test(ArgKind::Bitstring),
        ),
        one_argument(b"is_boolean", ArgKind::Any, Rule::Test(ArgKind::Boolean)),
        one_argument(b"is_float", ArgKind::Any, Rule::Test(ArgKind::Float)),
        one_argument(b"is_function", ArgKind::Any, Rule::Test(ArgKind::AnyFun)),
        one_argument(b"is_integer", ArgKind::Any, Rule::Test(ArgKind::Integer)),
        one_argument(b"is_list", ArgKind::Any, Rule::Test(ArgKind::FreeList)),
        one_argument(b"is_map", ArgKind::Any, Rule::Test(ArgKind::Map)),
        one_argument(b"is_number", ArgKind::Any, Rule::Test(ArgKind::Number)),
        one_argument(b"is_pid", ArgKind::Any, Rule::Test(ArgKind::Pid)),
        one_argument(b"is_port", ArgKind::Any, Rule::Test(ArgKind::Port)),
        one_argument(
            b"is_reference",
            ArgKind::Any,
            Rule::Test(ArgKind::Reference),
        ),
        one_argument(b"is_tuple", ArgKind::Any, Rule::Test(ArgKind::AnyTuple)),
    ]
}

// The functions of two arguments.
pub fn of_two() -> [Row; 27]
    ensures { map (λ r. record { name = r.name.now; bif = r.bif }) result ≡ of_two }
{
    [
        two_arguments(b"+", ArgKind::Number, ArgKind::Number, Rule::Arith),
        two_arguments(b"-", ArgKind::Number, ArgKind::Number, Rule::Arith),
        two_arguments(b"*", ArgKind::Number, ArgKind::Number, Rule::Arith),
        two_arguments(
            b"/",
            ArgKind::Number,
            ArgKind::Number,
            Rule::Plain(ArgKind::Float),
        ),
        two_arguments(
            b"div",
            ArgKind::Integer,
            ArgKind::Integer,
            Rule::Plain(ArgKind::Integer),
        ),
        two_arguments(
            b"rem",
            ArgKind::Integer,
            ArgKind::Integer,
            Rule::Plain(ArgKind::Integer),
        ),
        two_arguments(
            b"band",
            ArgKind::Integer,
            ArgKind::Integer,
            Rule::Plain(ArgKind::Integer),
        ),
        two_arguments(
            b"bor",
            ArgKind::Integer,
            ArgKind::Integer,
            Rule::Plain(ArgKind::Integer),
        ),
        two_arguments(
            b"bxor",
            ArgKind::Integer,
            ArgKind::Integer,
            Rule::Plain(ArgKind::Integer),
        ),
        two_arguments(
            b"bsl",
            ArgKind::Integer,
            ArgKind::Integer,
            Rule::Plain(ArgKind::Integer),
        ),
        two_arguments(
            b"bsr",
            ArgKind::Integer,
            ArgKind::Integer,
            Rule::Plain(ArgKind::Integer),
        ),
        two_arguments(
            b"element",
            ArgKind::Positive,
            ArgKind::AnyTuple,
            Rule::Element,
        ),
        two_arguments(
            b"is_function",
            ArgKind::Any,
            ArgKind::Natural,
            Rule::TestSome(ArgKind::AnyFun),
        ),
        two_arguments(
            b"and",
            ArgKind::Boolean,
            ArgKind::Boolean,
            Rule::Plain(ArgKind::Boolean),
        ),
        two_arguments(
            b"or",
            ArgKind::Boolean,
            ArgKind::Boolean,
            Rule::Plain(ArgKind::Boolean),
        ),
        two_arguments(
            b"xor",
            ArgKind::Boolean,
            ArgKind::Boolean,
            Rule::Plain(ArgKind::Boolean),
        ),
        two_arguments(
            b"==",
            ArgKind::Any,
            ArgKind::Any,
            Rule::Plain(ArgKind::Boolean),
        ),
        two_arguments(
            b"/=",
            ArgKind::Any,
            ArgKind::Any,
            Rule::Plain(ArgKind::Boolean),
        ),
        two_arguments(
            b"=<",
            ArgKind::Any,
            ArgKind::Any,
            Rule::Plain(ArgKind::Boolean),
        ),
        two_arguments(
            b"<",
            ArgKind::Any,
            ArgKind::Any,
            Rule::Plain(ArgKind::Boolean),
        ),
        two_arguments(
            b">=",
            ArgKind::Any,
            ArgKind::Any,
            Rule::Plain(ArgKind::Boolean),
        ),
        two_arguments(
            b">",
            ArgKind::Any,
            ArgKind::Any,
            Rule::Plain(ArgKind::Boolean),
        ),
        two_arguments(b"=:=", ArgKind::Any, ArgKind::Any, Rule::Same),
        two_arguments(b"=/=", ArgKind::Any, ArgKind::Any, Rule::Differ),
        two_arguments(
            b"++",
            ArgKind::ProperList,
            ArgKind::Any,
            Rule::Plain(ArgKind::Any),
        ),
        two_arguments(
            b"--",
            ArgKind::ProperList,
            ArgKind::ProperList,
            Rule::Plain(ArgKind::ProperList),
        ),
        two_arguments(b"error", ArgKind::Any, ArgKind::Any, Rule::Never),
    ]
}

// The functions of three arguments.
pub fn of_three() -> [Row; 1]
    ensures { map (λ r. record { name = r.name.now; bif = r.bif }) result ≡ of_three }
{
    [three_arguments(
        b"setelement",
        ArgKind::Positive,
        ArgKind::AnyTuple,
        ArgKind::Any,
        Rule::Plain(ArgKind::AnyTuple),
    )]
}

// A row of three arguments.
fn three_arguments(
    name: &'static [u8],
    first: ArgKind,
    second: ArgKind,
    third: ArgKind,
    rule: Rule,
) -> Row
    ensures name { result.name.now ≡ name.now }
    ensures bif { result.bif ≡ bif_of (first ∷ second ∷ third ∷ []) rule }
{
    let args = [first, second, third];
    Row {
        name,
        bif: Bif {
            args,
            arity: 3,
            rule,
        },
    }
}

// A row of two arguments.
fn two_arguments(name: &'static [u8], first: ArgKind, second: ArgKind, rule: Rule) -> Row
    ensures name { result.name.now ≡ name.now }
    ensures bif { result.bif ≡ bif_of (first ∷ second ∷ []) rule }
{
    let args = [first, second, ArgKind::Any];
    Row {
        name,
        bif: Bif {
            args,
            arity: 2,
            rule,
        },
    }
}

// A row of one argument.
fn one_argument(name: &'static [u8], first: ArgKind, rule: Rule) -> Row
    ensures name { result.name.now ≡ name.now }
    ensures bif { result.bif ≡ bif_of (first ∷ []) rule }
{
    let args = [first, ArgKind::Any, ArgKind::Any];
    Row {
        name,
        bif: Bif {
            args,
            arity: 1,
            rule,
        },
    }
}

// A row of no argument.
fn no_argument(name: &'static [u8], rule: Rule) -> Row
    ensures name { result.name.now ≡ name.now }
    ensures bif { result.bif ≡ bif_of [] rule }
{
    let args = [ArgKind::Any, ArgKind::Any, ArgKind::Any];
    Row {
        name,
        bif: Bif {
            args,
            arity: 0,
            rule,
        },
    }
}
