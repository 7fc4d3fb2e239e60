//! What constraints are made of. Contracts see all of it as plain data.
ghost use Rattle.std.specs.Prelude.{◌∷◌, IsTrue};
ghost use Rattle.cons_tree.specs.Signatures.{agree};

use type_kinds::{List, Shared};
use type_lattice::Ty;

/// The number of a slot: a position of an environment, which has a type.
pub type Slot = u64;

/// The types of a function's arguments and of its result. None of them is none, or all are.
#[derive(Drop)]
pub struct Sig {
    pub args: List<Ty>,
    pub result: Ty,
    pub ghost agreed: { IsTrue (agree (result ∷ args)) },
}

/// What is known of a function: the signature of all calls that may return, and the one by which a
/// call is reported. Copies share both.
#[derive(Drop)]
pub struct Summary {
    pub strict: Shared<Sig>,
    pub lenient: Shared<Sig>,
}

/// What a name of a function stands for.
#[derive(Drop)]
pub enum Callee {
    /// A function that its module exports.
    Known(Summary),
    /// A function that its module doesn't export: known where its name is applied, undefined where
    /// it is called through its module.
    Local(Summary),
    /// A function that its module doesn't have.
    Undefined,
    /// A function of which nothing is known.
    Unknown,
}

/// How the value of a built-in function follows from its arguments.
#[derive(Drop)]
pub enum Transfer {
    /// The value is of this type.
    Plain(Shared<Ty>),
    /// An integer of integers, or a float where an argument is one.
    Arith,
    /// A natural number of an integer, or a float of a float.
    Abs,
    /// The head of the first argument.
    Head,
    /// The tail of the first argument.
    Tail,
    /// The element of the second argument at the position that the first one says.
    Element,
    /// Whether the first argument is of this type.
    Test(Shared<Ty>),
    /// No, or yes where the first argument is of this type.
    TestSome(Shared<Ty>),
    /// Whether the first two arguments are one value.
    Same,
    /// Whether the first two arguments are two values.
    Differ,
    /// There is no value.
    Never,
}

/// A part of a constraint: what it says of the values of some slots.
#[derive(Drop)]
pub enum Part {
    /// The slot's value is of this type.
    Bound(Slot, Shared<Ty>),
    /// The slots have one value.
    Equal(Slot, Slot),
    /// The first slot is the tuple of the others.
    Tuple(Slot, List<Slot>),
    /// The first slot is the list with this head and this tail.
    Cons(Slot, Slot, Slot),
    /// The slot is what a built-in function gives for these arguments, which are of these types.
    Builtin(Slot, List<Slot>, List<Ty>, Transfer),
    /// The slot is what a function of this signature gives for these arguments.
    Call(Slot, List<Slot>, Shared<Sig>),
}

/// A constraint: a part, all of some constraints, or at least one of some.
#[derive(Drop)]
pub enum Constraint {
    Part(Part),
    All(List<Constraint>),
    Any(List<Constraint>),
}

/// A type for each slot, or no environment. One with a slot at none is none, too.
#[derive(Drop)]
pub enum Env {
    Types(List<Ty>),
    Bottom,
}
