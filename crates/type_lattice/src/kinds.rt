ghost use Rattle.std.specs.Prelude.{◌≡◌, ℕ, ◌^◌, ◌<◌};
ghost use Rattle.type_lattice_model.specs.Normal.{NormalFunctions};
ghost use Rattle.type_lattice.specs.Kinds.{plain_of_kind};
ghost use Rattle.type_lattice.specs.declared.kinds.Kind.TheVariants as variant;

use type_kinds_sets::Bits;
use type_lattice_trees::{FunSet, Plain};

/// A kind of values, as a type.
#[derive(Clone, Copy, Debug, PartialEq, Eq)]
pub enum Kind {
    Float,
    /// Bit strings of a whole number of bytes.
    Binary,
    Bitstring,
    Pid,
    Port,
    Reference,
    Map,
    AnyFun,
    /// The functions of one arity.
    FunOf(u32),
    Nil,
    AnyTuple,
}

/// What may stand at the end of a list.
#[derive(Clone, Copy, Debug, PartialEq, Eq)]
pub enum Ends {
    /// Nil, where the tail allows no more.
    Proper,
    /// Any value that is no cons.
    Free,
}

/// The plain values of a kind.
pub fn plain_kind(kind: Kind) -> Plain
    ensures value { result ≡ plain_of_kind kind }
    ensures normal { NormalFunctions result.functions }
    ensures arity { (n : ℕ) → kind ≡ variant.FunOf n → n < 2 ^ 32 }
{
    let mut plain = Plain::none();
    match kind {
        Kind::Float => plain.flags.float = true,
        Kind::Binary => plain.bits = Bits::Whole,
        Kind::Bitstring => plain.bits = Bits::Any,
        Kind::Pid => plain.flags.pid = true,
        Kind::Port => plain.flags.port = true,
        Kind::Reference => plain.flags.reference = true,
        Kind::Map => plain.flags.map = true,
        Kind::AnyFun => plain.functions = FunSet::Every,
        Kind::FunOf(arity) => plain.functions = FunSet::OfArity(arity),
        Kind::Nil => plain.flags.nil = true,
        Kind::AnyTuple => {}
    }
    plain
}
