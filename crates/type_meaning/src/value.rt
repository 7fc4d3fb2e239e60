use type_kinds::{Atom, Boxed, Bytes, List};

/// A value, as tests write it. `Bits` has its length in bits and stands for that many zero bits, and
/// `Function` its arity.
#[derive(Drop)]
pub enum Value {
    Int(i128),
    Float(Bytes),
    Atom(Atom),
    Bits(u64),
    Nil,
    Cons(Boxed<Value>, Boxed<Value>),
    Tuple(List<Value>),
    /// The pairs of a map, each a key and the value at it.
    Map(List<(Value, Value)>),
    Pid(u64),
    Port(u64),
    Reference(u64),
    Function(u32),
}
