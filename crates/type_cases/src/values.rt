//! Values as texts. The words of a value stand before those of what is inside it: `int:1`, `float:1.0`, `atom:ok`, `bits:8`, `fun:2`,
//! `pid:1`, `port:1`, `reference:1` and `nil` have nothing inside, `cons` has a head and a tail, `tuple:2` two elements, and `map:1` a key
//! and the value at it.
use crate::play::number;
use std::alloc::Global;
use type_kinds::{Atom, Boxed, List, Memory};
use type_meaning::Value;

/// Adds the values of some lines.
pub fn add_values(alloc: Global, lines: &str, values: &mut List<Value>) -> Result<(), Memory> {
    for line in lines.lines() {
        add_value(alloc, line, values)?;
    }
    Ok(())
}

/// Adds the value of a text. What is inside a value is made before it, and taken from the end.
pub fn add_value(alloc: Global, text: &str, values: &mut List<Value>) -> Result<(), Memory> {
    for word in text.rsplit(' ') {
        add_word(alloc, word, values)?;
    }
    Ok(())
}

fn add_word(alloc: Global, word: &str, values: &mut List<Value>) -> Result<(), Memory> {
    let (what, rest) = match word.split_once(':') {
        Some(parts) => parts,
        None => (word, ""),
    };
    match what {
        "cons" => add_cons(alloc, values),
        "tuple" => add_tuple(alloc, number(rest), values),
        "map" => add_map(alloc, number(rest), values),
        "atom" => add_atom(alloc, rest, values),
        "float" => add_float(alloc, rest, values),
        "int" => add_int(rest, values),
        _ => values.add(plain(what, number(rest))),
    }
}

fn plain(what: &str, number: u32) -> Value {
    match what {
        "bits" => Value::Bits(u64::from(number)),
        "fun" => Value::Function(number),
        "pid" => Value::Pid(u64::from(number)),
        "port" => Value::Port(u64::from(number)),
        "reference" => Value::Reference(u64::from(number)),
        _ => Value::Nil,
    }
}

fn add_int(digits: &str, values: &mut List<Value>) -> Result<(), Memory> {
    match digits.parse::<i128>() {
        Ok(n) => values.add(Value::Int(n)),
        Err(_) => Err(Memory),
    }
}

fn add_atom(alloc: Global, name: &str, values: &mut List<Value>) -> Result<(), Memory> {
    let bytes = List::from_slice(alloc, name.as_bytes())?;
    values.add(Value::Atom(Atom::from_bytes(bytes)))
}

fn add_float(alloc: Global, text: &str, values: &mut List<Value>) -> Result<(), Memory> {
    let bytes = List::from_slice(alloc, text.as_bytes())?;
    values.add(Value::Float(bytes))
}

fn add_cons(alloc: Global, values: &mut List<Value>) -> Result<(), Memory> {
    let (head, tail) = two_boxed(alloc, values)?;
    values.add(Value::Cons(head, tail))
}

fn add_tuple(alloc: Global, size: u32, values: &mut List<Value>) -> Result<(), Memory> {
    let elements = taken(alloc, size, values)?;
    values.add(Value::Tuple(elements))
}

fn add_map(alloc: Global, count: u32, values: &mut List<Value>) -> Result<(), Memory> {
    let pairs = taken_pairs(alloc, count, values)?;
    values.add(Value::Map(pairs))
}

// The last two items, the last one first, each in a box.
fn two_boxed<T: Drop>(alloc: Global, items: &mut List<T>) -> Result<(Boxed<T>, Boxed<T>), Memory> {
    let first = boxed(alloc, items)?;
    let second = boxed(alloc, items)?;
    Ok((first, second))
}

fn boxed<T: Drop>(alloc: Global, items: &mut List<T>) -> Result<Boxed<T>, Memory> {
    let Some(item) = items.pop() else {
        return Err(Memory);
    };
    match Boxed::new(alloc, item) {
        Ok(boxed) => Ok(boxed),
        Err(_) => Err(Memory),
    }
}

// So many items, from the last one on.
fn taken<T: Drop>(alloc: Global, count: u32, items: &mut List<T>) -> Result<List<T>, Memory> {
    let mut taken = List::new(alloc);
    for _ in 0..count {
        if let Some(item) = items.pop() {
            taken.add(item)?;
        }
    }
    Ok(taken)
}

// So many pairs of items, from the last one on.
fn taken_pairs<T: Drop>(
    alloc: Global,
    count: u32,
    items: &mut List<T>,
) -> Result<List<(T, T)>, Memory> {
    let mut pairs = List::new(alloc);
    for _ in 0..count {
        if let (Some(first), Some(second)) = (items.pop(), items.pop()) {
            pairs.add((first, second))?;
        }
    }
    Ok(pairs)
}
