//! The numbers of parts, by which what was solved of them before is found.
use crate::parts::CompPart;
use core_ast::FunName;
use type_kinds::Atom;

// The numbers of FNV-1a with 64 bits: where it begins, and by what it multiplies.
const FIRST: u64 = 14_695_981_039_346_656_037;

const FACTOR: u64 = 1_099_511_628_211;

// The number after these bytes too.
fn after(number: u64, bytes: &[u8]) -> u64 {
    let mut number = number;
    for byte in bytes {
        number = (number ^ u64::from(*byte)).wrapping_mul(FACTOR);
    }
    number
}

// The number of a function, by its module, name and arity.
fn function_number(home: &Atom, name: &FunName) -> u64 {
    let number = after(FIRST, home.bytes());
    let number = after(number, &[0]);
    let number = after(number, name.name.bytes());
    after(number, &name.arity.to_le_bytes())
}

/// The number of a part: that of its first function. The components of a program have no function in common.
pub fn number_of(part: &CompPart) -> u64 {
    match part.members.as_slice().first() {
        Some(member) => function_number(&member.home, &member.def.get().name),
        None => FIRST,
    }
}
