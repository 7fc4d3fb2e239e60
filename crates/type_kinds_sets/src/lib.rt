//! Sets of atoms, of integers and of bit strings, of which every type is made. Each set of values has
//! one form. A meet has exactly the values of both sets, a join is the smallest set of its kind that
//! contains both.
#![tactic(auto)]

mod atom_set;
mod bits;
mod ends;
mod int_set;
mod laws;
mod limits;
mod shared_list;

pub use atom_set::AtomSet;
pub use bits::Bits;
pub use ends::{High, Low};
pub use int_set::IntSet;
pub use laws::{
    atom_set_heights, atom_set_laws, bits_heights, bits_laws, int_set_heights, int_set_laws,
};
pub use limits::MAX_MEMBERS;
pub use shared_list::SharedList;
