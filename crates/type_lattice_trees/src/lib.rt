//! Types as trees: what a type is made of in the code, and inclusion, meet, join and cut on it, for
//! every level. A caller names `type_lattice`, whose types are such trees of level 4.
#![tactic(auto)]

mod copies;
mod cuts;
mod inclusion;
mod joins;
mod low;
mod makers;
mod meets;
mod node;
mod plain;
mod positions;

pub use copies::copy;
pub use cuts::cut;
pub use inclusion::leq;
pub use joins::{element_of, elements_of, join};
pub use makers::{every_tuple, lists_of, plain_alone, tuples_of};
pub use meets::{meet, product_body};
pub use node::{
    BodyOf, CellOf, Node, PartsOf, SizeOf, TagOf, TuplesOf, discard, find_size, find_tag, is_none,
    made,
};
pub use plain::{FlagSet, FunSet, Plain};
