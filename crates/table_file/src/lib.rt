//! The table that is kept between runs: what is known of modules, as bytes. A table has one spelling,
//! and other bytes are refused at their first fault.
#![tactic(auto)]

mod checks;
mod digests;
mod entries;
mod faults;
mod laws;
mod lengths;
mod reading;
mod tables;
mod used;
mod writing;

pub use digests::{Digest, digest_of};
pub use entries::Entry;
pub use faults::{TableFault, WriteFault};
pub use laws::{table_laws, table_or_fault};
pub use reading::read_table;
pub use tables::Table;
pub use used::Used;
pub use writing::write_table;
