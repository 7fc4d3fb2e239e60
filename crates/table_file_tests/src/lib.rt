//! Tables worked by hand, damaged tables, and what follows from the clauses of `table_file` alone.
#![tactic(auto)]

mod facts;

pub use facts::written_and_read;

#[cfg(test)]
mod bytes;
#[cfg(test)]
mod damage;
#[cfg(test)]
mod worked;
