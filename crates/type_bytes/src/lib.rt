//! Types as bytes: how a type is written, and read back.
#![tactic(auto)]

mod faults;
mod laws;
mod leaves;
mod reading;
mod shapes;
mod short_names;
mod taking;
mod writing;

pub use faults::BytesFault;
pub use laws::bytes_laws;
pub use short_names::has_short_names;
pub use taking::take;
pub use writing::put;
