//! The sources of an analysis: files are read one after another, to the modules that they spell and the digests of their texts, or
//! refused by the first fault of the first file that has one.
#![tactic(auto)]

mod laws;
mod reading;
mod refusals;
mod source;

pub use laws::{
    module_or_fault, one_reading, one_reading_of_files, read_or_refused, spelled_module_is_read,
};
pub use reading::{ReadFault, discard_sources, read_sources, sources_of};
pub use refusals::{Device, MISSING, Refusal, RefusalName, SourceFault, TOO_LONG};
pub use source::{LONGEST_SOURCE, MOST_BYTES, SourceError, accepted, room_after};
