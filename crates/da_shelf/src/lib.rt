//! The outside of the analyser, as traits: a shelf where files are kept, a sink that output goes
//! to, and a gate that workers pass. The shelf and the sink have a fake in memory, whose every answer
//! contracts know, and an implementation on the host.
#![tactic(auto)]

mod file_shelf;
mod gate;
mod listed;
mod mem_shelf;
mod mem_sink;
mod second_file;
mod shelf;
mod sink;
mod stdout_sink;

pub use file_shelf::FileShelf;
pub use gate::{Gate, OpenGate};
pub use mem_shelf::MemShelf;
pub use mem_sink::MemSink;
pub use shelf::{Shelf, ShelfFault};
pub use sink::{Sink, SinkFault, give};
pub use stdout_sink::StdoutSink;
