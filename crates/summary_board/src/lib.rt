//! The board on which workers solve the components of a program: which components are ready, who
//! has which, and the outputs that are published. A board is one value without threads of its own;
//! workers share it under a lock.
#![tactic(auto)]

mod agenda;
mod assembly;
mod board;
mod event;
mod fill;
mod job;
mod looks;
mod memo;
mod memo_work;
mod progress;
mod rows;
mod same;
mod work;

pub use assembly::assemble;
pub use board::Board;
pub use event::Event;
pub use job::{Done, Job, Take};
pub use memo::Memo;
pub use memo_work::MemoWork;
pub use work::Work;
