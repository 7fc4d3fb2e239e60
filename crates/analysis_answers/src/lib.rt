//! What the programs over the analysis share: how a run ends, the lines of what isn't a report, which words are files, the way from
//! words to sources, and the run of a program whose words are the names of files.
#![tactic(auto)]

mod files;
mod host;
mod lines;
mod numbers;
mod program;
mod run_answer;
mod run_status;
mod running;
mod words;

pub use files::{FilesRead, read_files};
pub use host::{STACK_SIZE, host_devices, host_words};
pub use lines::{
    TOO_MANY, duplicate_line, duplicate_refusal, joined, read_fault_line, refusal_line,
    replace_fault_line, table_fault_line, table_fault_number, too_many_line,
};
pub use numbers::number_of;
pub use program::{FileProgram, OutputFault};
pub use run_answer::{RunAnswer, refuse, refuse_many, refuse_second, unread, usage};
pub use run_status::RunStatus;
pub use running::run_program;
pub use words::{MOST_FILES, MOST_WORKERS, are_files, is_command, is_file, texts_of};
