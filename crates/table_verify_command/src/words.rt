//! Which words are a command.
ghost use Rattle.std.specs.Prelude.{◌≡◌, ◌↔◌, MatchOption, IsTrue};
ghost use Rattle.analysis_sources.specs.Words.{texts};
ghost use Rattle.table_verify_command.specs.Words.{AskFor, IsNoCommand, first_file};
ghost use Rattle.table_verify_command.specs.steps.Asked.{HasNames};

use analysis_answers::{is_command, is_file};

/// What the words ask for.
#[derive(Clone, Copy, Debug, PartialEq, Eq)]
pub enum Task {
    /// `make CERT FILE..`: a certificate of the files' modules is put onto the shelf.
    Make,
    /// `check T CERT FILE..`: a table is checked against the files' modules by a certificate.
    Check,
}

impl Task {
    /// The position of the first file among the words.
    pub fn first_file(self) -> usize
        ensures { result ≡ first_file self }
    {
        match self {
            Task::Make => 2,
            Task::Check => 3,
        }
    }
}

/// What the words ask for, if they are a command.
pub fn task_of(words: &[&str]) -> Option<Task>
    ensures { MatchOption result (IsNoCommand (texts words.now)) (λ task. AskFor (texts words.now) task) }
{
    let Some((command, asked)) = words.split_first() else {
        return None;
    };
    if *command == "make" {
        return if has_one_name(asked) {
            Some(Task::Make)
        } else {
            None
        };
    }
    if *command == "check" {
        return if has_two_names(asked) {
            Some(Task::Check)
        } else {
            None
        };
    }
    None
}

// Whether the words are two names, and files behind them.
fn has_two_names(words: &[&str]) -> bool
    ensures { IsTrue result ↔ HasNames 2 (texts words.now) }
{
    match words.split_first() {
        Some((name, others)) => is_file(name) && has_one_name(others),
        None => false,
    }
}

// Whether the words are a name, and files behind it.
fn has_one_name(words: &[&str]) -> bool
    ensures { IsTrue result ↔ HasNames 1 (texts words.now) }
{
    match words.split_first() {
        Some((name, files)) => is_file(name) && is_command(files),
        None => false,
    }
}
