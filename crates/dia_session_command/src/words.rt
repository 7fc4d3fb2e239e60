//! Which words are a command.
ghost use Rattle.std.specs.Prelude.{◌≡◌, MatchOption};
ghost use Rattle.analysis_answers.specs.Words.{IsFile};
ghost use Rattle.analysis_sources.specs.Words.{texts};
ghost use Rattle.dia_session_command.specs.Words.{IsCommand, IsNoCommand};

use analysis_answers::{MOST_WORKERS, is_file, number_of};

/// What the words ask for.
#[derive(Clone, Copy, Debug)]
pub struct SessionCommand<'a> {
    /// How many workers, from 1 to 64.
    pub workers: u32,
    /// The name of the script.
    pub script: &'a str,
    /// Its position among the words.
    pub word: u32,
}

/// What the words ask for, if they are a command: a script, with the option `--workers` before it or without.
pub fn command_of<'a>(words: &[&'a str]) -> Option<SessionCommand<'a>>
    ensures { MatchOption result (IsNoCommand (texts words.now)) (λ c. IsCommand (texts words.now) c.workers c.script.now c.word) }
{
    match words {
        [script] => with_script(1, script, 0),
        [option, number, script] => {
            if *option != "--workers" {
                return None;
            }
            match number_of(number, MOST_WORKERS) {
                Some(workers) => with_script(workers, script, 2),
                None => None,
            }
        }
        _ => None,
    }
}

// The command of so many workers, if the word at this position is the name of a file.
fn with_script<'a>(workers: u32, script: &'a str, word: u32) -> Option<SessionCommand<'a>>
    ensures { MatchOption result (IsFile script.now → ⊥)
        (λ c. (c.workers ≡ workers) × (c.script.now ≡ script.now) × (c.word ≡ word) × IsFile script.now) }
{
    if is_file(script) {
        Some(SessionCommand {
            workers,
            script,
            word,
        })
    } else {
        None
    }
}
