//! Which words are a command.
ghost use Rattle.std.specs.Prelude.{◌≡◌, ◌+◌, ◌<◌, ◌^◌, drop, length, MatchOption};
ghost use Rattle.analysis_sources.specs.Words.{texts};
ghost use Rattle.dialyze_command.specs.Words.{Adds, IsCheck, IsMake, IsNoCheck, IsNoMake, option_word, plain, workers_asked};
ghost use Rattle.dialyze_command.specs.steps.Options.{AddsNothing, EndsOptions, HasNoOptions, IsNoOption};

use analysis_answers::{MOST_WORKERS, are_files, is_file, number_of};
use core_make::MOST_MODULES;

/// What a check asks for by its options, by positions among the words.
#[derive(Clone, Copy, Debug)]
pub struct Command {
    /// The name of the table that it begins with, if it names one.
    pub plt: Option<usize>,
    /// The name of the table that it writes, if it names one.
    pub out: Option<usize>,
    /// How many workers, from 1 to 64, if it says so.
    pub workers: Option<u32>,
    /// The first file; all words behind it are files too.
    pub start: usize,
}

/// The names of options.
#[derive(Clone, Copy, Debug)]
pub enum OptionName {
    /// `--plt`
    Plt,
    /// `--out`
    Out,
    /// `--workers`
    Workers,
}

impl Command {
    /// How many workers there are to be: one, where nothing is said.
    pub fn worker_count(&self) -> u32
        ensures { result ≡ workers_asked self.now.workers }
    {
        self.workers.unwrap_or(1)
    }
}

/// How many generated modules the words ask for: `make`, and then a number from 1 to 1,000.
pub fn modules_of(words: &[&str]) -> Option<u32>
    ensures { MatchOption result (IsNoMake (texts words.now)) (λ count. IsMake (texts words.now) count) }
{
    let [command, number] = words else {
        return None;
    };
    if *command != "make" {
        return None;
    }
    number_of(number, MOST_MODULES)
}

/// The check that the words ask for: `check`, then options in any order, each at most once, and then one file or more.
pub fn command_of(words: &[&str]) -> Option<Command>
    ensures { MatchOption result (IsNoCheck (texts words.now)) (λ c. IsCheck (texts words.now) c (drop c.start (texts words.now))) }
{
    let Some((command, asked)) = words.split_first() else {
        return None;
    };
    if *command != "check" {
        return None;
    }
    let Some(command) = with_options(asked, plain()) else {
        return None;
    };
    let files = &words[command.start..];
    if files.is_empty() {
        return None;
    }
    if !are_files(files) {
        return None;
    }
    Some(command)
}

// What `check` asks for without an option.
fn plain() -> Command
    ensures { result ≡ plain }
{
    Command {
        plt: None,
        out: None,
        workers: None,
        start: 1,
    }
}

// What a check asks for by the options that the words begin with, where it asks for this without them.
fn with_options(words: &[&str], before: Command) -> Option<Command>
    requires { before.start + length words.now < 2 ^ 63 }
    ensures { MatchOption result (HasNoOptions (texts words.now) before) (λ now. EndsOptions (texts words.now) before now) }
{
    let Some((word, more)) = words.split_first() else {
        return Some(before);
    };
    let Some(option) = option_of(word) else {
        return Some(before);
    };
    let Some((value, rest)) = more.split_first() else {
        return None;
    };
    match with_option(option, value, before) {
        Some(next) => with_options(rest, next),
        None => None,
    }
}

// The option that a word names.
fn option_of(word: &str) -> Option<OptionName>
    ensures { MatchOption result (IsNoOption word.now) (λ option. word.now ≡ option_word option) }
{
    match word {
        "--plt" => Some(OptionName::Plt),
        "--out" => Some(OptionName::Out),
        "--workers" => Some(OptionName::Workers),
        _ => None,
    }
}

// What a check asks for with one more option, behind which this word stands.
fn with_option(option: OptionName, value: &str, before: Command) -> Option<Command>
    requires { before.start + 2 < 2 ^ 63 }
    ensures { MatchOption result (AddsNothing option value.now before) (λ now. Adds option value.now before now) }
{
    match option {
        OptionName::Plt => with_plt(value, before),
        OptionName::Out => with_out(value, before),
        OptionName::Workers => with_workers(value, before),
    }
}

// The same for the table to begin with.
fn with_plt(value: &str, before: Command) -> Option<Command>
    requires { before.start + 2 < 2 ^ 63 }
    ensures { MatchOption result (AddsNothing OptionName.Plt value.now before) (λ now. Adds OptionName.Plt value.now before now) }
{
    if before.plt.is_some() {
        return None;
    }
    if !is_file(value) {
        return None;
    }
    Some(Command {
        plt: Some(before.start + 1),
        start: before.start + 2,
        ..before
    })
}

// The same for the table to write.
fn with_out(value: &str, before: Command) -> Option<Command>
    requires { before.start + 2 < 2 ^ 63 }
    ensures { MatchOption result (AddsNothing OptionName.Out value.now before) (λ now. Adds OptionName.Out value.now before now) }
{
    if before.out.is_some() {
        return None;
    }
    if !is_file(value) {
        return None;
    }
    Some(Command {
        out: Some(before.start + 1),
        start: before.start + 2,
        ..before
    })
}

// The same for the number of workers.
fn with_workers(value: &str, before: Command) -> Option<Command>
    requires { before.start + 2 < 2 ^ 63 }
    ensures { MatchOption result (AddsNothing OptionName.Workers value.now before) (λ now. Adds OptionName.Workers value.now before now) }
{
    if before.workers.is_some() {
        return None;
    }
    let Some(workers) = number_of(value, MOST_WORKERS) else {
        return None;
    };
    Some(Command {
        workers: Some(workers),
        start: before.start + 2,
        ..before
    })
}
