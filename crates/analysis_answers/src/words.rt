//! The words that the host gives, and which of them are the names of files.
ghost use Rattle.std.specs.Prelude.{◌≡◌, ◌↔◌, map, IfOk, IsTrue};
ghost use Rattle.std.specs.String.{string_bytes};
ghost use Rattle.analysis_sources.specs.Words.{texts};
ghost use Rattle.analysis_answers.specs.Words.{AreFiles, IsCommand, IsFile};

use std::alloc::Global;
use type_kinds::{List, Memory};

/// How many files the words may name.
pub const MOST_FILES: usize = 1024;

/// How many workers may be asked for.
pub const MOST_WORKERS: u32 = 64;

/// Whether the words name files, one at least.
pub fn is_command(words: &[&str]) -> bool
    ensures { IsTrue result ↔ IsCommand (texts words.now) }
{
    if words.is_empty() {
        return false;
    }
    are_files(words)
}

/// Whether each word is a file's name.
pub fn are_files(words: &[&str]) -> bool
    ensures { IsTrue result ↔ AreFiles (texts words.now) }
{
    for word in words {
        if !is_file(word) {
            return false;
        }
    }
    true
}

/// Whether a word is a file's name: it isn't empty and doesn't begin with `-`.
pub fn is_file(word: &str) -> bool
    ensures { IsTrue result ↔ IsFile word.now }
{
    match word.as_bytes().first() {
        Some(byte) => *byte != b'-',
        None => false,
    }
}

/// The words that the host gives, as texts.
pub fn texts_of(alloc: Global, words: &Vec<String>) -> Result<List<&str>, Memory>
    ensures { IfOk result (λ found. texts found ≡ map string_bytes words.now.items) }
{
    let mut found = List::new(alloc);
    for word in words {
        found.add(word.as_str())?;
    }
    Ok(found)
}
