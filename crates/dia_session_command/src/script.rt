//! Scripts, line by line.
ghost use Rattle.std.specs.Prelude.{◌≡◌, ◌++◌, ℕ, ◌-◌, ◌<◌, ◌^◌, List as ListOf, Contains};
ghost use Rattle.std.specs.Prelude.{IsUtf8, length, map, IfOk, IfErr, MatchOption};
ghost use Rattle.analysis_answers.specs.Words.{IsFile};
ghost use Rattle.dia_session_command.specs.Script.{request_line, request_so, request_text, IsGood, IsScript, IsScriptFault, Request};
ghost use Rattle.dia_session_command.specs.steps.Lines.{IsEnd};

use analysis_answers::is_file;
use std::alloc::Global;
use type_kinds::{List, Memory};

/// A line of a script.
#[derive(Clone, Copy, Debug)]
pub enum ScriptLine<'a> {
    /// The file is read, and held from then on.
    Replace(&'a str),
    /// The file is held no more.
    Drop(&'a str),
    /// The reports on all that is held.
    Ask,
}

/// Why bytes are no script.
#[derive(Clone, Copy, Debug, PartialEq, Eq)]
pub enum ScriptFault {
    /// The line of this number, from 1, is the first that is bad.
    BadLine(u32),
    /// Allocation failed. This says nothing of the bytes.
    Memory,
}

/// The lines of a script.
pub fn script_lines(alloc: Global, bytes: &[u8]) -> Result<List<ScriptLine<'_>>, ScriptFault>
    requires { length bytes.now < 2 ^ 32 - 1 }
    ensures lines { IfOk result (λ lines. IsScript bytes.now (map request_so lines)) }
    ensures few { IfOk result (λ lines. length lines < 2 ^ 32 - 1) }
    ensures fault { IfErr result (IsScriptFault bytes.now) }
{
    let mut lines = List::new(alloc);
    let mut rest = bytes;
    while !rest.is_empty() {
        let Some((line, more)) = first_line(rest) else {
            return Err(ScriptFault::BadLine(lines.len() as u32 + 1));
        };
        if let Err(Memory) = lines.add(line) {
            return Err(ScriptFault::Memory);
        }
        rest = more;
    }
    Ok(lines)
}

// The first line, if it is good, and what stands behind it.
fn first_line(bytes: &[u8]) -> Option<(ScriptLine<'_>, &[u8])>
    ensures { MatchOption result ((r : Request) (more : ListOf ℕ) → IsGood r → bytes.now ≡ request_line r ++ more → ⊥)
        (λ it. IsGood (request_so it.0) × (bytes.now ≡ request_line (request_so it.0) ++ it.1.now)) }
{
    let Some(end) = line_end(bytes) else {
        return None;
    };
    match line_of(&bytes[..end]) {
        Some(line) => Some((line, &bytes[end + 1..])),
        None => None,
    }
}

// Where the first line ends, if it does.
fn line_end(bytes: &[u8]) -> Option<usize>
    ensures { MatchOption result (Contains bytes.now 10 → ⊥) (λ end. IsEnd bytes.now end) }
{
    bytes.iter().position(|byte| *byte == b'\n')
}

// The line that this text is, without its end.
fn line_of(text: &[u8]) -> Option<ScriptLine<'_>>
    requires { Contains text.now 10 → ⊥ }
    ensures { MatchOption result ((r : Request) → IsGood r → text.now ≡ request_text r → ⊥)
        (λ it. IsGood (request_so it) × (text.now ≡ request_text (request_so it))) }
{
    if text == b"ask".as_slice() {
        return Some(ScriptLine::Ask);
    }
    if let Some(name) = behind(text, b"replace ") {
        return match file_of(name) {
            Some(file) => Some(ScriptLine::Replace(file)),
            None => None,
        };
    }
    let Some(name) = behind(text, b"drop ") else {
        return None;
    };
    match file_of(name) {
        Some(file) => Some(ScriptLine::Drop(file)),
        None => None,
    }
}

// What stands behind a word, where the text begins with it.
fn behind<'a>(text: &'a [u8], word: &[u8]) -> Option<&'a [u8]>
    ensures { MatchOption result ((rest : ListOf ℕ) → text.now ≡ word.now ++ rest → ⊥) (λ rest. text.now ≡ word.now ++ rest.now) }
{
    text.strip_prefix(word)
}

// The name of a file that these bytes are.
fn file_of(bytes: &[u8]) -> Option<&str>
    ensures { MatchOption result (IsFile bytes.now → IsUtf8 bytes.now → ⊥) (λ file. (file.now ≡ bytes.now) × IsFile bytes.now × IsUtf8 bytes.now) }
{
    let Ok(name) = str::from_utf8(bytes) else {
        return None;
    };
    if is_file(name) { Some(name) } else { None }
}
