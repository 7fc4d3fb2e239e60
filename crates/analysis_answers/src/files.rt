//! The files that the words of a command name, read to sources.
ghost use Rattle.std.specs.Prelude.{◌≡◌, ℕ, List as ListOf, IfOk};
ghost use Rattle.analysis_sources.specs.Refusals.{line};
ghost use Rattle.analysis_sources.specs.Words.{texts};
ghost use Rattle.analysis_answers.specs.FileRuns.{AreFilesRead};
ghost use Rattle.analysis_answers.specs.Words.{NamesFiles};

use crate::run_answer::{RunAnswer, refuse, refuse_many, unread, usage};
use crate::words::{MOST_FILES, is_command};
use analysis_sources::{ReadFault, read_sources};
use da_shelf::Shelf;
use std::alloc::Global;
use table_keep::Source;
use type_kinds::{List, Memory};

/// What reading the files that words name gives.
pub enum FilesRead {
    /// All files are read, as these sources.
    Reads(List<Source>),
    /// What a run on these words answers.
    Says(RunAnswer),
}

/// Reads the files that the words name, for a program whose words are the names of files, 1 to 1,024, and whose usage line has this
/// text. Where the words are no command, too many, or a file isn't read, it gives what the run answers.
pub fn read_files<F: Shelf>(
    alloc: Global,
    words: &[&str],
    usage_text: &str,
    shelf: &mut F,
) -> Result<FilesRead, Memory>
    ensures read { IfOk result (λ r. AreFilesRead (line usage_text.now) (texts words.now) (F.held shelf.old) (F.read_faults shelf.old)
        (F.read_faults shelf.new) r) }
    ensures held { F.held shelf.new ≡ F.held shelf.old }
{
    if !is_command(words) {
        let answer = usage(alloc, usage_text)?;
        return Ok(FilesRead::Says(answer));
    }
    if words.len() > MOST_FILES {
        let answer = refuse_many(alloc)?;
        return Ok(FilesRead::Says(answer));
    }
    read_named(alloc, words, shelf)
}

// The same for words that name files, and not too many.
fn read_named<F: Shelf>(alloc: Global, words: &[&str], shelf: &mut F) -> Result<FilesRead, Memory>
    requires named { NamesFiles (texts words.now) }
    ensures read { IfOk result (λ r. (usage_line : ListOf ℕ)
        → AreFilesRead usage_line (texts words.now) (F.held shelf.old) (F.read_faults shelf.old) (F.read_faults shelf.new) r) }
    ensures held { F.held shelf.new ≡ F.held shelf.old }
{
    match read_sources(alloc, words, 0, shelf) {
        Ok(sources) => Ok(FilesRead::Reads(sources)),
        Err(ReadFault::Refused(word, fault)) => {
            let answer = refuse(alloc, words[word as usize], word, fault)?;
            Ok(FilesRead::Says(answer))
        }
        Err(ReadFault::Failed(word)) => {
            let answer = unread(alloc, words[word as usize], word)?;
            Ok(FilesRead::Says(answer))
        }
        Err(ReadFault::Memory) => Err(Memory),
    }
}
