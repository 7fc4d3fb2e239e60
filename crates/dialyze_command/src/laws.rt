//! Laws of what is answered, as functions that do nothing: who calls one has its clauses.
ghost use Rattle.dialyze_command.specs.OneOutcome.{AloneLaw, OfSourcesLaw, OneOutcomeLaw, SameOutcomeLaw};
ghost use Rattle.dialyze_command.specs.SomeAnswer.{SomeAnswerLaw};
ghost use Rattle.dialyze_command.specs.SomeOutcome.{SomeOutcomeLaw};

use analysis_sources::{one_reading_of_files, read_or_refused, spelled_module_is_read};
use core_make_laws::generated_is_accepted;
use core_reading_laws::every_accepted;
use sound_laws_kept::{entries_use_called, one_analysis};
use sound_laws_written::{a_written_table, an_analysis};
use table_file::{table_laws, table_or_fault};

/// The words and what is held have one status and one output, and one thing is held afterwards; for two checks of the same
/// files with the same names of tables the output is one, whatever their numbers of workers. So it is without a table to
/// begin with, and with the table of some sources; and with every other, but where an entry with the digest of a text that is
/// passed uses a function of a module that this text doesn't call.
pub fn one_outcome()
    ensures one { OneOutcomeLaw }
    ensures workers { SameOutcomeLaw }
    ensures alone { AloneLaw }
    ensures of_sources { OfSourcesLaw }
{
    one_reading_of_files();
    table_laws();
    one_analysis();
    entries_use_called();
}

/// Whatever the words are, and whatever bytes are held, a run is answered at once, by the definition, or it comes to an analysis: of
/// files that are all read, with the table that it begins with, or of generated modules, and they have names of their own.
pub fn some_answer()
    ensures { SomeAnswerLaw }
{
    table_or_fault();
    read_or_refused();
    generated_is_accepted();
    spelled_module_is_read();
}

/// Whatever the words are, and whatever bytes are held, a run has an outcome: a status and an output, and what is held afterwards.
pub fn some_outcome()
    ensures { SomeOutcomeLaw }
{
    some_answer();
    every_accepted();
    an_analysis();
    a_written_table();
}
