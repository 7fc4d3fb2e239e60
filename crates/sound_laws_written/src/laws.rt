//! The laws, as functions that do nothing: who calls one has its clauses.
ghost use Rattle.sound_laws_written.specs.Laws.{SomeAnalysisLaw, SomeTableLaw};

use comp_rounds::rounds_laws;
use sound_laws_kept::stands_rests;
use sound_laws_outside::some_is_known;
use table_keep::some_groups;
use warn_list::a_text;

/// There is a written analysis of accepted modules with names of their own, whatever table it begins with: groups of the names,
/// what is known of each module group by group, reports, and a new table.
pub fn an_analysis()
    ensures { SomeAnalysisLaw }
{
    some_groups();
    some_is_known();
    a_text();
    stands_rests();
}

/// There is one with any table that the program can hold, where the digests of the modules' texts have 32 bytes, and its new entries
/// are those of a table that the program can hold.
pub fn a_written_table()
    ensures { SomeTableLaw }
{
    some_groups();
    some_is_known();
    a_text();
    stands_rests();
    rounds_laws();
}
