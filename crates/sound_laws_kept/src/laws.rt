//! The laws, as functions that do nothing: who calls one has its clauses.
ghost use Rattle.sound_laws_kept.specs.Laws.{AgainLaw, EntriesUseCalledLaw, FoundLaw, KeptLaw, OneAnalysisLaw, OneTableLaw, RestsLaw, WaveLaw, WholeLaw};

use module_flow_frame::findings_rest_on_calls;
use sound_laws_outside::{
    known_is_carried, known_of_parts, known_rests_on_calls, one_is_known, solved_is_known,
};
use warn_list::one_text;

/// With the table of some sources, the reports and the new table are those of an analysis from scratch of what is handed
/// in and of the kept sources.
pub fn kept_is_from_scratch()
    ensures { KeptLaw }
{
    findings_rest_on_calls();
    known_is_carried();
    known_of_parts();
    one_is_known();
    one_text();
    one_table();
}

/// There is such an analysis, and the new table is its table: so it is again the table of sources.
pub fn table_is_of_sources()
    ensures { AgainLaw }
{
    findings_rest_on_calls();
    known_is_carried();
    known_of_parts();
    one_is_known();
    one_text();
}

/// What is reported with the table of some sources is found by what is known of the functions of a whole program: of
/// what is passed and of the kept sources.
pub fn reports_are_found()
    ensures { FoundLaw }
{
    findings_rest_on_calls();
    known_is_carried();
    known_of_parts();
    one_is_known();
    one_text();
}

/// What an analysis from the empty table gives of each module is given by what is known of the functions of all modules,
/// where these are analysed together.
pub fn results_are_of_whole()
    ensures { WholeLaw }
{
    findings_rest_on_calls();
    known_is_carried();
    known_of_parts();
    known_rests_on_calls();
    one_is_known();
    one_text();
    solved_is_known();
}

/// There is one analysis of sources with a table whose entries use functions of modules that their texts call.
pub fn one_analysis()
    ensures { OneAnalysisLaw }
{
    findings_rest_on_calls();
    known_is_carried();
    one_is_known();
    one_text();
    one_table();
}

/// The table of some sources is such a table.
pub fn entries_use_called()
    ensures { EntriesUseCalledLaw }
{}

/// A table whose entries rise by name is given by what it has under each name.
pub fn one_table()
    ensures { OneTableLaw }
{}

/// Groups that are decided in waves are decided as they are one after another, for every table. A wave stops before a
/// group that may be kept and touches what is to be solved.
pub fn waves_are_groups()
    ensures { WaveLaw }
{
    findings_rest_on_calls();
    known_is_carried();
    known_of_parts();
}

/// What stands when so many groups are decided rests on what is known of the modules of these groups alone.
pub fn stands_rests()
    ensures { RestsLaw }
{}
