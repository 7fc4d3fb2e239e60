//! The laws, as functions that do nothing: who calls one has its clauses.
ghost use Rattle.table_verify_laws.specs.Counted.{CountedLaw};
ghost use Rattle.table_verify_laws.specs.Laws.{ClosedLaw, CompleteLaw, OneCertificateLaw, OneFirstLaw, SoundLaw};
ghost use Rattle.table_verify_laws.specs.Lined.{OtherNamesLaw, SameNamesLaw};

use analysis_summaries::one_known;
use comp_rounds::rounds_laws;
use cons_solve::solution_laws;
use cons_tree::type_facts;
use sound_laws::success_typings;
use sound_laws_kept::{one_analysis, results_are_of_whole};
use sound_laws_outside::solved_is_known;
use table_keep::call_laws;

/// Where table, certificate and sources keep the rules, what is known by the certificate is closed.
pub fn rules_close()
    ensures { ClosedLaw }
{
    call_laws();
}

/// So each summary of the table and of the certificate is a success typing: the arguments and the value of each call of its function
/// are of its strict and of its lenient signature, in every run of the sources.
pub fn rules_are_sound()
    ensures { SoundLaw }
{
    rules_close();
    success_typings();
}

/// The table of sources and their certificate keep the rules.
pub fn rules_are_complete()
    ensures { CompleteLaw }
{
    call_laws();
    results_are_of_whole();
    rounds_laws();
    solution_laws();
    solved_is_known();
    type_facts();
}

/// Sources have one certificate.
pub fn one_certificate()
    ensures { OneCertificateLaw }
{
    one_known();
    one_analysis();
}

/// One rule at most is the first that is broken, at one module.
pub fn one_first_rule()
    ensures { OneFirstLaw }
{}

/// Whether entries list the functions of a module is told by how many the certificate's lists, that each is one of the module's, and by a
/// walk through those that are exported: where the functions of the certificate's entry rise.
pub fn counting_tells()
    ensures { CountedLaw }
{
    call_laws();
}

/// Whether all modules are in table, certificate and sources is told by their names side by side, which rise: where they are one list, all
/// are (`same`); and where they are alike up to a position, the least name there is the first to break a rule (`other`).
pub fn names_tell()
    ensures same { SameNamesLaw }
    ensures other { OtherNamesLaw }
{}
