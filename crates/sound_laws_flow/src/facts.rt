//! What the laws rest on, gathered from the laws of the crates below.
ghost use Rattle.sound_laws_flow.specs.Facts.{LastFacts, TextFacts};

use core_meaning::label_laws;
use core_scope::{checked_laws, functions_by_label, labels_are_distinct, places_are_sound};
use module_flow::last_state_laws;

/// Facts of accepted modules.
pub fn text_facts()
    ensures { TextFacts }
{
    checked_laws();
    labels_are_distinct();
    functions_by_label();
    places_are_sound();
    label_laws();
}

/// Facts of the last states of flows.
pub fn last_facts()
    ensures { LastFacts }
{
    last_state_laws();
}
