//! Scopes and degrees: which modules are accepted for analysis, and why others aren't.
#![tactic(auto)]

mod ask;
mod checked;
mod checking;
mod degrees;
mod expressions;
mod fault;
mod laws;
mod names;
mod patterns;
mod sets;
mod walk;

pub use ask::Ask;
pub use checked::{AsChecked, Checked, discard_checked};
pub use checking::check;
pub use degrees::{MOST_ASKED, call_gives, is_text};
pub use expressions::width;
pub use fault::{Break, ScopeFault, ScopeRule, SetFault};
pub use laws::{
    checked_laws, first_break_once, functions_by_label, labels_are_distinct, places_are_sound,
};
pub use names::{Name, Names};
pub use sets::check_set;
