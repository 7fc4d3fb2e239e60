//! Findings, and the lines that the report has for them.
#![tactic(auto)]

mod finding;
mod laws;
mod printing;
#[cfg(test)]
mod tests;

pub use finding::{CallText, Finding, FindingKind};
pub use laws::{a_text, one_text};
pub use printing::lines;
