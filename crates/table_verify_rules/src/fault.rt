//! Why a table isn't accepted.
use type_kinds::Atom;

/// The number of the rule that table, certificate and sources have the same modules.
pub const SAME_MODULES: u8 = 29;

/// The number of the rule that the entries have the digests of their sources.
pub const SAME_SOURCE: u8 = 30;

/// The number of the rule that the certificate lists the functions that modules define, and the table those that they export, as the
/// certificate has them.
pub const SAME_FUNCTIONS: u8 = 31;

/// The number of the rule that what is known by the certificate is closed.
pub const CLOSED: u8 = 32;

/// Why a table isn't accepted.
#[derive(Drop)]
pub enum VerifyFault {
    /// The rule of this number, from 29 to 32, is broken by the module `home`: no earlier rule is broken, and this one by no module
    /// with a lesser name.
    Rejected { number: u8, home: Atom },
    /// There was no memory left. This says nothing of the table.
    Memory,
}
