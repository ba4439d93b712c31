//! Reads a report of a mailbox, and says what in it cannot be. It knows only the types of a report: no code here comes
//! from the definitions or the proofs of the libraries that make reports. So a test can be right even if they are
//! wrong.
#![tactic(auto)]

mod flaw;
mod matching;
mod rules;

pub use flaw::Flaw;
pub use rules::{Tally, audit};
