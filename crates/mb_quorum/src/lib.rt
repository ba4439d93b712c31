//! Quorum tables: each value has a write quorum and a read quorum of registers. A write quorum and a read quorum share
//! no register exactly if they belong to one value.
//!
//! A process announces its value by setting the registers of the value's write quorum. If it then finds all
//! registers of the value's read quorum unset, nobody had set the whole write quorum of another value before it began
//! to read. The idea is that of James Aspnes, "A modular approach to shared-memory consensus, with applications to the
//! probabilistic-write model" (PODC 2010).
#![tactic(auto)]

mod bits;
pub mod laws;
mod middle;
mod quorums;
mod table;
mod unary;
mod values;

pub use bits::Bits;
pub use middle::Middle;
pub use quorums::Quorums;
pub use table::{Table, TableName};
pub use unary::Unary;
pub use values::{BadValues, MAX_VALUES, checked_values, width};
