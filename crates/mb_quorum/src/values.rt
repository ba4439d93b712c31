//! The number of values of a table, and how many bits tell so many values apart.
ghost use Rattle.std.specs.Prelude.{◌≡◌, ◌≤◌, ◌↔◌, IsOk, IfOk};
ghost use Rattle.mb_quorum.specs.Width.{width_of, IsLeastWidth};

use std::error::Error;
use std::fmt;

/// The most values that a table of this crate can have. The least is 1.
pub const MAX_VALUES: u64 = 64;

/// The number of values that was asked for is not in `1..=MAX_VALUES`.
#[derive(Clone, Copy, Debug, PartialEq, Eq, Hash)]
pub struct BadValues;

impl fmt::Display for BadValues {
    fn fmt<W: fmt::Write>(&self, f: &mut fmt::Formatter<W>) -> fmt::Result {
        f.write_str("the number of values is out of range")
    }
}

impl Error for BadValues {}

/// The number of values m, or `BadValues` if it is not in `1..=MAX_VALUES`.
pub fn checked_values(m: u64) -> Result<u32, BadValues>
    ensures range { IsOk result ↔ ((1 ≤ m) × (m ≤ MAX_VALUES)) }
    ensures same { IfOk result (λ values. values ≡ m) }
{
    if (1..=MAX_VALUES).contains(&m) {
        Ok(m as u32)
    } else {
        Err(BadValues)
    }
}

/// How many bits tell m values apart: the least b with `m <= 2^b`. It is 0 for m of 0 and 1, and at most 64.
pub fn width(m: u64) -> u32
    ensures exact { result ≡ width_of m }
    ensures least { IsLeastWidth m result }
    ensures small { result ≤ 64 }
{
    u64::BITS - m.saturating_sub(1).leading_zeros()
}
