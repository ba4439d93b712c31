//! The unary table.
ghost use Rattle.std.specs.Prelude.{◌≤◌};
ghost use Rattle.mb_quorum.specs.declared.values.TheConstants.{MAX_VALUES};

use crate::{BadValues, Quorums, checked_values};

/// The unary table: a register for each value. The write quorum of v is register v, and its read quorum all others.
#[derive(Clone, Copy, Debug, PartialEq, Eq, Hash)]
pub struct Unary {
    values: u32,
    pub ghost least: { 1 ≤ values },
    pub ghost most: { values ≤ MAX_VALUES },
}

impl Quorums for Unary {
    ghost use Rattle.mb_quorum.specs.Unary.{unary_table};
    ghost use Rattle.mb_quorum.specs.UnaryLaw.{unary_lawful};

    ghost table = { λ q. unary_table q.values };

    ghost lawful = { λ q. unary_lawful q.values q.most };

    fn registers(&self) -> u32 {
        self.values
    }

    fn values(&self) -> u32 {
        self.values
    }

    fn write_quorum(&self, v: u32) -> u64 {
        1 << v
    }

    fn read_quorum(&self, v: u32) -> u64 {
        let all = u64::MAX >> (u64::BITS - self.values);
        all - (1 << v)
    }
}

impl Unary {
    ghost use Rattle.std.specs.Prelude.{◌≡◌, ◌≤◌, ◌↔◌, IsOk, IfOk};
    ghost use Rattle.mb_quorum.specs.Unary.{unary_table};

    /// The unary table of m values, or `BadValues` if m is not in `1..=MAX_VALUES`.
    pub fn new(m: u64) -> Result<Unary, BadValues>
        ensures range { IsOk result ↔ ((1 ≤ m) × (m ≤ MAX_VALUES)) }
        ensures table { IfOk result (λ q. ⟦<Unary as Quorums>⟧.table q ≡ unary_table m) }
    {
        Ok(Unary {
            values: checked_values(m)?,
        })
    }

    /// The table of `values` values.
    pub(crate) fn of(values: u32) -> Unary
        requires least { 1 ≤ values }
        requires most { values ≤ MAX_VALUES }
        ensures { result.values ≡ values }
    {
        Unary { values }
    }
}
