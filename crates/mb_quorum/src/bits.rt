//! The bit table.
ghost use Rattle.std.specs.Prelude.{◌≡◌, ◌≤◌};
ghost use Rattle.mb_quorum.specs.Bits.{named_register};
ghost use Rattle.mb_quorum.specs.Mask.{mask_of};
ghost use Rattle.mb_quorum.specs.Width.{width_of};
ghost use Rattle.mb_quorum.specs.declared.values.TheConstants.{MAX_VALUES};

use crate::{BadValues, Quorums, checked_values, width};

/// The bit table: registers 2i and 2i + 1 for bit i of a value. Let b be the least number with `2^b >= values`. For
/// each i below b, the write quorum of v holds register 2i + (bit i of v). Its read quorum holds the other of the two.
///
/// With one value there are no registers, and both quorums are empty.
#[derive(Clone, Copy, Debug, PartialEq, Eq, Hash)]
pub struct Bits {
    values: u32,
    pub ghost least: { 1 ≤ values },
    pub ghost most: { values ≤ MAX_VALUES },
}

impl Quorums for Bits {
    ghost use Rattle.mb_quorum.specs.Bits.{bits_table};
    ghost use Rattle.mb_quorum.specs.BitsLaw.{bits_lawful};

    ghost table = { λ q. bits_table q.values };

    ghost lawful = { λ q. bits_lawful q.values q.most };

    fn registers(&self) -> u32 {
        2 * self.width()
    }

    fn values(&self) -> u32 {
        self.values
    }

    fn write_quorum(&self, v: u32) -> u64 {
        mask_of_bits(self.width(), v)
    }

    fn read_quorum(&self, v: u32) -> u64 {
        mask_of_bits(self.width(), !v)
    }
}

impl Bits {
    ghost use Rattle.std.specs.Prelude.{◌↔◌, IsOk, IfOk};
    ghost use Rattle.mb_quorum.specs.Bits.{bits_table};

    /// The bit table of m values, or `BadValues` if m is not in `1..=MAX_VALUES`.
    pub fn new(m: u64) -> Result<Bits, BadValues>
        ensures range { IsOk result ↔ ((1 ≤ m) × (m ≤ MAX_VALUES)) }
        ensures table { IfOk result (λ q. ⟦<Bits as Quorums>⟧.table q ≡ bits_table m) }
    {
        Ok(Bits {
            values: checked_values(m)?,
        })
    }

    /// The table of `values` values.
    pub(crate) fn of(values: u32) -> Bits
        requires least { 1 ≤ values }
        requires most { values ≤ MAX_VALUES }
        ensures { result.values ≡ values }
    {
        Bits { values }
    }

    /// The least b with `2^b >= values`.
    fn width(&self) -> u32
        ensures least { result ≡ width_of self.now.values }
        ensures small { result ≤ 32 }
    {
        width(u64::from(self.values))
    }
}

/// The mask of these registers: for each i below `width`, the register 2i + (bit i of `bits`).
fn mask_of_bits(width: u32, bits: u32) -> u64
    requires { width ≤ 32 }
    ensures { result ≡ mask_of (named_register bits) width }
{
    let mut mask = 0;
    for i in 0..width {
        mask |= 1 << (2 * i + (bits >> i & 1));
    }
    mask
}
