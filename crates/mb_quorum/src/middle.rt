//! The middle table, and the numbering of sets of registers.
ghost use Rattle.std.specs.Prelude.{◌≡◌, ◌≤◌, ◌<◌, ◌^◌, ℕ};
ghost use Rattle.mb_quorum.specs.Middle.{choose, halves, breadth_of, set_number};
ghost use Rattle.mb_quorum.specs.declared.values.TheConstants.{MAX_VALUES};

use crate::{BadValues, Quorums, checked_values};

/// The most registers that a middle table has: eight have 70 sets of four.
const MOST_REGISTERS: u32 = 8;

/// The middle table. Number the sets of half of the registers, rounded down, from 0, by rising mask. The write quorum
/// of v is set number v, and its read quorum all other registers. Fewer registers have fewer such sets than values.
///
/// With one value there are no registers, and both quorums are empty.
#[derive(Clone, Copy, Debug, PartialEq, Eq, Hash)]
pub struct Middle {
    values: u32,
    pub ghost least: { 1 ≤ values },
    pub ghost most: { values ≤ MAX_VALUES },
}

impl Quorums for Middle {
    ghost use Rattle.mb_quorum.specs.Middle.{middle_table};
    ghost use Rattle.mb_quorum.specs.MiddleLaw.{middle_lawful};

    ghost table = { λ q. middle_table q.values };

    ghost lawful = { λ q. middle_lawful q.values q.most };

    fn registers(&self) -> u32 {
        breadth(self.values)
    }

    fn values(&self) -> u32 {
        self.values
    }

    fn write_quorum(&self, v: u32) -> u64 {
        let registers = breadth(self.values);
        set_number(registers, registers / 2, v)
    }

    fn read_quorum(&self, v: u32) -> u64 {
        let registers = breadth(self.values);
        let set = set_number(registers, registers / 2, v);
        (1 << registers) - 1 - set
    }
}

impl Middle {
    ghost use Rattle.std.specs.Prelude.{◌↔◌, IsOk, IfOk};
    ghost use Rattle.mb_quorum.specs.Middle.{middle_table};

    /// The middle table of m values, or `BadValues` if m is not in `1..=MAX_VALUES`.
    pub fn new(m: u64) -> Result<Middle, BadValues>
        ensures range { IsOk result ↔ ((1 ≤ m) × (m ≤ MAX_VALUES)) }
        ensures table { IfOk result (λ q. ⟦<Middle as Quorums>⟧.table q ≡ middle_table m) }
    {
        Ok(Middle {
            values: checked_values(m)?,
        })
    }

    /// The table of `values` values.
    pub(crate) fn of(values: u32) -> Middle
        requires least { 1 ≤ values }
        requires most { values ≤ MAX_VALUES }
        ensures { result.values ≡ values }
    {
        Middle { values }
    }
}

/// How many sets of `size` registers there are among the first `registers`.
#[tactic(auto, using(crate::proofs::Sets::choose_by_last, crate::specs::MiddleLaw::few_sets))]
fn choose(registers: u32, size: u32) -> u32
    requires { registers ≤ MOST_REGISTERS }
    ensures exact { result ≡ choose registers size }
    ensures small { result ≤ 2 ^ registers }
{
    if size == 0 {
        1
    } else if registers == 0 {
        0
    } else {
        choose(registers - 1, size) + choose(registers - 1, size - 1)
    }
}

/// The least number of registers that have at least `values` sets of half of them, rounded down.
#[tactic(auto, using(crate::specs::MiddleLaw::least_so_far))]
fn breadth(values: u32) -> u32
    requires { values ≤ MAX_VALUES }
    ensures exact { result ≡ breadth_of values }
    ensures small { result ≤ MOST_REGISTERS }
{
    let mut registers = 0;
    while registers < MOST_REGISTERS && choose(registers, registers / 2) < values {
        registers += 1;
    }
    registers
}

/// Set number v, by rising mask, of the sets of `size` registers among the first `registers`.
#[tactic(auto, using(crate::proofs::Sets::choose_by_last, crate::proofs::Sets::set_of_others, crate::proofs::Sets::set_with_last, crate::proofs::Sets::empty_set, crate::specs::MiddleLaw::set_below))]
fn set_number(registers: u32, size: u32, v: u32) -> u64
    requires few { registers ≤ MOST_REGISTERS }
    requires known { v < choose registers size }
    ensures { result ≡ set_number registers size v }
{
    if registers == 0 || size == 0 {
        return 0;
    }
    let last = registers - 1;
    let without = choose(last, size);
    if v < without {
        set_number(last, size, v)
    } else {
        (1 << last) + set_number(last, size - 1, v - without)
    }
}
