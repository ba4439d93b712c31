//! The registers of a quorum, as a mask, taken one by one from the least on.

ghost use Rattle.std.specs.Prelude.{◌≡◌, ◌≢◌, ◌<◌, ◌+◌, ◌↔◌, ℕ, count_ones};
ghost use Rattle.mb_quorum.specs.Quorum.{IsMember};
ghost use Rattle.mb_deciding.specs.{IsLeast};

/// The least register in a mask that is not empty.
#[inline(always)]
pub fn least(mask: u64) -> u32
    requires { mask ≢ 0 }
    ensures member { IsLeast mask result }
    ensures below { result < 64 }
{
    mask.trailing_zeros()
}

/// The mask without this register.
#[inline(always)]
pub fn without(mask: u64, register: u32) -> u64
    requires { register < 64 }
    ensures taken { (k : ℕ) → IsMember result k ↔ (IsMember mask k × (k ≢ register)) }
    ensures fewer { IsMember mask register → count_ones mask ≡ count_ones result + 1 }
{
    mask & !(1 << register)
}
