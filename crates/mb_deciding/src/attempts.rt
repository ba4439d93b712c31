//! Which attempt of a process on a conciliator is the last.
ghost use Rattle.std.specs.Prelude.{◌≡◌, ◌+◌, ℕ};
ghost use Rattle.mb_quorum.specs.Vocabulary.{IsLeastWidth};
ghost use Rattle.mb_deciding.specs.{spread};

use mb_quorum::width;

/// The last attempt of a conciliator for m values, counted from 0: one more than the least b with `m <= 2^b`.
pub fn spread(m: u64) -> u32
    ensures exact { result ≡ spread m }
    ensures least { (b : ℕ) → result ≡ b + 1 → IsLeastWidth m b }
{
    width(m) + 1
}
