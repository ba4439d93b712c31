//! A sample of the definition of `specs`. The function computes nothing: its contract is the sample.
ghost use Rattle.std.specs.Prelude.{◌≡◌};
ghost use Rattle.bench_loops.specs.Shifts.{word_after};

/// The words that follow 1 and 0 by shifts. The one after 1 is not what one shift alone would give.
pub fn words_are_shifted()
    ensures first { word_after 1 ≡ (1082269761, 1082269761) }
    ensures none { word_after 0 ≡ (0, 0) }
    ensures one_shift { word_after 1 ≡ (8193, 8193) → ⊥ }
{}
