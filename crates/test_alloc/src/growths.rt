//! Tries a call with its allocations refused one after the other.

ghost use Rattle.std.specs.Prelude.{ℕ, ◌<◌, IfOk, false, true};
ghost use Rattle.test_alloc.specs.Trials.{MaySay};
ghost use Rattle.test_alloc.specs.declared.counters.Refuse.TheVariants.{From, Only};

use crate::{FaultyHeap, Refuse};
use std::alloc::Global;
use std::test::Fail;

/// No call that is tried makes this many allocations.
const MANY: u64 = 100;

/// Tries the call with each of its allocations refused once alone, and once together with all later ones. Then the
/// call is served. Returns how many allocations it makes.
///
/// The call returns whether it was served. It has to be refused exactly if an allocation was, and may keep no memory.
/// The error is that the call does otherwise, that it keeps memory, or that it makes a hundred allocations.
pub fn growths_refused<R: AllocGlobal, F: Fn(&FaultyHeap<Global>) -> Result<bool, Fail>>(
    rt: &R,
    call: F,
) -> Result<u64, Fail>
    requires { F.IsAlwaysCallable call }
    ensures few { IfOk result (λ growths. growths < 100) }
    ensures served { IfOk result (λ growths. MaySay F.Fn call (From growths) true
        × MaySay F.Fn call (Only growths) true) }
    ensures refused { IfOk result (λ growths. (k : ℕ) → k < growths
        → MaySay F.Fn call (From k) false × MaySay F.Fn call (Only k) false) }
{
    for number in 0..MANY {
        let from = FaultyHeap::new(rt.alloc(), Refuse::From(number));
        let only = FaultyHeap::new(rt.alloc(), Refuse::Only(number));
        let served = call(&from)?;
        if call(&only)? != served {
            return Err(Fail::new("one refused growth is not as all later ones"));
        }
        if served != (from.asked() <= number) || served != (only.asked() <= number) {
            return Err(Fail::new("it is not refused just where a growth is"));
        }
        if from.out() != 0 || only.out() != 0 {
            return Err(Fail::new("it keeps memory"));
        }
        if served {
            return Ok(number);
        }
    }
    Err(Fail::new("it is never served"))
}
