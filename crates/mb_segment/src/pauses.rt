//! What a thread does between two tries.
use std::hint::spin_loop;
use std::thread::yield_now;

/// How many pauses spin.
const SPINS: u32 = 6;

/// How often a pass spins that stands back.
const STEPS_BACK: u32 = 64;

/// What a pass does after another one was first. For some microseconds it lets that one work alone. Two that try all the
/// time take the words' lines of memory from each other, and both need longer.
pub(crate) fn stand_back() {
    for _ in 0..STEPS_BACK {
        spin_loop();
    }
}

/// A pause between two tries, of which there were so many before: a spin that is twice as long each time, then a yield.
pub fn pause(tries: u32) {
    if tries >= SPINS {
        yield_now();
        return;
    }
    for _ in 0..1u32 << tries {
        spin_loop();
    }
}
