//! The words of a new table.
ghost use Rattle.std.specs.Prelude.{◌≡◌, IfOk, replicate};

use std::alloc::{AllocError as NoMemory, Allocator};

/// How many zeros are written at a time: 1,920 bytes. From 2,048 bytes on the C library fills with one instruction that
/// repeats. That is no faster, and callgrind counts it once a byte.
const PIECE: usize = 240;

/// A list of this many zeros.
pub(super) fn zeros<A: Allocator + Drop>(alloc: A, many: usize) -> Result<Vec<u64, A>, NoMemory>
    ensures { IfOk result (λ words. words.items ≡ replicate many 0) }
{
    let mut words = Vec::with_capacity(alloc, many)?;
    while words.len() < many {
        let piece = (many - words.len()).min(PIECE);
        for _ in 0..piece {
            words.push_reserved(0);
        }
    }
    Ok(words)
}
