//! Room that a list does not need.
ghost use Rattle.std.specs.Prelude.{◌≡◌};

use std::alloc::Allocator;

/// With fewer spare places than this a list stays as it is: what it would give back is less than a call to the
/// allocator is worth.
const SPARE: usize = 512;

/// Gives back the room that a list does not need, if it is at least [`SPARE`] places.
pub(crate) fn trim<T, A: Allocator + Drop>(list: &mut Vec<T, A>)
    ensures { list.new.items ≡ list.old.items }
{
    if list.capacity().saturating_sub(list.len()) >= SPARE {
        list.shrink_to_fit();
    }
}
