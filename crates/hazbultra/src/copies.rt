//! What the calls on a report compute: positions in lists, and copies into what C lends.
ghost use Rattle.std.specs.Prelude.{◌≡◌, ◌+◌, ◌*◌, ◌^◌, ◌++◌, ◌<◌, ◌≤◌, ◌⊎◌, MatchOption};
ghost use Rattle.std.specs.Prelude.{drop, length, map, min, take};
ghost use Rattle.hazbultra.specs.Reports.{note_out};

use crate::boundary::NoteOut;
use mb_world::Note;

/// What the list has from position `from` on.
pub(crate) fn past<T>(all: &[T], from: u64) -> &[T]
    ensures { result.now ≡ drop from all.now }
{
    if from < all.len() as u64 {
        &all[from as usize..]
    } else {
        &[]
    }
}

/// Copies the first items, as many as there is room for in `to`. Returns how many.
pub(crate) fn copy_items(from: &[u64], to: &mut [u64]) -> u64
    ensures count { result ≡ min (length from.now) (length to.old) }
    ensures items { to.new ≡ take result from.now ++ drop result to.old }
{
    let count = from.len().min(to.len());
    let (front, _) = to.split_at_mut(count);
    front.copy_from_slice(&from[..count]);
    count as u64
}

/// Copies the first notes, as many as there is room for in `to`. Returns how many.
pub(crate) fn copy_notes(from: &[Note], to: &mut [NoteOut]) -> u64
    ensures count { result ≡ min (length from.now) (length to.old) }
    ensures notes { to.new ≡ take result (map note_out from.now) ++ drop result to.old }
{
    let count = from.len().min(to.len());
    for place in 0..count {
        to[place] = NoteOut::from(from[place]);
    }
    count as u64
}

/// The position in a report of the diary of this consumer on this lane. It is none if the report has no such lane, or
/// if the position is no `u64`.
pub(crate) fn place_of(lanes: usize, consumer: u64, lane: u64) -> Option<u64>
    ensures { MatchOption result ((lanes ≤ lane) ⊎ (2 ^ 64 ≤ consumer * lanes + lane))
        (λ at. (lane < lanes) × (at ≡ consumer * lanes + lane)) }
{
    if lane >= lanes as u64 {
        return None;
    }
    consumer.checked_mul(lanes as u64)?.checked_add(lane)
}
