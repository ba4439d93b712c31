//! The pause of an end that could not go on.

use crate::end::End;
use mb_segment::pause;

impl<T: Drop> End<T> {
    /// Where it is, and whether it is in the segment there.
    pub(crate) fn place(&self) -> (usize, bool) {
        (self.at, self.inside.is_some())
    }

    /// Pauses if the end is still at this place, for longer each time. Returns how often it was there in a row.
    pub(crate) fn pause_if_at(&self, place: (usize, bool), times: u32) -> u32 {
        if self.place() != place {
            return 0;
        }
        pause(times);
        times.saturating_add(1)
    }
}
