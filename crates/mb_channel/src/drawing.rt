//! The two halves of a send that never waits.
ghost use Rattle.std.specs.Prelude.{◌≡◌};
ghost use Rattle.mb_channel.specs.Halves.{IsWriter};
ghost use Rattle.mb_channel.specs.Homes.{view_in};

use crate::begun::Miss;
use crate::channel::{Refused, TRIES};
use crate::end::Sender;
use crate::halfway::Halfway;
use crate::place::Place;
use crate::try_sends::Owing;

/// A sender that drew a place for a value, and has still to mark it. The value counts as sent. Receivers wait for it, and
/// for all values behind it. It cannot be dropped.
pub struct Drawn<T: Drop> {
    pub(crate) half: Halfway<T>,
    ghost sends: { (view_in half.chair).sends ≡ 1 },
    ghost writer: { IsWriter half },
}

/// What came of a draw.
pub enum Drawing<T: Drop> {
    /// The value counts as sent. [`Drawn::mark`] then puts it in its place.
    At(Drawn<T>),
    /// Another sender was first, the lock is taken, or the next segment is not there yet. Yield, and try again.
    Again(Sender<T>),
    /// No place is drawn. [`Refused::Closed`] is told only if the list is closed. [`Refused::NoMemory`] says that there is
    /// no memory for the next segment, [`Refused::Crowded`] that the segments or their ends cannot be counted.
    Refused(Sender<T>, Refused),
}

impl<T: Drop> Sender<T> {
    ghost use Rattle.mb_channel.specs.Drawing.{DrawClosed, OfDrawing, after_drawing};
    ghost use Rattle.mb_channel.specs.Ends.{IsBehind, stand_of};
    ghost use Rattle.mb_channel.specs.Wakes.{Tells, wakes_of};

    /// Tries to draw a place for a value, behind all that the sender sent before. The value counts as sent from then on.
    /// If the last segment is full, the call may add the next one, which takes memory. It makes a few accesses, and wakes
    /// nobody.
    pub fn draw(self, value: &T) -> Drawing<T>
        ensures answer { OfDrawing result value.now (stand_of self.end) }
        ensures wakes { Tells 0 (wakes_of self.end) (after_drawing result) }
        ensures still { IsBehind self.end → DrawClosed result }
    {
        let Sender { mut end } = self;
        for _ in 0..TRIES {
            match end.draw(value) {
                Ok(half) => return Drawing::At(Drawn { half }),
                Err((back, Miss::Over)) => end = back,
                Err((back, _)) => return Drawing::Again(Sender { end: back }),
            }
            if let Err(why) = end.go_on(false, true) {
                return Drawing::Refused(Sender { end }, why);
            }
        }
        Drawing::Again(Sender { end })
    }
}

impl<T: Drop> Drawn<T> {
    ghost use Rattle.std.specs.Prelude.{IfErr, IfOk};
    ghost use Rattle.mb_channel.specs.Drawing.{IsDrawnFor};
    ghost use Rattle.mb_channel.specs.Ends.{stand_of};
    ghost use Rattle.mb_channel.specs.Halves.{place_in, stand_half, wakes_half};
    ghost use Rattle.mb_channel.specs.Standing.{NoMore, stand_with};
    ghost use Rattle.mb_channel.specs.Wakes.{Tells, wakes_of, wakes_with};

    /// The place that the sender drew.
    pub fn place(&self) -> Place
        ensures { result ≡ place_in self.now.half }
    {
        self.half.place()
    }

    /// Writes the value, and marks the place: a receiver can claim it from then on. If receivers may have to be woken, the
    /// sender comes back as an [`Owing`], which pays for that.
    pub fn mark(self, value: T) -> Result<Sender<T>, Owing<T>>
        requires same { IsDrawnFor self value }
        ensures sent { IfOk result (λ s. NoMore (stand_half self.half) (stand_of s.end)) }
        ensures owes { IfErr result (λ o. NoMore (stand_half self.half) (stand_with o.debtor)) }
        ensures wakes { IfOk result (λ s. Tells 0 (wakes_half self.half) (wakes_of s.end)) }
        ensures still { IfErr result
            (λ o. Tells 0 (wakes_half self.half) (wakes_with o.debtor)) }
        ensures place { IfOk result (λ s. s.end.chair ≡ self.half.chair) }
        ensures place_owing { IfErr result (λ o. o.debtor.chair ≡ self.half.chair) }
    {
        let Drawn { half } = self;
        match half.mark(value).rest() {
            Ok(end) => Ok(Sender { end }),
            Err(debtor) => Err(Owing { debtor }),
        }
    }
}
