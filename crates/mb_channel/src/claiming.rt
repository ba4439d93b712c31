//! The two halves of a receive that never waits.
ghost use Rattle.std.specs.Prelude.{◌≡◌, ◌<◌, true};
ghost use Rattle.mb_channel.specs.Halves.{IsReader};
ghost use Rattle.mb_channel.specs.Homes.{view_in};

use crate::begun::Miss;
use crate::channel::{Refused, TRIES};
use crate::end::Receiver;
use crate::halfway::Halfway;
use crate::place::Place;

/// A receiver that claimed a place, and has still to read its value. The value counts as received. It cannot be dropped.
pub struct Claimed<T: Drop> {
    pub(crate) half: Halfway<T>,
    ghost takes: { (view_in half.chair).takes ≡ true },
    ghost sends: { (view_in half.chair).sends ≡ 0 },
    ghost receives: { 0 < (view_in half.chair).receives },
    ghost reader: { IsReader half },
}

/// What came of a claim.
pub enum Claiming<T: Drop> {
    /// A value counts as received. Read it.
    At(Claimed<T>),
    /// No value is there, as in [`Tried::Empty`](crate::Tried::Empty).
    Empty(Receiver<T>),
    /// A value is being sent, another end was first, or the lock is taken. Yield, and try again.
    Again(Receiver<T>),
    /// [`Refused::Closed`] says that no value can ever come again. [`Refused::Crowded`] says that the segments or their
    /// ends cannot be counted.
    Refused(Receiver<T>, Refused),
}

impl<T: Drop> Receiver<T> {
    ghost use Rattle.mb_channel.specs.Claiming.{ClaimClosed, OfClaiming, after_claiming};
    ghost use Rattle.mb_channel.specs.Ends.{IsBehind, stand_of};
    ghost use Rattle.mb_channel.specs.Wakes.{Tells, wakes_of};

    /// Tries to claim the next value, which counts as received from then on. It makes a few accesses.
    pub fn claim(self) -> Claiming<T>
        ensures answer { OfClaiming result (stand_of self.end) }
        ensures wakes { Tells 0 (wakes_of self.end) (after_claiming result) }
        ensures still { IsBehind self.end → ClaimClosed result }
    {
        let Receiver { mut end } = self;
        for _ in 0..TRIES {
            match end.claim() {
                Ok(half) => return Claiming::At(Claimed { half }),
                Err((back, Miss::Over)) => end = back,
                Err((back, Miss::Empty)) => return Claiming::Empty(Receiver { end: back }),
                Err((back, Miss::Again)) => return Claiming::Again(Receiver { end: back }),
            }
            match end.go_on(true, false) {
                Ok(true) => {}
                Ok(false) => return Claiming::Empty(Receiver { end }),
                Err(why) => return Claiming::Refused(Receiver { end }, why),
            }
        }
        Claiming::Again(Receiver { end })
    }
}

impl<T: Drop> Claimed<T> {
    ghost use Rattle.mb_channel.specs.Claiming.{IsClaimOf};
    ghost use Rattle.mb_channel.specs.Ends.{stand_of};
    ghost use Rattle.mb_channel.specs.Halves.{place_in, stand_half, wakes_half};
    ghost use Rattle.mb_channel.specs.Standing.{NoMore};
    ghost use Rattle.mb_channel.specs.Wakes.{Tells, wakes_of};

    /// The place that the receiver claimed.
    pub fn place(&self) -> Place
        ensures { result ≡ place_in self.now.half }
    {
        self.half.place()
    }

    /// Reads the value of the place. It is the one that was claimed.
    pub fn read(self) -> (T, Receiver<T>)
        ensures value { IsClaimOf self result.0 }
        ensures still { NoMore (stand_half self.half) (stand_of result.1.end) }
        ensures wakes { Tells 0 (wakes_half self.half) (wakes_of result.1.end) }
        ensures place { result.1.end.chair ≡ self.half.chair }
    {
        let Claimed { half } = self;
        let (value, end) = half.read();
        (value, Receiver { end })
    }
}
