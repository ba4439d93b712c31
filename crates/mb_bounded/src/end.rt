//! Senders and receivers, and what is left of those that were given back.
ghost use Rattle.std.specs.Prelude.{[], true, ◌≡◌};
ghost use Rattle.std.specs.Arc.{arc_value};
ghost use Rattle.mb_ring.specs.Vocabulary.{IsFree as IsFreePass, view_in};
ghost use Rattle.mb_bounded.specs.Desks.{IsReady, knows};

use crate::hall::Shared;
use crate::office::Chair;
use mb_ring::{Idle, Pass};

/// An end of a channel: a pass of its ring, and a chair at its desk. It shares both with the other ends.
pub struct End<T: Drop> {
    pub(crate) hall: Shared<T>,
    pub(crate) chair: Chair<T>,
    pub(crate) pass: Pass<T>,
    ghost office: { chair.table_id ≡ (arc_value hall).office.table.shared.table_id },
    ghost ready: { IsReady chair.me },
    ghost ring: { (knows chair).ring ≡ (arc_value hall).ring },
    ghost place: { pass.seat.table_id ≡ (arc_value hall).ring.table.shared.table_id },
    ghost free: { IsFreePass pass },
}

impl<T: Drop> Drop for End<T> {
    fn drop(self) {
        let End { hall, chair, pass } = self;
        drop(pass.rest());
        drop(chair);
        drop(hall);
    }
}

impl<T: Drop> End<T> {
    pub(crate) fn parts(self) -> (Shared<T>, Chair<T>, Pass<T>)
        ensures { (result.0 ≡ self.hall) × (result.1 ≡ self.chair) × (result.2 ≡ self.pass) }
    {
        let End { hall, chair, pass } = self;
        (hall, chair, pass)
    }
}

/// An end that sends. If it is dropped, it never comes back: no other sender ever counts as the last one, and the
/// channel cannot be ended.
#[derive(Drop)]
pub struct Sender<T: Drop> {
    pub(crate) end: End<T>,
    /// Whether it closed the channel, or was told that it is closed.
    pub(crate) closed: bool,
    ghost counts: { ((knows end.chair).sends ≡ 1) × ((knows end.chair).receives ≡ 0) },
    ghost told: { closed ≡ true → (view_in end.pass).sight.cut ≡ true },
}

/// An end that receives. If it is dropped, it never comes back: no other receiver ever counts as the last one, and the
/// channel cannot be ended.
#[derive(Drop)]
pub struct Receiver<T: Drop> {
    pub(crate) end: End<T>,
    /// Whether it was told that no value can come any more.
    pub(crate) over: bool,
    ghost counts: { ((knows end.chair).sends ≡ 0) × ((knows end.chair).receives ≡ 1) },
    ghost told: { over ≡ true → (view_in end.pass).over ≡ true },
}

/// What is left of an end that was given back: it knows all that the end did. The channel is ended with all of them.
#[derive(Drop)]
pub struct Past<T: Drop> {
    pub(crate) chair: Chair<T>,
    pub(crate) pass: Idle<T>,
    /// Whether it was the last of its side, which then closed the channel.
    pub(crate) last: bool,
}
