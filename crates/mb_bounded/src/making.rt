//! A channel is made, and ends are made from one another.
ghost use Rattle.std.specs.Prelude.{IfNone, IfOk, IfSome, ◌<◌, ◌≡◌, ◌⊎◌};
ghost use Rattle.mb_bounded.specs.Desks.{HasHired, knows};
ghost use Rattle.mb_bounded.specs.Ends.{IsFresh, IsMate, IsStill, bound_of};

use crate::end::{End, Receiver, Sender};
use crate::hall::Hall;
use crate::office::Office;
use crate::rule::{AsReceiver, AsSender};
use mb_ring::Ring;
use std::alloc::{AllocError, Global};
use std::sync::{Arc, Wait};

/// The first ends of a channel in which no more values wait than this bound. It is at least 1. All memory that the
/// channel will ever need is reserved here. The error is [`AllocError`] if the allocator refuses a part of it.
pub fn bounded<T: Drop>(alloc: Global, bound: u32) -> Result<(Sender<T>, Receiver<T>), AllocError>
    requires some { 0 < bound }
    ensures mates { IfOk result (λ r. IsMate r.0.end r.1.end) }
    ensures bound { IfOk result (λ r. bound_of r.0.end ≡ bound) }
    ensures fresh { IfOk result (λ r. IsFresh r.0.end × IsFresh r.1.end) }
{
    let (ring, mut hub) = Ring::new(alloc, bound)?;
    let mine = ring.issue(&mut hub).rest();
    let other = ring.issue(&mut hub).rest();
    let (office, mut chair) = Office::new(alloc, &ring, hub)?;
    let seat = office.split::<AsReceiver>(&mut chair);
    let hall = match Arc::new(alloc, Hall { ring, office }) {
        Ok(hall) => hall,
        Err(refused) => {
            drop(refused);
            return Err(AllocError);
        }
    };
    let shared = Arc::try_clone(&hall)?;
    let sender = Sender {
        end: End {
            hall,
            chair,
            pass: mine.pass(),
        },
        closed: false,
    };
    let receiver = Receiver {
        end: End {
            hall: shared,
            chair: seat,
            pass: other.pass(),
        },
        over: false,
    };
    Ok((sender, receiver))
}

impl<T: Drop> Sender<T> {
    /// Another sender. It is `None` if so many ends were made that they cannot be counted.
    pub fn another_sender<R: Wait>(&mut self, rt: &R) -> Option<Sender<T>>
        ensures same { IsStill self.old.end self.new.end × (self.new.closed ≡ self.old.closed) }
        ensures new { IfSome result (λ s. IsMate self.old.end s.end × IsFresh s.end) }
        ensures hired { IfSome result
            (λ _. HasHired 1 0 (knows self.old.end.chair) (knows self.new.end.chair)) }
        ensures none { IfNone result ((self.new ≡ self.old)
            ⊎ HasHired 0 0 (knows self.old.end.chair) (knows self.new.end.chair)) }
    {
        let hall = Arc::try_clone(&self.end.hall).ok()?;
        let end = &mut self.end;
        let (chair, pass) = hall
            .office
            .hire::<AsSender, R>(rt, &hall.ring, &mut end.chair)?;
        Some(Sender {
            end: End { hall, chair, pass },
            closed: false,
        })
    }
}

impl<T: Drop> Receiver<T> {
    /// Another receiver. It is `None` if so many ends were made that they cannot be counted.
    pub fn another_receiver<R: Wait>(&mut self, rt: &R) -> Option<Receiver<T>>
        ensures same { IsStill self.old.end self.new.end × (self.new.over ≡ self.old.over) }
        ensures new { IfSome result (λ r. IsMate self.old.end r.end × IsFresh r.end) }
        ensures hired { IfSome result
            (λ _. HasHired 0 1 (knows self.old.end.chair) (knows self.new.end.chair)) }
        ensures none { IfNone result ((self.new ≡ self.old)
            ⊎ HasHired 0 0 (knows self.old.end.chair) (knows self.new.end.chair)) }
    {
        let hall = Arc::try_clone(&self.end.hall).ok()?;
        let end = &mut self.end;
        let (chair, pass) = hall
            .office
            .hire::<AsReceiver, R>(rt, &hall.ring, &mut end.chair)?;
        Some(Receiver {
            end: End { hall, chair, pass },
            over: false,
        })
    }
}
