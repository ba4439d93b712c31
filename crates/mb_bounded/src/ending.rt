//! The end of a channel, which tells its whole life.
ghost use Rattle.std.specs.Prelude.{All, IfErr, IfOk, List, length, map, ◌+◌, ◌++◌, ◌∷◌, ◌≡◌, ◌≤◌};
ghost use Rattle.mb_ring.specs.Vocabulary.{HasLeft, Issuer, hub_view};
ghost use Rattle.mb_bounded.specs.Desks.{HasHired, IsAsBefore, knows};
ghost use Rattle.mb_bounded.specs.Ends.{IsPastOf, IsStill, account_of, past_account};
ghost use Rattle.mb_bounded.specs.Lives.{IsLife};

use crate::desk::Desk;
use crate::end::{End, Past, Receiver, Sender};
use crate::hall::Hall;
use mb_ring::{Hub, Left, Ring};
use std::alloc::Global;
use std::sync::{Arc, Wait};

/// A channel that could not be ended, since an end is not back. All come back.
#[derive(Drop)]
pub struct NotEnded<E, T: Drop> {
    pub end: E,
    pub others: Vec<Past<T>>,
}

/// The hub takes back all these passes, the last one first.
fn take_all<T: Drop>(ring: &Ring<T, Global>, hub: &mut Hub<T>, others: Vec<Past<T>>)
    requires ring { hub.old.seat.table_id ≡ ring.now.table.shared.table_id }
    requires hub { (hub_view hub.old).role ≡ Issuer }
    requires others { All (λ p. p.pass.seat.table_id ≡ ring.now.table.shared.table_id)
        others.items }
    requires enough { length others.items ≤ (hub_view hub.old).out }
    ensures ring { hub.new.seat.table_id ≡ hub.old.seat.table_id }
    ensures hub { (hub_view hub.new).role ≡ Issuer }
    ensures out { (hub_view hub.new).out + length others.items ≡ (hub_view hub.old).out }
    ensures ends { (hub_view hub.new).ends
        ≡ map past_account others.items ++ (hub_view hub.old).ends }
{
    let mut others = others;
    while let Some(past) = others.pop() {
        let Past {
            chair: _,
            pass,
            last: _,
        } = past;
        ring.take_back(hub, pass.pass());
    }
}

impl<T: Drop> End<T> {
    /// Ends the channel, if so many ends were ever made as are here, and no other shares it. What they did and the
    /// values left are the channel's whole life.
    fn end<R: Wait>(self, rt: &R, others: Vec<Past<T>>) -> Result<Left<T>, NotEnded<End<T>, T>>
        requires others { All (IsPastOf self) others.items }
        ensures whole { IfOk result (λ l. (left : List T) × HasLeft l left
            × IsLife (account_of self ∷ map past_account others.items) left) }
        ensures back { IfErr result (λ e. IsStill self e.end
            × IsAsBefore (knows self.chair) (knows e.end.chair)
            × HasHired 0 0 (knows self.chair) (knows e.end.chair) × (e.others ≡ others)) }
    {
        let (hall, mut chair, pass) = self.parts();
        let desk = hall.office.take(rt, &mut chair);
        if desk.made.saturating_sub(1) != others.len() as u64 {
            hall.office.put(&mut chair, desk);
            return Err(NotEnded {
                end: End { hall, chair, pass },
                others,
            });
        }
        match Arc::try_unwrap(hall) {
            Ok(Hall { ring, office }) => {
                drop(office);
                drop(chair);
                let Desk {
                    mut hub,
                    made: _,
                    senders: _,
                    receivers: _,
                } = desk;
                take_all(&ring, &mut hub, others);
                ring.take_back(&mut hub, pass);
                Ok(ring.end(hub))
            }
            Err(hall) => {
                hall.office.put(&mut chair, desk);
                Err(NotEnded {
                    end: End { hall, chair, pass },
                    others,
                })
            }
        }
    }
}

impl<T: Drop> Sender<T> {
    /// Ends the channel by its last end. All others were given back, and are here. What all of them did and the values
    /// left are the channel's whole life. The error gives all back. It comes if not as many are here as were ever made, or
    /// if an end is still being given back.
    pub fn end<R: Wait>(
        self,
        rt: &R,
        others: Vec<Past<T>>,
    ) -> Result<Left<T>, NotEnded<Sender<T>, T>>
        requires others { All (IsPastOf self.end) others.items }
        ensures whole { IfOk result (λ l. (left : List T) × HasLeft l left
            × IsLife (account_of self.end ∷ map past_account others.items) left) }
        ensures back { IfErr result (λ e. IsStill self.end e.end.end
            × HasHired 0 0 (knows self.end.chair) (knows e.end.end.chair)
            × (e.others ≡ others) × (e.end.closed ≡ self.closed)) }
    {
        let Sender { end, closed } = self;
        match end.end(rt, others) {
            Ok(left) => Ok(left),
            Err(NotEnded { end, others }) => Err(NotEnded {
                end: Sender { end, closed },
                others,
            }),
        }
    }
}

impl<T: Drop> Receiver<T> {
    /// Ends the channel as [`Sender::end`].
    pub fn end<R: Wait>(
        self,
        rt: &R,
        others: Vec<Past<T>>,
    ) -> Result<Left<T>, NotEnded<Receiver<T>, T>>
        requires others { All (IsPastOf self.end) others.items }
        ensures whole { IfOk result (λ l. (left : List T) × HasLeft l left
            × IsLife (account_of self.end ∷ map past_account others.items) left) }
        ensures back { IfErr result (λ e. IsStill self.end e.end.end
            × HasHired 0 0 (knows self.end.chair) (knows e.end.end.chair)
            × (e.others ≡ others) × (e.end.over ≡ self.over)) }
    {
        let Receiver { end, over } = self;
        match end.end(rt, others) {
            Ok(left) => Ok(left),
            Err(NotEnded { end, others }) => Err(NotEnded {
                end: Receiver { end, over },
                others,
            }),
        }
    }
}
