//! A worker that receives.
ghost use Rattle.std.specs.Prelude.{◌≡◌};
ghost use Rattle.mb_channel.specs.Ends.{AreOfOneChannel};

use crate::account::{Account, add};
use crate::draws::{Draws, Fate, Sent};
use mb_channel::{Receiver, Refused, Tried};
use std::mem::replace;
use std::sync::Wait;
use std::thread::yield_now;
use std::time::{Clock, Duration, Instant};

/// A worker that receives values, by one receiver after the other, until it receives a pill.
#[derive(Drop)]
pub struct Receiving {
    pub receiver: Receiver<Sent>,
    pub draws: Draws,
    /// For each sender, the least of its values that may come next.
    pub next: Vec<u64>,
    /// The first value of all, and how many each sender has.
    pub first: u64,
    pub each: u64,
}

impl Receiving {
    /// Makes another receiver, and gives back or drops one of the two.
    fn renew<R: Wait>(&mut self, rt: &R, account: &Account, fate: Fate)
        ensures { AreOfOneChannel self.old.receiver.end self.new.receiver.end }
    {
        let Some(other) = self.receiver.another() else {
            add(&account.refused, 1);
            return;
        };
        match fate {
            Fate::Changed => {
                let old = replace(&mut self.receiver, other);
                self.receiver.give_receiver(rt, old);
            }
            Fate::Returned => self.receiver.give_receiver(rt, other),
            Fate::Dropped => {
                add(&account.dropped, 1);
                drop(other);
            }
            Fate::Left => {
                add(&account.dropped, 1);
                drop(replace(&mut self.receiver, other));
            }
        }
    }

    /// Receives in a way that is drawn. It may be that nothing comes.
    fn receive<R: Clock + Wait>(&mut self, rt: &R) -> Result<Option<Sent>, Refused>
        ensures { AreOfOneChannel self.old.receiver.end self.new.receiver.end }
    {
        match (self.draws.below(2), Instant::now(rt)) {
            (0, _) => match self.receiver.try_receive() {
                Ok(Tried::Value(sent)) => Ok(Some(sent)),
                Ok(_) => {
                    yield_now();
                    Ok(None)
                }
                Err(why) => Err(why),
            },
            (1, Ok(now)) => {
                let micros = self.draws.below(8);
                let soon = now
                    .checked_add(Duration::from_micros(micros))
                    .unwrap_or(now);
                self.receiver.receive_by(rt, soon)
            }
            _ => match self.receiver.receive(rt) {
                Ok(sent) => Ok(Some(sent)),
                Err(why) => Err(why),
            },
        }
    }

    /// Notes a value, and whether it came behind a later one.
    fn note(&mut self, account: &Account, value: u64)
        ensures receiver { self.new.receiver ≡ self.old.receiver }
    {
        account.receive(value);
        let place = value.wrapping_sub(self.first);
        let sender = place.checked_div(self.each).unwrap_or(0);
        if let Some(next) = self.next.get_mut(sender as usize) {
            if value < *next {
                add(&account.disordered, 1);
            }
            *next = value.saturating_add(1);
        }
    }

    /// Receives until a pill comes. Returns the receiver that has all others.
    pub fn work<R: Clock + Wait>(self, rt: &R, account: &Account) -> Receiver<Sent>
        ensures { AreOfOneChannel self.receiver.end result.end }
    {
        let mut worker = self;
        for _ in rt.forever() {
            if let Some(fate) = worker.draws.fate() {
                worker.renew(rt, account, fate);
            }
            match worker.receive(rt) {
                Ok(Some(Sent::Value(value))) => worker.note(account, value),
                Ok(Some(Sent::Pill)) => break,
                Ok(None) => {}
                Err(_) => {
                    add(&account.refused, 1);
                    break;
                }
            }
        }
        worker.receiver
    }
}
