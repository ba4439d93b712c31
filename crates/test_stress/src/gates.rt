//! A gate that closes at random calls.

use crate::plan::Stops;
use mb_mailbox::{Gate, Who};

/// A gate that stops the workers that the plan names, at calls drawn from a seed.
#[derive(Drop)]
pub struct RandomGate {
    pub stops: Stops,
    pub seed: u64,
}

/// A number that depends on all bits of this one.
fn mixed(x: u64) -> u64 {
    let x = (x ^ (x >> 30)).wrapping_mul(0xbf58476d1ce4e5b9);
    let x = (x ^ (x >> 27)).wrapping_mul(0x94d049bb133111eb);
    x ^ (x >> 31)
}

impl RandomGate {
    /// Whether this call of this worker is drawn, which happens once in `one_in` calls on average.
    fn is_drawn(&self, worker: u64, call: u64, one_in: u64) -> bool {
        mixed(mixed(self.seed ^ worker) ^ call).checked_rem(one_in) == Some(0)
    }
}

impl Gate for RandomGate {
    // To draw, 1000 is added to a consumer's number, so that no producer has the same draws.
    fn enter(&self, who: Who, call: u64) -> bool {
        match (self.stops, who) {
            (Stops::Nobody, _) => true,
            (Stops::Anybody(one_in), Who::Producer(p)) => {
                !self.is_drawn(u64::from(p), call, one_in)
            }
            (Stops::Anybody(one_in), Who::Consumer(c)) => {
                !self.is_drawn(1000 + u64::from(c), call, one_in)
            }
            (Stops::HalfOfTheConsumers(_), Who::Producer(_)) => true,
            (Stops::HalfOfTheConsumers(one_in), Who::Consumer(c)) => {
                c % 2 == 0 || !self.is_drawn(1000 + u64::from(c), call, one_in)
            }
        }
    }

    fn leave(&self, _who: Who, _call: u64) {}
}
