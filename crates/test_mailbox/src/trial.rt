//! A mailbox together with its producers and consumers, so that a test calls them by their positions, 0 and 1.
ghost use Rattle.std.specs.Prelude.{IfSome};
ghost use Rattle.mb_mailbox.specs.Consumers.{IsConsumerOf};
ghost use Rattle.mb_mailbox.specs.Producers.{IsProducerOf};

use mb_cells::{Finish, NoMemory};
use mb_mailbox::{
    Consumer, Gate, GatherFault, Hub, HubFault, Mailbox, Poll, Producer, Put, WorkFault, Worked,
    work,
};
use mb_world::{Report, Setup};
use rand_core::Rng;
use std::alloc::Allocator;
use std::marker::Model;
use std::sync::Wait;
use std::thread::Threads;

/// A mailbox and its hub, with at most two producers and two consumers that were issued and not returned.
#[derive(Drop)]
pub(crate) struct Trial<A: Allocator + Drop> {
    mailbox: Mailbox<A>,
    hub: Hub<A>,
    first_producer: Option<Producer<A>>,
    second_producer: Option<Producer<A>>,
    first_consumer: Option<Consumer<A>>,
    second_consumer: Option<Consumer<A>>,
}

impl<A: Allocator + Drop> Model for Trial<A> {
    ghost use Rattle.std.specs.Prelude.{IfSome};
    ghost use Rattle.mb_mailbox.specs.Consumers.{IsConsumerOf};
    ghost use Rattle.mb_mailbox.specs.Hubs.{IsHubOf};
    ghost use Rattle.mb_mailbox.specs.Producers.{IsProducerOf};

    ghost Value = { Unit {0} };

    ghost view = { λ _. tt };

    ghost invariant = { λ t. IsHubOf t.mailbox t.hub
        × IfSome t.first_producer (IsProducerOf t.mailbox)
        × IfSome t.second_producer (IsProducerOf t.mailbox)
        × IfSome t.first_consumer (IsConsumerOf t.mailbox)
        × IfSome t.second_consumer (IsConsumerOf t.mailbox) };
}

impl<A: Allocator + Clone + Drop> Trial<A> {
    /// A mailbox of this setup, which has issued nobody.
    pub(crate) fn new(alloc: A, setup: Setup) -> Result<Trial<A>, NoMemory> {
        let (mailbox, hub) = Mailbox::new(alloc, setup)?;
        Ok(Trial {
            mailbox,
            hub,
            first_producer: None,
            second_producer: None,
            first_consumer: None,
            second_consumer: None,
        })
    }

    /// Has the hub issue a producer. It goes to the first empty position, or else to position 1, where it replaces the
    /// one before.
    pub(crate) fn producer(&mut self, alloc: A) -> Result<(), HubFault> {
        let producer = self.hub.producer(alloc, &self.mailbox)?;
        if self.first_producer.is_none() {
            drop(self.first_producer.replace(producer));
        } else {
            drop(self.second_producer.replace(producer));
        }
        Ok(())
    }

    /// Has the hub issue a consumer. It goes to the first empty position, or else to position 1, where it replaces the
    /// one before.
    pub(crate) fn consumer(&mut self, alloc: A) -> Result<(), HubFault> {
        let consumer = self.hub.consumer(alloc, &self.mailbox)?;
        if self.first_consumer.is_none() {
            drop(self.first_consumer.replace(consumer));
        } else {
            drop(self.second_consumer.replace(consumer));
        }
        Ok(())
    }

    /// The result of a put by the producer at this position, if there is one.
    pub(crate) fn put(&mut self, place: usize, x: u64) -> Option<Put> {
        match place {
            0 => put_by(&mut self.first_producer, &self.mailbox, x),
            1 => put_by(&mut self.second_producer, &self.mailbox, x),
            _ => None,
        }
    }

    /// The result of a finish by the producer at this position, if there is one.
    pub(crate) fn finish(&mut self, place: usize) -> Option<Finish> {
        match place {
            0 => finish_by(&mut self.first_producer, &self.mailbox),
            1 => finish_by(&mut self.second_producer, &self.mailbox),
            _ => None,
        }
    }

    /// The result of a poll by the consumer at this position, if there is one.
    pub(crate) fn poll<R: Rng>(
        &mut self,
        place: usize,
        lane: u64,
        budget: u64,
        words: &mut R,
    ) -> Option<Poll> {
        match place {
            0 => poll_by(&mut self.first_consumer, &self.mailbox, lane, budget, words),
            1 => poll_by(
                &mut self.second_consumer,
                &self.mailbox,
                lane,
                budget,
                words,
            ),
            _ => None,
        }
    }

    /// The result of a take by the consumer at this position, if there is one.
    pub(crate) fn take<R: Rng>(
        &mut self,
        place: usize,
        lane: u64,
        most: u64,
        words: &mut R,
    ) -> Option<Poll> {
        match place {
            0 => take_by(&mut self.first_consumer, &self.mailbox, lane, most, words),
            1 => take_by(&mut self.second_consumer, &self.mailbox, lane, most, words),
            _ => None,
        }
    }

    /// The hub takes the producer at this position back. Returns whether there was one.
    pub(crate) fn take_producer(&mut self, place: usize) -> bool {
        let producer = match place {
            0 => self.first_producer.take(),
            1 => self.second_producer.take(),
            _ => None,
        };
        match producer {
            Some(producer) => {
                self.hub.take_producer(&self.mailbox, producer);
                true
            }
            None => false,
        }
    }

    /// The hub takes the consumer at this position back. Returns whether there was one.
    pub(crate) fn take_consumer(&mut self, place: usize) -> bool {
        let consumer = match place {
            0 => self.first_consumer.take(),
            1 => self.second_consumer.take(),
            _ => None,
        };
        match consumer {
            Some(consumer) => {
                self.hub.take_consumer(&self.mailbox, consumer);
                true
            }
            None => false,
        }
    }

    /// The report, or the fault with all as it was: producers and consumers that are not returned keep their positions.
    pub(crate) fn gather(self, alloc: A) -> Result<Report<A>, (GatherFault, Trial<A>)> {
        let Trial {
            mailbox,
            hub,
            first_producer,
            second_producer,
            first_consumer,
            second_consumer,
        } = self;
        match mailbox.gather(alloc, hub) {
            Ok(report) => {
                drop((first_producer, second_producer));
                drop((first_consumer, second_consumer));
                Ok(report)
            }
            Err((fault, mailbox, hub)) => Err((
                fault,
                Trial {
                    mailbox,
                    hub,
                    first_producer,
                    second_producer,
                    first_consumer,
                    second_consumer,
                },
            )),
        }
    }
}

impl<A: Allocator + Clone + Drop + Send + Sync> Trial<A> {
    /// Runs workers in threads, by `mb_mailbox::work`.
    pub(crate) fn work<W: Threads + Wait + Sync, R: Rng + Send + Drop, G: Gate>(
        &mut self,
        alloc: A,
        rt: &W,
        items: Vec<Vec<u64, A>, A>,
        budget: u64,
        rngs: Vec<R, A>,
        gate: &G,
    ) -> Result<Worked, WorkFault> {
        work(
            alloc,
            rt,
            &self.mailbox,
            &mut self.hub,
            items,
            budget,
            rngs,
            gate,
        )
    }
}

/// The result of a put by this producer, if there is one.
fn put_by<A: Allocator + Drop>(
    producer: &mut Option<Producer<A>>,
    mailbox: &Mailbox<A>,
    x: u64,
) -> Option<Put>
    requires belongs { IfSome producer.old (IsProducerOf mailbox.now) }
    ensures belongs { IfSome producer.new (IsProducerOf mailbox.now) }
{
    match producer {
        Some(producer) => Some(producer.put(mailbox, x)),
        None => None,
    }
}

/// The result of a finish by this producer, if there is one.
fn finish_by<A: Allocator + Drop>(
    producer: &mut Option<Producer<A>>,
    mailbox: &Mailbox<A>,
) -> Option<Finish>
    requires belongs { IfSome producer.old (IsProducerOf mailbox.now) }
    ensures belongs { IfSome producer.new (IsProducerOf mailbox.now) }
{
    match producer {
        Some(producer) => Some(producer.finish(mailbox)),
        None => None,
    }
}

/// The result of a poll by this consumer, if there is one.
fn poll_by<A: Allocator + Drop, R: Rng>(
    consumer: &mut Option<Consumer<A>>,
    mailbox: &Mailbox<A>,
    lane: u64,
    budget: u64,
    words: &mut R,
) -> Option<Poll>
    requires belongs { IfSome consumer.old (IsConsumerOf mailbox.now) }
    ensures belongs { IfSome consumer.new (IsConsumerOf mailbox.now) }
{
    match consumer {
        Some(consumer) => Some(consumer.poll(mailbox, lane, budget, words)),
        None => None,
    }
}

/// The result of a take by this consumer, if there is one.
fn take_by<A: Allocator + Drop, R: Rng>(
    consumer: &mut Option<Consumer<A>>,
    mailbox: &Mailbox<A>,
    lane: u64,
    most: u64,
    words: &mut R,
) -> Option<Poll>
    requires belongs { IfSome consumer.old (IsConsumerOf mailbox.now) }
    ensures belongs { IfSome consumer.new (IsConsumerOf mailbox.now) }
{
    match consumer {
        Some(consumer) => Some(consumer.take(mailbox, lane, most, words)),
        None => None,
    }
}
