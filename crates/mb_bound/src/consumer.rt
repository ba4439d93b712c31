//! Polls of a consumer that is kept together with its mailbox.
use mb_mailbox::{Consumer, Mailbox, Poll};
use rand_core::Rng;
use std::alloc::Allocator;
use std::marker::Model;
use std::sync::Arc;

/// A consumer with its mailbox. A consumer has no source of random words, so each poll takes one.
#[derive(Drop)]
pub struct BoundConsumer<A: Allocator + Drop> {
    pub(crate) id: u64,
    pub(crate) mailbox: Arc<Mailbox<A>, A>,
    pub(crate) consumer: Consumer<A>,
}

// The invariant is that the consumer belongs to the mailbox.
impl<A: Allocator + Drop> Model for BoundConsumer<A> {
    ghost use Rattle.std.specs.Arc.{arc_value};
    ghost use Rattle.mb_bound.specs.Bound.{BoundConsumerView};
    ghost use Rattle.mb_mailbox.specs.Consumers.{IsConsumerOf};

    ghost Value = { BoundConsumerView };

    ghost view = { λ c. record {
      id = c.id;
      mailbox = arc_value c.mailbox;
      consumer = c.consumer;
    } };

    ghost invariant = { λ c. IsConsumerOf (arc_value c.mailbox) c.consumer };
}

impl<A: Allocator + Drop> BoundConsumer<A> {
    ghost use Rattle.std.specs.Prelude.{◌≡◌};
    ghost use Rattle.mb_mailbox.specs.declared.consumer.Poll.TheVariants.{NoLane};
    ghost use Rattle.mb_mailbox.specs.Came.{PollCameTo, TakeCameTo};
    ghost use Rattle.mb_mailbox.specs.Consumers.{IsConsumerOf};

    /// The number of the consumer's mailbox.
    pub fn id(&self) -> u64
        ensures { result ≡ self.now.id }
    {
        self.id
    }

    /// The consumer's own number, from 0 on.
    pub fn number(&self) -> u32
        ensures { result ≡ self.now.consumer.seat.consumer }
    {
        self.consumer.number()
    }

    /// A law: the consumer is one of the mailbox that it is kept with.
    pub fn is_bound(&self)
        ensures { IsConsumerOf self.now.mailbox self.now.consumer }
    {
        let _ = &self.consumer;
    }

    /// Makes at most `budget` accesses on a lane, until one of them has a result, as [`Consumer::poll`] does.
    pub fn poll<R: Rng>(&mut self, lane: u64, budget: u64, rng: &mut R) -> Poll
        ensures came { PollCameTo self.old.mailbox lane budget result (R.stream rng.old)
            (R.stream rng.new) self.old.consumer self.new.consumer }
        ensures refused { result ≡ NoLane → self.new ≡ self.old }
        ensures id { self.new.id ≡ self.old.id }
        ensures mailbox { self.new.mailbox ≡ self.old.mailbox }
    {
        self.consumer.poll(&self.mailbox, lane, budget, rng)
    }

    /// Makes at most `most` accesses on a lane, until it takes an item, as [`Consumer::take`] does. It goes on past items
    /// that it loses.
    pub fn take<R: Rng>(&mut self, lane: u64, most: u64, rng: &mut R) -> Poll
        ensures came { TakeCameTo self.old.mailbox lane most result (R.stream rng.old)
            (R.stream rng.new) self.old.consumer self.new.consumer }
        ensures refused { result ≡ NoLane → self.new ≡ self.old }
        ensures id { self.new.id ≡ self.old.id }
        ensures mailbox { self.new.mailbox ≡ self.old.mailbox }
    {
        self.consumer.take(&self.mailbox, lane, most, rng)
    }
}
