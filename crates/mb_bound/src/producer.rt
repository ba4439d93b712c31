//! Puts of a producer that is kept together with its mailbox.
use mb_cells::Finish;
use mb_mailbox::{Mailbox, Producer, Put};
use std::alloc::Allocator;
use std::marker::Model;
use std::sync::Arc;

/// A producer with its mailbox.
#[derive(Drop)]
pub struct BoundProducer<A: Allocator + Drop> {
    pub(crate) id: u64,
    pub(crate) mailbox: Arc<Mailbox<A>, A>,
    pub(crate) producer: Producer<A>,
}

// The invariant is that the producer belongs to the mailbox.
impl<A: Allocator + Drop> Model for BoundProducer<A> {
    ghost use Rattle.std.specs.Arc.{arc_value};
    ghost use Rattle.mb_bound.specs.Bound.{BoundProducerView};
    ghost use Rattle.mb_mailbox.specs.Producers.{IsProducerOf};

    ghost Value = { BoundProducerView };

    ghost view = { λ p. record {
      id = p.id;
      mailbox = arc_value p.mailbox;
      producer = p.producer;
    } };

    ghost invariant = { λ p. IsProducerOf (arc_value p.mailbox) p.producer };
}

impl<A: Allocator + Drop> BoundProducer<A> {
    ghost use Rattle.std.specs.Prelude.{◌≡◌, ◌≢◌, ◌↔◌, ℕ, false, true};
    ghost use Rattle.mb_cells.specs.declared.answer.Finish.TheVariants as finish;
    ghost use Rattle.mb_mailbox.specs.declared.producer.Put.TheVariants.{Closed, Full, Linked};
    ghost use Rattle.mb_mailbox.specs.Producers.{FoundNoCell, HasNoCellFor, IsEndOfLane};
    ghost use Rattle.mb_mailbox.specs.Producers.{IsProducerOf, IsPutInto, IsSameLane, is_over};

    /// The number of the producer's mailbox.
    pub fn id(&self) -> u64
        ensures { result ≡ self.now.id }
    {
        self.id
    }

    /// The number of the producer's lane, from 0 on.
    pub fn lane(&self) -> u32
        ensures { result ≡ self.now.producer.seat.lane }
    {
        self.producer.lane()
    }

    /// A law: the producer is one of the mailbox that it is kept with.
    pub fn is_bound(&self)
        ensures { IsProducerOf self.now.mailbox self.now.producer }
    {
        let _ = &self.producer;
    }

    /// Puts an item, which may be any number, at the end of the lane, as [`Producer::put`] does.
    pub fn put(&mut self, x: u64) -> Put
        ensures linked { result ≡ Linked
            → (k : ℕ) × IsPutInto k x self.old.producer self.new.producer }
        ensures full { result ≡ Full → HasNoCellFor x self.old.producer self.new.producer }
        ensures found { result ≡ Full → FoundNoCell self.new.producer }
        ensures stays_full { FoundNoCell self.old.producer → is_over self.old.producer ≡ false
            → result ≡ Full }
        ensures closed { (result ≡ Closed) ↔ (is_over self.old.producer ≡ true) }
        ensures closed_same { result ≡ Closed → self.new ≡ self.old }
        ensures stays { is_over self.new.producer ≡ is_over self.old.producer }
        ensures lane { IsSameLane self.old.producer self.new.producer }
        ensures id { self.new.id ≡ self.old.id }
        ensures mailbox { self.new.mailbox ≡ self.old.mailbox }
    {
        self.producer.put(&self.mailbox, x)
    }

    /// Ends the lane, as [`Producer::finish`] does. It never returns `Busy`.
    pub fn finish(&mut self) -> Finish
        ensures ended { result ≡ finish.Ended
            → IsEndOfLane self.old.producer self.new.producer }
        ensures closed { (result ≡ finish.Closed) ↔ (is_over self.old.producer ≡ true) }
        ensures closed_same { result ≡ finish.Closed → self.new ≡ self.old }
        ensures never_busy { result ≢ finish.Busy }
        ensures over { is_over self.new.producer ≡ true }
        ensures lane { IsSameLane self.old.producer self.new.producer }
        ensures items { self.new.producer.items ≡ self.old.producer.items }
        ensures id { self.new.id ≡ self.old.id }
        ensures mailbox { self.new.mailbox ≡ self.old.mailbox }
    {
        self.producer.finish(&self.mailbox)
    }
}
