//! A producer of a mailbox.
mod moves;

use crate::mailbox::Mailbox;
use mb_cells::{Finish, Offer};
use mb_shared_cells::LaneSeat;
use moves::producers_move_on;
use std::alloc::Allocator;
use std::marker::Model;

/// What a put comes to.
#[derive(Clone, Copy, PartialEq, Eq, Debug)]
pub enum Put {
    /// The item was linked: it is the last of the lane.
    Linked,
    /// No cell was left for the item. The item is still the caller's, and in no report. The items put before stay. No
    /// cell comes back, so each further put of this producer returns `Full`, up to its finish.
    Full,
    /// This producer's own finish has ended the lane.
    Closed,
}

/// A producer: the seat of its lane, and the items that it put.
#[derive(Drop)]
pub struct Producer<A: Allocator + Drop> {
    pub(crate) seat: LaneSeat,
    pub(crate) items: Vec<u64, A>,
}

impl<A: Allocator + Drop> Model for Producer<A> {
    ghost use Rattle.std.specs.Prelude.{◌≤◌, vec_capacity};
    ghost use Rattle.mb_mailbox.specs.Producers.{IsProducer, ProducerView};

    ghost Value = { ProducerView };

    ghost view = { λ p. record { seat = p.seat; items = p.items.items } };

    ghost invariant = { λ p. IsProducer (record { seat = p.seat; items = p.items.items })
        × (p.seat.table.size.cells ≤ vec_capacity p.items) };
}

impl<A: Allocator + Drop> Producer<A> {
    ghost use Rattle.std.specs.Prelude.{◌≡◌, ◌≢◌, ◌↔◌, ℕ, false, true};
    ghost use Rattle.mb_cells.specs.declared.answer.Finish.TheVariants as finish;
    ghost use Rattle.mb_mailbox.specs.declared.producer.Put.TheVariants.{Closed, Full, Linked};
    ghost use Rattle.mb_mailbox.specs.PartPlaces.{HasPart};
    ghost use Rattle.mb_mailbox.specs.Producers.{FoundNoCell, HasNoCellFor, IsEndOfLane, IsProducer, IsProducerOf};
    ghost use Rattle.mb_mailbox.specs.Producers.{IsPutInto, IsSameLane, is_over};

    /// The number of its lane, from 0 on.
    pub fn lane(&self) -> u32
        ensures { result ≡ self.now.seat.lane }
    {
        self.seat.lane()
    }

    /// Puts an item, any number, at the end of the lane. If a cell is left, it makes three accesses: it draws the cell,
    /// stores the item there, and links the cell. The first put that returns [`Put::Full`] makes the fetch-add alone. A
    /// later one makes no access, nor does one that returns [`Put::Closed`]. A put takes no lock and no memory.
    #[inline(always)]
    pub fn put<B: Allocator + Drop>(&mut self, mailbox: &Mailbox<B>, x: u64) -> Put
        requires belongs { IsProducerOf mailbox.now self.old }
        ensures linked { result ≡ Linked → (k : ℕ) × IsPutInto k x self.old self.new }

        // `Full` comes with the first fetch-add of the producer that finds no cell. From then on, up to the finish,
        // it comes without an access.
        ensures full { result ≡ Full → HasNoCellFor x self.old self.new }
        ensures found { result ≡ Full → FoundNoCell self.new }
        ensures stays_full { FoundNoCell self.old → is_over self.old ≡ false → result ≡ Full }
        ensures closed { (result ≡ Closed) ↔ (is_over self.old ≡ true) }
        ensures closed_same { result ≡ Closed → self.new ≡ self.old }

        // A put ends no lane. The producer keeps its lane and its mailbox.
        ensures stays { is_over self.new ≡ is_over self.old }
        ensures lane { IsSameLane self.old self.new }
        ensures belongs { IsProducerOf mailbox.now self.new }
    {
        producers_move_on();
        self.seat.has_history();
        match mailbox.cells.offer(&mut self.seat, x) {
            Offer::Cell(_) => {
                mailbox.cells.push(&mut self.seat);
                mailbox.cells.push(&mut self.seat);
                self.items.push_reserved(x);
                Put::Linked
            }
            Offer::Full => Put::Full,
            Offer::Closed => Put::Closed,
            Offer::Busy => unreachable!(),
        }
    }

    /// Ends the lane by one store: no item comes after those that it has. It returns `Ended`. If the lane had ended
    /// before, it returns `Closed` and makes no access. It never returns `Busy`: each item put is linked. It takes no
    /// lock and no memory.
    pub fn finish<B: Allocator + Drop>(&mut self, mailbox: &Mailbox<B>) -> Finish
        requires belongs { IsProducerOf mailbox.now self.old }
        ensures ended { result ≡ finish.Ended → IsEndOfLane self.old self.new }
        ensures closed { (result ≡ finish.Closed) ↔ (is_over self.old ≡ true) }
        ensures closed_same { result ≡ finish.Closed → self.new ≡ self.old }
        ensures never_busy { result ≢ finish.Busy }
        ensures over { is_over self.new ≡ true }
        ensures lane { IsSameLane self.old self.new }
        ensures items { self.new.items ≡ self.old.items }
        ensures belongs { IsProducerOf mailbox.now self.new }
    {
        producers_move_on();
        self.seat.has_history();
        mailbox.cells.finish(&mut self.seat)
    }

    /// The producer's items are those that its part puts into the lane, and no item is pending. Some lawful history
    /// has the part. This computes nothing: its contract is a law of all producers.
    pub fn keeps_its_items(&self)
        ensures items { IsProducer self.now }
        ensures part { HasPart self.now.seat }
    {
        self.seat.has_history();
    }
}
