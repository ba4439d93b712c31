//! A consumer of a mailbox.
mod competing;
mod meeting;
mod moves;
mod passing;
mod places;
mod polls;
mod pursuit;
mod standing;
mod takes;

use crate::notes::Notes;
use arrayvec::ArrayVec;
use mb_shared_cells::ReaderSeat;
use mb_shared_claims::ClaimSeat;
use mb_world::Place;
use std::alloc::Allocator;
use std::marker::Model;

/// What a poll comes to.
#[derive(Clone, Copy, PartialEq, Eq, Debug)]
pub enum Poll {
    /// The consumer has won the item at which it stood, and has loaded this value.
    Took(u64),
    /// No consumer but the one of this number, from 0 on, can win the item at which it stood. That one may not have won
    /// it yet, or may end undecided.
    Lost(u32),
    /// This consumer's claim on the item at which it stood ended undecided: another may have won it, or nobody.
    Undecided,
    /// The consumer found no further item linked. The lane's producer may have linked one since then, if it was not
    /// returned before.
    Nothing,
    /// The lane has ended: no further item comes.
    Ended,
    /// The poll made as many accesses as the budget allows, and came to no other result.
    Spent,
    /// There is no such lane.
    NoLane,
}

/// The two seats of a consumer, its place on each lane, and its notes there. During a poll a place may be out of date.
/// Then these are not the fields of a consumer.
#[derive(Drop)]
pub(crate) struct ConsumerFields<A: Allocator + Drop> {
    pub(crate) reader: ReaderSeat,
    pub(crate) seat: ClaimSeat,
    pub(crate) places: ArrayVec<Place, 16>,
    pub(crate) notes: Notes<A>,
}

/// A consumer: its two seats, its places and its notes, which agree (`IsConsumer`), with room for a note on each cell.
#[derive(Drop)]
pub struct Consumer<A: Allocator + Drop> {
    pub(crate) fields: ConsumerFields<A>,
}

impl<A: Allocator + Drop> Model for Consumer<A> {
    ghost use Rattle.mb_mailbox.specs.Consumers.{ConsumerView, IsConsumer};
    ghost use Rattle.mb_mailbox.specs.NoteLists.{HasAllRoom};

    ghost Value = { ConsumerView };

    ghost view = { λ c. record {
      reader = c.fields.reader;
      seat = c.fields.seat;
      places = c.fields.places.items;
      notes = c.fields.notes.lists;
    } };

    ghost invariant = { λ c. IsConsumer (record {
      reader = c.fields.reader;
      seat = c.fields.seat;
      places = c.fields.places.items;
      notes = c.fields.notes.lists;
    })
        × HasAllRoom c.fields.reader.table.size.cells c.fields.notes };
}

impl<A: Allocator + Drop> Consumer<A> {
    ghost use Rattle.std.specs.Prelude.{◌≡◌};
    ghost use Rattle.mb_mailbox.specs.Imports.{IsLawfulPart, claims_at};
    ghost use Rattle.mb_mailbox.specs.Consumers.{IsConsumer};
    ghost use Rattle.mb_mailbox.specs.Moves.{HasLoads};

    /// Its number, from 0 on.
    pub fn number(&self) -> u32
        ensures { result ≡ self.now.seat.consumer }
    {
        self.fields.seat.consumer()
    }

    /// The two parts of a consumer fit each other. They determine its place on each lane and its notes there. Each part
    /// is the consumer's part of some lawful history. This computes nothing: its contract is a law of all consumers.
    pub fn keeps_its_parts(&self)
        ensures parts { IsConsumer self.now }
        ensures loads { HasLoads self.now }
        ensures claims { IsLawfulPart (claims_at self.now.seat.table) self.now.seat.consumer
            self.now.seat.part }
    {
        self.fields.reader.has_history();
        self.fields.seat.has_history();
    }
}
