//! What a hub records of the producers and consumers that it took back.
use crate::notes::Notes;
use arrayvec::ArrayVec;
use mb_world::Place;
use std::alloc::Allocator;
use std::marker::Model;

/// What a hub records of a producer that was returned: its items, and whether it has ended its lane.
#[derive(Drop)]
pub(crate) struct PutList<A: Allocator + Drop> {
    pub(crate) items: Vec<u64, A>,
    pub(crate) ended: bool,
}

impl<A: Allocator + Drop> Model for PutList<A> {
    ghost use Rattle.mb_mailbox.specs.Hubs.{PutListView};

    ghost Value = { PutListView };

    ghost view = { λ l. record { items = l.items.items; ended = l.ended } };
}

/// What a hub records of a consumer that was returned: its place on each lane, and its notes there.
#[derive(Drop)]
pub(crate) struct ConsumerRecord<A: Allocator + Drop> {
    pub(crate) places: ArrayVec<Place, 16>,
    pub(crate) notes: Notes<A>,
}

impl<A: Allocator + Drop> Model for ConsumerRecord<A> {
    ghost use Rattle.mb_mailbox.specs.Hubs.{ConsumerRecordView};

    ghost Value = { ConsumerRecordView };

    ghost view = { λ l. record { places = l.places.items; notes = l.notes.lists } };
}

impl<A: Allocator + Drop> ConsumerRecord<A> {
    ghost use Rattle.std.specs.Prelude.{◌≡◌, false, slice_get};
    ghost use Rattle.std.specs.Option.{option_map_or};
    ghost use Rattle.mb_world.specs.Places.{has_begun_at};

    /// Whether the consumer holds a claim on lane `p` and the claim has made an access.
    pub(crate) fn begun(&self, p: u32) -> bool
        ensures { result ≡ option_map_or has_begun_at (slice_get self.now.places p) false }
    {
        match self.places.as_slice().get(p as usize) {
            Some(Place::At { cell: _, claim }) => claim.begun(),
            _ => false,
        }
    }
}
