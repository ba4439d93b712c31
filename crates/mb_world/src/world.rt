//! The world: all words under one caller.
ghost use Rattle.std.specs.Prelude.{◌*◌, IfOk};
ghost use Rattle.mb_world.specs.Places.{AreAtHeads};

mod events;
mod reports;
mod states;
mod step_event;

use crate::place::Place;
use crate::report::Note;
use crate::setup::Setup;
use crate::steps::history_extends;
use mb_cells::{Cursor, NoMemory, Pool};
use mb_claim::ClaimWords;
use mb_claim::laws::{layouts_are_sound, prefixes_have_one_stage};
use mb_deciding::laws::objects_keep_their_promises;
use std::alloc::Allocator;
use std::marker::Model;

/// Lanes and claims together, under one caller. Each event is one access, or none. A world keeps no history. Its
/// contracts speak of the histories that leave it in its state.
#[derive(Drop)]
pub struct World<A: Allocator + Drop> {
    setup: Setup,
    pool: Pool<A>,
    words: ClaimWords<A>,
    /// Where each consumer stands on each lane: consumer by consumer, and for each consumer lane by lane.
    places: Vec<Place, A>,
    /// The note of each consumer on each cell, if it has one: consumer by consumer, and for each consumer cell by cell.
    notes: Vec<Option<Note>, A>,
}

// Clauses see the state of a world. The invariant is that some lawful history leaves it.
impl<A: Allocator + Drop> Model for World<A> {
    ghost use Rattle.mb_world.specs.WorldState.{WorldIsSound, WorldState};

    ghost Value = { WorldState };

    ghost view = { λ w. record {
      setup = w.setup;
      pool = w.pool;
      words = w.words;
      places = w.places.items;
      notes = w.notes.items;
    } };

    ghost invariant = { λ w. WorldIsSound (record {
      setup = w.setup;
      pool = w.pool;
      words = w.words;
      places = w.places.items;
      notes = w.notes.items;
    }) };
}

impl<A: Allocator + Clone + Drop> World<A> {
    ghost use Rattle.std.specs.Prelude.{◌≡◌, [], IfOk};
    ghost use Rattle.mb_world.specs.WorldState.{IsWorldAfter};

    /// A world of this setup before the first event. All memory that its events will ever need is reserved here. The
    /// error is [`NoMemory`] if the allocator refuses a part of it.
    pub fn new(alloc: A, setup: Setup) -> Result<World<A>, NoMemory>
        ensures setup { IfOk result (λ w. w.setup ≡ setup) }
        ensures empty { IfOk result (λ w. IsWorldAfter [] w) }
    {
        layouts_are_sound();
        objects_keep_their_promises();
        prefixes_have_one_stage();
        history_extends();
        let layout = setup.layout();
        let lanes = setup.producers() as u32;
        let cells = setup.cells() as u32;
        let consumers = layout.consumers();
        let pool = Pool::new(alloc.clone()?, lanes, cells)?;
        let words = ClaimWords::new(alloc.clone()?, &layout, cells)?;
        let places = before_heads(alloc.clone()?, consumers, lanes)?;
        let notes = vec![in alloc; None; consumers as usize * cells as usize]?;
        Ok(World {
            setup,
            pool,
            words,
            places,
            notes,
        })
    }
}

impl<A: Allocator + Drop> World<A> {
    ghost use Rattle.mb_world.specs.World.{WorldHistory};
    ghost use Rattle.mb_world.specs.WorldState.{IsWorldAfter};

    /// A law of all worlds: some lawful history leaves the world. So what other calls promise of each such history
    /// holds of at least one. This call computes nothing.
    pub fn has_history(&self)
        ensures { (h : WorldHistory) × IsWorldAfter h self.now }
    {
        // The prover knows the invariant only after a field is named.
        let _ = &self.setup;
    }
}

/// The places of this many consumers that have done nothing, consumer by consumer: each is before the head of its lane.
fn before_heads<A: Allocator + Drop>(
    alloc: A,
    consumers: u32,
    lanes: u32,
) -> Result<Vec<Place, A>, NoMemory>
    ensures { IfOk result (λ places. AreAtHeads lanes (consumers * lanes) places.items) }
{
    let mut places = Vec::with_capacity(alloc, consumers as usize * lanes as usize)?;
    for c in 0..consumers {
        for p in 0..lanes {
            places.push(Place::Before(Cursor::Head(p)))?;
        }
    }
    Ok(places)
}
