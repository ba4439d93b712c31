//! Pools that are called by lists of calls, so that a test has no premise to prove.

use crate::compare::same_at;
use mb_cells::{Cursor, Finish, Look, NoMemory, Offer, Pool, Push};
use std::alloc::Allocator;
use std::marker::Model;
use std::process::Abort;

/// A call of a pool: its lane, cell or cursor, and the result that it should have.
#[derive(Clone, Copy)]
pub(crate) enum PoolCall {
    /// This item is offered on a lane.
    Offer(u32, u64, Offer),
    Push(u32, Push),
    Finish(u32, Finish),
    Look(Cursor, Look),
    /// The item of this cell is loaded.
    Item(u32, u64),
}

/// A pool that knows how many lanes and cells it has.
#[derive(Drop)]
pub(crate) struct Calls<A: Allocator + Drop> {
    pool: Pool<A>,
    lanes: u32,
    cells: u32,
}

impl<A: Allocator + Drop> Model for Calls<A> {
    ghost use Rattle.std.specs.Prelude.{◌≡◌};
    ghost use Rattle.mb_cells.specs.Vocabulary.{cell_count, lane_count};

    ghost Value = { Unit {0} };

    ghost view = { λ _. tt };

    ghost invariant = { λ c. (lane_count c.pool ≡ c.lanes) × (cell_count c.pool ≡ c.cells) };
}

impl<A: Allocator + Clone + Drop> Calls<A> {
    /// A new pool with `lanes` lanes and `cells` cells.
    pub(crate) fn new(alloc: A, lanes: u32, cells: u32) -> Result<Calls<A>, NoMemory> {
        let pool = Pool::new(alloc, lanes, cells)?;
        Ok(Calls { pool, lanes, cells })
    }
}

impl<A: Allocator + Drop> Calls<A> {
    /// Makes these calls, and checks the result of each.
    pub(crate) fn make(&mut self, rt: &impl Abort, calls: &[PoolCall]) {
        for (place, call) in calls.iter().enumerate() {
            same_at(rt, &self.answers(*call), &true, &place);
        }
    }

    /// Makes this call, and returns whether it has the result that it should have.
    fn answers(&mut self, call: PoolCall) -> bool {
        match call {
            PoolCall::Offer(p, x, answer) => self.offer(p, x, answer),
            PoolCall::Push(p, answer) => self.push(p, answer),
            PoolCall::Finish(p, answer) => self.finish(p, answer),
            PoolCall::Look(cursor, answer) => self.look(cursor, answer),
            PoolCall::Item(k, x) => self.item(k, x),
        }
    }

    // Each of these functions makes its call, and returns whether the result is the last argument. It returns `false`,
    // and makes no call, if its lane, cell or cursor is not one of the pool.
    fn offer(&mut self, p: u32, x: u64, answer: Offer) -> bool {
        p < self.lanes && self.pool.offer(p, x) == answer
    }

    fn push(&mut self, p: u32, answer: Push) -> bool {
        p < self.lanes && self.pool.push(p) == answer
    }

    fn finish(&mut self, p: u32, answer: Finish) -> bool {
        p < self.lanes && self.pool.finish(p) == answer
    }

    fn look(&self, cursor: Cursor, answer: Look) -> bool {
        let is_within = match cursor {
            Cursor::Head(p) => p < self.lanes,
            Cursor::Past(k) => k < self.cells,
        };
        is_within && self.pool.look(cursor) == answer
    }

    fn item(&self, k: u32, x: u64) -> bool {
        k < self.cells && self.pool.item(k) == x
    }
}
