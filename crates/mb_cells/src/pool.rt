//! The pool of cells, under one caller.
ghost use Rattle.std.specs.Prelude.{◌≡◌, ℕ, ◌<◌, ◌⊎◌, [], IfOk};

use crate::access::{END, Word};
use crate::answer::{Finish, Look, NoMemory, Offer, Push};
use crate::cursor::Cursor;
use crate::lane::Lane;
use crate::words::PoolMemory;
use std::alloc::Allocator;
use std::marker::Model;

/// Cells that producers link into lanes. One caller makes all calls, so each of them is one access, or none. The law
/// [`calls_put_items`](crate::laws::calls_put_items) says what any list of calls does.
#[derive(Drop)]
pub struct Pool<A: Allocator + Drop> {
    words: PoolMemory<A>,
    lanes: Vec<Lane, A>,
}

impl<A: Allocator + Drop> Model for Pool<A> {
    ghost use Rattle.mb_cells.specs.{PoolIsSound, PoolState};

    ghost Value = { PoolState };

    ghost view = { λ a. record { words = a.words; lanes = a.lanes.items } };

    ghost invariant = { λ a. PoolIsSound (record { words = a.words; lanes = a.lanes.items }) };
}

impl<A: Allocator + Clone + Drop> Pool<A> {
    ghost use Rattle.mb_cells.specs.{IsAfter, cell_count, lane_count};

    /// A pool of empty lanes. No producer has a cell of it yet. The call takes all memory that the pool will ever
    /// need. The error is [`NoMemory`] if the allocator refuses a part of that.
    pub fn new(alloc: A, lanes: u32, cells: u32) -> Result<Pool<A>, NoMemory>
        ensures lanes { IfOk result (λ s. lane_count s ≡ lanes) }
        ensures cells { IfOk result (λ s. cell_count s ≡ cells) }
        ensures empty { IfOk result (λ s. IsAfter [] s) }
    {
        let heads = vec![in alloc.clone()?; 0u64; lanes as usize]?;
        let links = vec![in alloc.clone()?; 0u64; cells as usize]?;
        let items = vec![in alloc.clone()?; 0u64; cells as usize]?;
        let lanes = vec![in alloc; Lane::new(); lanes as usize]?;
        Ok(Pool {
            words: PoolMemory {
                counter: 0,
                heads,
                links,
                items,
            },
            lanes,
        })
    }
}

impl<A: Allocator + Drop> Pool<A> {
    ghost use Rattle.mb_cells.specs.{FinishKeeps, FinishMeets, History, IsAfter, IsShownAlike, PoolIsSound, IsWithin};
    ghost use Rattle.mb_cells.specs.{Item, OfferKeeps, OfferMeets, PushMeets, SameSize, cell_count, item_in};
    ghost use Rattle.mb_cells.specs.{lane_count, look_after, look_in, value_in};
    ghost use Rattle.mb_cells.specs.declared.answer.Offer.TheVariants as offer;
    ghost use Rattle.mb_cells.specs.declared.answer.Push.TheVariants as push;
    ghost use Rattle.mb_cells.specs.declared.answer.Finish.TheVariants as finish;
    ghost use Rattle.mb_cells.specs.declared.answer.Look.TheVariants as look;

    /// A law of all pools: some lawful history leaves the pool. It computes nothing.
    pub fn has_history(&self)
        ensures sound { PoolIsSound self.now }
        ensures history { (h : History) × IsAfter h self.now }
    {
        // The prover knows the invariant only after a field is named.
        let _ = &self.words;
    }

    /// Takes the next cell for item `x` of lane `p`, by one fetch-add of the counter. It needs a lane of the pool.
    /// [`calls_put_items`](crate::laws::calls_put_items) says which cell that is after the calls before.
    ///
    /// It is refused by `Closed` after the end mark, else by `Busy` while an item waits for its link or `Full` after a
    /// fetch-add that found no cell. A refused call makes no access and changes nothing. But the first `Full` makes its
    /// fetch-add, which raises the counter and changes nothing that [`Pool::look`] and [`Pool::item`] show.
    pub fn offer(&mut self, p: u32, x: u64) -> Offer
        requires { p < lane_count self.old }
        ensures meets { OfferMeets self.old p x result self.new }
        ensures kept { OfferKeeps self.old p self.new }
        ensures idle { (result ≡ offer.Busy) ⊎ (result ≡ offer.Closed) → self.new ≡ self.old }
        ensures shown { IsShownAlike self.old self.new }
        ensures size { SameSize self.old self.new }
    {
        let lane = &mut self.lanes[p as usize];
        if let Some(refusal) = lane.offer_refusal() {
            return refusal;
        }
        let cells = self.words.cells();
        let found = self.words.load(Word::Counter);
        self.words.store(Word::Counter, found + 1);
        lane.offered(cells, x, found)
    }

    /// Stores the item that was offered on lane `p`, and at the next call the link to its cell: one store. It needs a
    /// lane of the pool. It is refused by `Idle` if no item has a cell not linked yet, and then makes no access.
    /// [`calls_put_items`](crate::laws::calls_put_items) says which items are put.
    pub fn push(&mut self, p: u32) -> Push
        requires { p < lane_count self.old }
        ensures meets { PushMeets self.old p result self.new }
        ensures idle { result ≡ push.Idle → self.new ≡ self.old }
        ensures size { SameSize self.old self.new }
    {
        let lane = &mut self.lanes[p as usize];
        let Some((word, value)) = lane.next_push(p) else {
            return Push::Idle;
        };
        self.words.store(word, value);
        lane.pushed()
    }

    /// Stores the end mark of lane `p`: one store. It needs a lane of the pool. It is refused by `Closed` after the end
    /// mark, and by `Busy` while an item waits for its link, and then makes no access. Readers then find the end mark
    /// after all the lane's cells, as [`calls_put_items`](crate::laws::calls_put_items) says.
    pub fn finish(&mut self, p: u32) -> Finish
        requires { p < lane_count self.old }
        ensures meets { FinishMeets self.old p result self.new }
        ensures kept { FinishKeeps self.old p self.new }
        ensures idle { (result ≡ finish.Busy) ⊎ (result ≡ finish.Closed) → self.new ≡ self.old }
        ensures size { SameSize self.old self.new }
    {
        let lane = &mut self.lanes[p as usize];
        if let Some(refusal) = lane.finish_refusal() {
            return refusal;
        }
        self.words.store(lane.next_link(p), END);
        lane.finished();
        Finish::Ended
    }

    /// What comes after the cursor, by one load of the head or link there. It needs a cursor at a lane or past a cell
    /// of the pool. From a lane's head on, looks find what the calls put, in their order:
    /// [`calls_put_items`](crate::laws::calls_put_items).
    pub fn look(&self, cursor: Cursor) -> Look
        requires { IsWithin cursor self.now }
        ensures shown { result ≡ look_in cursor self.now }
        ensures after { (h : History) → IsAfter h self.now → result ≡ look_after cursor h }

        // The cell that is found is one of the pool's: its item may be read, and a look past it is allowed.
        ensures within { (k : ℕ) → result ≡ look.Cell k → k < cell_count self.now }
    {
        let link = self.words.load(cursor.word());
        if link == 0 {
            Look::Nothing
        } else if link == END {
            Look::Ended
        } else {
            Look::Cell((link - 1) as u32)
        }
    }

    /// The item of cell `k`, by one load. It needs a cell of the pool. If the cell was linked, that is the item put, as
    /// [`calls_put_items`](crate::laws::calls_put_items) says.
    pub fn item(&self, k: u32) -> u64
        requires { k < cell_count self.now }
        ensures shown { result ≡ item_in k self.now }
        ensures after { (h : History) → IsAfter h self.now → result ≡ value_in (Item k) h }
    {
        self.words.load(Word::Item(k))
    }
}
