//! Calls of a pool of linked cells: worked examples.

use crate::compare::same;
use crate::pools::PoolCall::{
    Finish as Ends, Item, Look as Looks, Offer as Offers, Push as Pushes,
};
use crate::pools::{Calls, PoolCall};
use mb_cells::{Cursor, Finish, Lane, Look, Offer, Push, Word};
use std::alloc::{Allocator, Global};
use std::process::Abort;

/// The calls that put and read one item of an only lane, from the first look to the end mark.
static ONE_ITEM: [PoolCall; 9] = [
    Looks(Cursor::Head(0), Look::Nothing),
    Offers(0, 8, Offer::Cell(0)),
    Pushes(0, Push::Item(0)),
    Looks(Cursor::Head(0), Look::Nothing),
    Pushes(0, Push::Link(0)),
    Looks(Cursor::Head(0), Look::Cell(0)),
    Item(0, 8),
    Ends(0, Finish::Ended),
    Looks(Cursor::Past(0), Look::Ended),
];

/// Whether the allocator serves a pool of one lane and one cell, of which the calls `ONE_ITEM` are then made.
pub(crate) fn is_served<A: Allocator + Clone + Drop>(rt: &impl Abort, alloc: A) -> bool {
    match Calls::new(alloc, 1, 1) {
        Ok(mut pool) => {
            pool.make(rt, &ONE_ITEM);
            true
        }
        Err(_) => false,
    }
}

/// A new pool with `lanes` lanes and `cells` cells.
fn new_pool<R: Abort + AllocGlobal>(rt: &R, lanes: u32, cells: u32) -> Calls<Global> {
    Calls::new(rt.alloc(), lanes, cells).expect(rt, "no pool")
}

/// The calls of lane `p` by which item `x` is offered, gets this cell, and is put.
fn put(p: u32, x: u64, cell: u32) -> [PoolCall; 3] {
    [
        Offers(p, x, Offer::Cell(cell)),
        Pushes(p, Push::Item(cell)),
        Pushes(p, Push::Link(cell)),
    ]
}

// Two lanes get the cells of one pool alternately. Looks find each lane's own cells.
#[test]
fn two_lanes_draw_from_one_pool(rt: HostRuntime) {
    let mut pool = new_pool(&rt, 2, 4);
    for (p, x, cell) in &[(0, 10, 0), (1, 20, 1), (0, 11, 2), (1, 21, 3)] {
        pool.make(&rt, &put(*p, *x, *cell));
    }
    pool.make(
        &rt,
        &[
            Looks(Cursor::Head(0), Look::Cell(0)),
            Looks(Cursor::Past(0), Look::Cell(2)),
            Looks(Cursor::Past(2), Look::Nothing),
            Looks(Cursor::Head(1), Look::Cell(1)),
            Looks(Cursor::Past(1), Look::Cell(3)),
            Looks(Cursor::Past(3), Look::Nothing),
            Item(3, 21),
        ],
    );
}

// A producer's place, from its first offer to the end mark.
#[test]
fn a_lane_names_its_accesses(rt: HostRuntime) {
    let mut lane = Lane::new();
    let refusals = (lane.offer_refusal(), lane.finish_refusal());
    let offered = (lane.offered(1, 8, 0), lane.next_push(0), lane.pushed());
    let stored = (lane.next_push(0), lane.pushed(), lane.next_link(0));
    lane.finished();
    same(
        &rt,
        &(refusals, lane.offer_refusal()),
        &((None, None), Some(Offer::Closed)),
    );
    let item = (Offer::Cell(0), Some((Word::Item(0), 8)), Push::Item(0));
    let link = (Some((Word::Head(0), 1)), Push::Link(0), Word::Link(0));
    same(&rt, &(offered, stored), &(item, link));
}

// Lane 1 finds no cell. It returns `Full` each time, and may still end. Lane 0 may not, since its item is not put.
#[test]
fn full_comes_with_one_access(rt: HostRuntime) {
    new_pool(&rt, 2, 1).make(
        &rt,
        &[
            Offers(0, 1, Offer::Cell(0)),
            Offers(1, 2, Offer::Full),
            Offers(1, 3, Offer::Full),
            Ends(1, Finish::Ended),
            Ends(0, Finish::Busy),
        ],
    );
}
