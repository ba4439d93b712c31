//! Lanes on words that threads share.
ghost use Rattle.std.specs.Prelude.{◌≡◌, ◌<◌};
ghost use Rattle.mb_cells.specs.Vocabulary.{MayRead, word_of};
ghost use Rattle.mb_cells.specs.declared.access.Word.TheVariants.{Head};

use crate::compare::same;
use mb_cells::{Cursor, Finish, Look, Offer, Push};
use mb_shared_cells::{AllGiven, CellHub, LaneSeat, ReaderSeat, SharedCells};
use std::alloc::Allocator;
use std::process::Abort;
use std::thread::{Threads, join};

/// A table of this many lanes and cells, with its hub.
fn new_table<A: Allocator + Clone + Drop>(
    rt: &impl Abort,
    alloc: A,
    lanes: u32,
    cells: u32,
) -> (SharedCells<A>, CellHub)
    ensures hub { result.1.table ≡ result.0 }
    ensures size { result.0.size.lanes ≡ lanes }
{
    match SharedCells::new(alloc, lanes, cells) {
        Ok(made) => made,
        Err(_) => panic!(rt; "no table"),
    }
}

/// The hub issues the seat of the next lane.
fn new_lane<A: Allocator + Drop>(
    rt: &impl Abort,
    table: &SharedCells<A>,
    hub: &mut CellHub,
) -> LaneSeat
    requires { hub.old.table ≡ table.now }
    ensures lane { result.table ≡ table.now }
    ensures hub { hub.new.table ≡ table.now }
{
    match table.enroll_lane(hub) {
        Ok(lane) => lane,
        Err(_) => panic!(rt; "no lane"),
    }
}

/// Offers the item 8 as the first of lane 0, and links its cell. Until then a reader finds nothing.
fn link_one_item<A: Allocator + Drop>(
    rt: &impl Abort,
    table: &SharedCells<A>,
    lane: &mut LaneSeat,
    reader: &mut ReaderSeat,
)
    requires lane { lane.old.table ≡ table.now }
    requires reader { reader.old.table ≡ table.now }
    requires some { 0 < table.now.size.lanes }
    ensures lane { lane.new.table ≡ table.now }
    ensures reader { reader.new.table ≡ table.now }
{
    let told = (
        lane.lane(),
        table.look(reader, Cursor::head(0)),
        table.offer(lane, 8),
        table.push(lane),
        table.look(reader, Cursor::head(0)),
        table.push(lane),
    );
    same(
        rt,
        &told,
        &(
            0,
            Look::Nothing,
            Offer::Cell(0),
            Push::Item(0),
            Look::Nothing,
            Push::Link(0),
        ),
    );
}

/// Puts and reads the item 8, from the first look to the end mark.
fn put_one_item<A: Allocator + Drop>(
    rt: &impl Abort,
    table: &SharedCells<A>,
    lane: &mut LaneSeat,
    reader: &mut ReaderSeat,
)
    requires lane { lane.old.table ≡ table.now }
    requires reader { reader.old.table ≡ table.now }
    requires some { 0 < table.now.size.lanes }
    ensures lane { lane.new.table ≡ table.now }
    ensures reader { reader.new.table ≡ table.now }
{
    link_one_item(rt, table, lane, reader);
    let Look::Cell(k) = table.look(reader, Cursor::head(0)) else {
        panic!(rt; "no cell")
    };
    let told = (
        k,
        table.item(reader, k),
        table.finish(lane),
        table.look(reader, Cursor::past(k)),
        lane.has_ended(),
    );
    same(rt, &told, &(0, 8, Finish::Ended, Look::Ended, true));
}

/// Issues the only lane, once, and a reader. One item is put and read, and both seats are returned.
fn enroll_and_put<A: Allocator + Drop>(rt: &impl Abort, table: &SharedCells<A>, hub: &mut CellHub)
    requires hub { hub.old.table ≡ table.now }
    requires some { 0 < table.now.size.lanes }
    ensures { hub.new.table ≡ table.now }
{
    let mut lane = new_lane(rt, table, hub);
    same(rt, &table.enroll_lane(hub).err(), &Some(AllGiven));
    let mut reader = table.enroll_reader(hub);
    put_one_item(rt, table, &mut lane, &mut reader);
    table.take_lane(hub, lane);
    table.take_reader(hub, reader);
}

/// Whether the allocator serves a table of one lane and one cell, in which an item is then put and read.
pub(crate) fn is_served<A: Allocator + Clone + Drop>(rt: &impl Abort, alloc: A) -> bool {
    match SharedCells::new(alloc, 1, 1) {
        Ok((table, mut hub)) => {
            enroll_and_put(rt, &table, &mut hub);
            table.close(hub);
            true
        }
        Err(_) => false,
    }
}

/// Offers an item that gets this cell, and links it.
fn put<A: Allocator + Drop>(
    rt: &impl Abort,
    table: &SharedCells<A>,
    lane: &mut LaneSeat,
    x: u64,
    cell: u32,
)
    requires { lane.old.table ≡ table.now }
    ensures { lane.new.table ≡ table.now }
{
    let told = (table.offer(lane, x), table.push(lane), table.push(lane));
    same(
        rt,
        &told,
        &(Offer::Cell(cell), Push::Item(cell), Push::Link(cell)),
    );
}

/// Reads two items of a lane, and finds nothing after them.
fn read_two<A: Allocator + Drop>(
    rt: &impl Abort,
    table: &SharedCells<A>,
    reader: &mut ReaderSeat,
    lane: u32,
    items: (u64, u64),
)
    requires table { reader.old.table ≡ table.now }
    requires lane { lane < table.now.size.lanes }
    ensures { reader.new.table ≡ table.now }
{
    let Look::Cell(first) = table.look(reader, Cursor::head(lane)) else {
        panic!(rt; "no first cell")
    };
    let Look::Cell(second) = table.look(reader, Cursor::past(first)) else {
        panic!(rt; "no second cell")
    };
    let told = (
        table.item(reader, first),
        table.item(reader, second),
        table.look(reader, Cursor::past(second)),
    );
    same(rt, &told, &(items.0, items.1, Look::Nothing));
}

// Two lanes get the cells of one table alternately. A reader finds each lane's own items.
#[test]
fn two_lanes_draw_from_one_table(rt: HostRuntime) {
    let (table, mut hub) = new_table(&rt, rt.alloc(), 2, 4);
    let mut one = new_lane(&rt, &table, &mut hub);
    let mut other = new_lane(&rt, &table, &mut hub);
    same(&rt, &other.lane(), &1);
    put(&rt, &table, &mut one, 10, 0);
    put(&rt, &table, &mut other, 20, 1);
    put(&rt, &table, &mut one, 11, 2);
    put(&rt, &table, &mut other, 21, 3);
    let mut reader = table.enroll_reader(&mut hub);
    read_two(&rt, &table, &mut reader, 0, (10, 11));
    read_two(&rt, &table, &mut reader, 1, (20, 21));
    table.take_lane(&mut hub, one);
    table.take_lane(&mut hub, other);
    table.take_reader(&mut hub, reader);
    table.close(hub);
}

/// Puts a hundred items, from `first` on, and ends the lane. Returns how many were put, or 0 if it did not end.
fn put_hundred<A: Allocator + Drop>(
    table: &SharedCells<A>,
    mut seat: LaneSeat,
    first: u64,
) -> (LaneSeat, u64)
    requires table { seat.table ≡ table.now }
    requires small { first < 1000000 }
    ensures { result.0.table ≡ table.now }
{
    let mut done = 0;
    for i in 0..100 {
        if let Offer::Cell(_) = table.offer(&mut seat, first + i) {
            table.push(&mut seat);
            if let Push::Link(_) = table.push(&mut seat) {
                done += 1;
            }
        }
    }
    if table.finish(&mut seat) == Finish::Ended {
        (seat, done)
    } else {
        (seat, 0)
    }
}

/// How far a lane was read.
#[derive(Clone, Copy)]
struct Bookmark {
    cursor: Cursor,
    /// The item that should come next. The items of the lane are numbers that rise by one.
    next: u64,
    /// Whether the end mark was loaded.
    ended: bool,
    /// Whether an item came that should not come next.
    wrong: bool,
}

/// Reads a lane on from the bookmark, with at most `looks` looks.
fn read_on<A: Allocator + Drop>(
    table: &SharedCells<A>,
    seat: &mut ReaderSeat,
    from: Bookmark,
    looks: u64,
) -> Bookmark
    requires table { seat.old.table ≡ table.now }
    requires may { MayRead table.now.size.lanes (word_of from.cursor) seat.old.part }
    ensures table { seat.new.table ≡ table.now }
    ensures may { MayRead table.now.size.lanes (word_of result.cursor) seat.new.part }
{
    let mut at = from;
    for turn in 0..looks {
        if at.ended || at.wrong {
            return at;
        }
        let _ = turn;
        match table.look(seat, at.cursor) {
            Look::Nothing => {}
            Look::Ended => at.ended = true,
            Look::Cell(k) => {
                at.wrong = table.item(seat, k) != at.next;
                at.next = at.next.wrapping_add(1);
                at.cursor = Cursor::past(k);
            }
        }
    }
    at
}

/// Whether both lanes were read to their end, and had a hundred items each, from 1000 and from 2000 on.
fn are_whole(one: Bookmark, other: Bookmark) -> bool {
    one.ended && !one.wrong && one.next == 1100 && other.ended && !other.wrong && other.next == 2100
}

/// The bookmark of a lane that was not read yet, whose first item is `first`.
fn unread(lane: u32, first: u64) -> Bookmark
    ensures word { word_of result.cursor ≡ Head lane }
    ensures next { result.next ≡ first }
{
    Bookmark {
        cursor: Cursor::head(lane),
        next: first,
        ended: false,
        wrong: false,
    }
}

/// Two threads put a hundred items each and end their lanes. A reader then reads both lanes.
fn put_and_then_read<R: Abort + AllocGlobal + Threads + Sync>(rt: &R) {
    let (table, mut hub) = new_table(rt, rt.alloc(), 2, 200);
    let one = new_lane(rt, &table, &mut hub);
    let other = new_lane(rt, &table, &mut hub);
    let ((one, first), (other, second)) = join(
        rt,
        || -> (LaneSeat, u64)
            requires { one.table ≡ table }
            ensures { result.0.table ≡ table }
        { put_hundred(&table, one, 1000) },
        || -> (LaneSeat, u64)
            requires { other.table ≡ table }
            ensures { result.0.table ≡ table }
        { put_hundred(&table, other, 2000) },
    );
    table.take_lane(&mut hub, one);
    table.take_lane(&mut hub, other);
    let mut reader = table.enroll_reader(&mut hub);
    let one = read_on(&table, &mut reader, unread(0, 1000), 101);
    let other = read_on(&table, &mut reader, unread(1, 2000), 101);
    table.take_reader(&mut hub, reader);
    table.close(hub);
    same(
        rt,
        &(first, second, are_whole(one, other)),
        &(100, 100, true),
    );
}

#[test]
fn two_threads_put_a_hundred_each(rt: HostRuntime) {
    put_and_then_read(&rt);
}
