//! Claims on words that threads share: the worked examples, and threads that step their claims at the same time.
ghost use Rattle.std.specs.Prelude.{◌≡◌, ◌≢◌, ◌<◌, ◌≤◌, ◌++◌, ◌∷◌, ℕ, [], None, length};
ghost use Rattle.mb_claim.specs.declared.access.Stage.TheVariants.{Going};
ghost use Rattle.mb_claim.specs.Vocabulary.{IsClaimIn, claim_stage, consumer_of, part_on};
ghost use Rattle.mb_claim.specs.declared.layout.TheConstants.{MAX_LARGE_CELLS};
ghost use Rattle.mb_shared_claims.specs.Vocabulary.{name_of};

use crate::claims::one_pair;
use crate::compare::{same, same_at};
use mb_claim::steps::{accesses_lengthen_one_part, claims_make_steps};
use mb_claim::{Claim, ClaimOp, Layout, Stage};
use mb_deciding::{Op, Reg};
use mb_shared_claims::{AllGiven, ClaimHub, ClaimSeat, SharedClaims};
use std::alloc::Allocator;
use std::process::Abort;
use std::thread::{Threads, join};

/// How many cells two threads claim.
const CELLS: u32 = 100;

/// A table of claims on this many cells of this layout, with its hub.
pub(crate) fn new_table<A: Allocator + Clone + Drop>(
    rt: &impl Abort,
    alloc: A,
    layout: Layout,
    cells: u32,
) -> (SharedClaims<A>, ClaimHub)
    requires { cells ≤ MAX_LARGE_CELLS }
    ensures layout { result.0.layout ≡ layout }
    ensures cells { result.0.cells ≡ cells }
    ensures hub { result.1 ≡ record { table = name_of result.0; roll = [] } }
{
    match SharedClaims::new(alloc, layout, cells) {
        Ok(made) => made,
        Err(_) => panic!(rt; "no table"),
    }
}

/// The hub issues the next seat.
pub(crate) fn new_seat<A: Allocator + Drop>(
    rt: &impl Abort,
    table: &SharedClaims<A>,
    hub: &mut ClaimHub,
) -> ClaimSeat
    requires { hub.old.table ≡ name_of table.now }
    ensures seat { result ≡ record {
      table = hub.old.table;
      consumer = length hub.old.roll;
      part = [];
    } }
    ensures hub { hub.new ≡ record {
      table = hub.old.table;
      roll = hub.old.roll ++ None ∷ [];
    } }
{
    match table.enroll(hub) {
        Ok(seat) => seat,
        Err(_) => panic!(rt; "no seat"),
    }
}

/// Makes one step of a claim with the random word 0.
fn step_once<A: Allocator + Drop>(
    table: &SharedClaims<A>,
    seat: &mut ClaimSeat,
    claim: &mut Claim,
    cell: u32,
)
    requires table { seat.old.table ≡ name_of table.now }
    requires cell { cell < table.now.cells }
    requires consumer { consumer_of claim.old ≡ seat.old.consumer }
    requires standing { IsClaimIn table.now.layout claim.old
        (part_on seat.old.consumer cell seat.old.part) }
    requires going { claim_stage claim.old ≡ Going }
    ensures table { seat.new.table ≡ seat.old.table }
    ensures same { seat.new.consumer ≡ seat.old.consumer }
    ensures consumer { consumer_of claim.new ≡ seat.new.consumer }
    ensures standing { IsClaimIn table.now.layout claim.new
        (part_on seat.new.consumer cell seat.new.part) }
    ensures others { (k : ℕ) → k ≢ cell
        → part_on seat.new.consumer k seat.new.part ≡ part_on seat.old.consumer k seat.old.part }
{
    accesses_lengthen_one_part();
    table.step(seat, claim, cell, 0);
}

/// Makes `most` steps of a claim with the random word 0, or fewer if it ends before. Returns how many.
pub(crate) fn step_on<A: Allocator + Drop>(
    table: &SharedClaims<A>,
    seat: &mut ClaimSeat,
    claim: &mut Claim,
    cell: u32,
    most: u32,
) -> u32
    requires table { seat.old.table ≡ name_of table.now }
    requires cell { cell < table.now.cells }
    requires consumer { consumer_of claim.old ≡ seat.old.consumer }
    requires standing { IsClaimIn table.now.layout claim.old
        (part_on seat.old.consumer cell seat.old.part) }
    ensures table { seat.new.table ≡ seat.old.table }
    ensures same { seat.new.consumer ≡ seat.old.consumer }
    ensures consumer { consumer_of claim.new ≡ seat.new.consumer }
    ensures standing { IsClaimIn table.now.layout claim.new
        (part_on seat.new.consumer cell seat.new.part) }
    ensures others { (k : ℕ) → k ≢ cell
        → part_on seat.new.consumer k seat.new.part ≡ part_on seat.old.consumer k seat.old.part }
{
    let mut made = 0u32;
    for turn in 0..most {
        if claim.stage() != Stage::Going {
            break;
        }
        step_once(table, seat, claim, cell);
        made = made.wrapping_add(1);
    }
    made
}

/// Makes a claim of a seat on a cell that its consumer has not claimed, to its end or for a thousand steps.
fn claim_to_its_end<A: Allocator + Drop>(
    table: &SharedClaims<A>,
    seat: &mut ClaimSeat,
    cell: u32,
) -> Stage
    requires table { seat.old.table ≡ name_of table.now }
    requires cell { cell < table.now.cells }
    requires fresh { part_on seat.old.consumer cell seat.old.part ≡ [] }
    ensures table { seat.new.table ≡ seat.old.table }
    ensures same { seat.new.consumer ≡ seat.old.consumer }
    ensures others { (k : ℕ) → k ≢ cell
        → part_on seat.new.consumer k seat.new.part ≡ part_on seat.old.consumer k seat.old.part }
{
    let mut claim = Claim::new(table.layout(), seat.consumer());
    step_on(table, seat, &mut claim, cell, 1000);
    claim.stage()
}

/// Makes claims of a seat that has made no access, on each of `CELLS` cells, one after the other.
fn claim_each<A: Allocator + Drop>(
    table: &SharedClaims<A>,
    mut seat: ClaimSeat,
) -> (ClaimSeat, [Stage; CELLS as usize])
    requires table { seat.table ≡ name_of table.now }
    requires cells { table.now.cells ≡ CELLS }
    requires fresh { seat.part ≡ [] }
    ensures table { result.0.table ≡ seat.table }
{
    let mut stages = [Stage::Going; CELLS as usize];
    for cell in 0..CELLS {
        stages[cell as usize] = claim_to_its_end(table, &mut seat, cell);
    }
    (seat, stages)
}

/// Lets two threads claim each of `CELLS` cells. Returns how each thread's claims ended.
fn claimed_by_two<R: Abort + AllocGlobal + Threads + Sync>(
    rt: &R,
) -> ([Stage; CELLS as usize], [Stage; CELLS as usize]) {
    let (table, mut hub) = new_table(rt, rt.alloc(), one_pair(rt, 2), CELLS);
    let first = new_seat(rt, &table, &mut hub);
    let second = new_seat(rt, &table, &mut hub);
    let (front, back) = join(
        rt,
        || -> (ClaimSeat, [Stage; CELLS as usize])
            requires { (first.table ≡ name_of table) × (table.cells ≡ CELLS) × (first.part ≡ []) }
            ensures { result.0.table ≡ first.table }
        { claim_each(&table, first) },
        || -> (ClaimSeat, [Stage; CELLS as usize])
            requires { (second.table ≡ name_of table) × (table.cells ≡ CELLS) × (second.part ≡ []) }
            ensures { result.0.table ≡ second.table }
        { claim_each(&table, second) },
    );
    let (first, mine) = front;
    let (second, theirs) = back;
    table.take_in(&mut hub, first);
    table.take_in(&mut hub, second);
    table.close(hub);
    (mine, theirs)
}

/// The first claim on cell 0 wins in seven steps, and the second loses to it in four.
fn win_and_lose<A: Allocator + Drop>(
    rt: &impl Abort,
    table: &SharedClaims<A>,
    a: &mut ClaimSeat,
    b: &mut ClaimSeat,
)
    requires first { (a.old.table ≡ name_of table.now) × (a.old.part ≡ []) }
    requires second { (b.old.table ≡ name_of table.now) × (b.old.part ≡ []) }
    requires cell { 0 < table.now.cells }
    ensures first { a.new.table ≡ a.old.table }
    ensures second { b.new.table ≡ b.old.table }
{
    let mut first = Claim::new(table.layout(), a.consumer());
    let mut second = Claim::new(table.layout(), b.consumer());
    let wins = (step_on(table, a, &mut first, 0, 7), first.stage());
    let loses = (step_on(table, b, &mut second, 0, 4), second.stage());
    same(rt, &(wins, loses), &((7, Stage::Won), (4, Stage::Lost(0))));
}

/// Whether the allocator serves a table of one cell for two consumers. Then both numbers are issued, the first consumer
/// wins the cell and the second loses it.
pub(crate) fn one_wins<A: Allocator + Clone + Drop>(rt: &impl Abort, alloc: A) -> bool {
    let layout = one_pair(rt, 2);
    let (table, mut hub) = match SharedClaims::new(alloc, layout, 1) {
        Ok(made) => made,
        Err(_) => return false,
    };
    let mut a = new_seat(rt, &table, &mut hub);
    let mut b = new_seat(rt, &table, &mut hub);
    let is_refused = matches!(table.enroll(&mut hub), Err(AllGiven));
    let numbers = (a.consumer(), b.consumer());
    same(
        rt,
        &(is_refused, numbers, (hub.given(), hub.out())),
        &(true, (0, 1), (2, 2)),
    );
    win_and_lose(rt, &table, &mut a, &mut b);
    table.take_in(&mut hub, b);
    table.take_in(&mut hub, a);
    same(rt, &(hub.given(), hub.out()), &(2, 0));
    table.close(hub);
    true
}

/// Makes `steps` steps of a claim on cell 0. Checks that it goes on, and announces consumer 0 in the ratifier next.
fn comes_to_announce<A: Allocator + Drop>(
    rt: &impl Abort,
    table: &SharedClaims<A>,
    seat: &mut ClaimSeat,
    steps: u32,
)
    requires table { (seat.old.table ≡ name_of table.now) × (seat.old.part ≡ []) }
    requires cell { 0 < table.now.cells }
    ensures { seat.new.table ≡ seat.old.table }
{
    claims_make_steps();
    let mut claim = Claim::new(table.layout(), seat.consumer());
    step_on(table, seat, &mut claim, 0, steps);
    same(rt, &claim.stage(), &Stage::Going);
    let announcing = ClaimOp {
        object: 1,
        op: Op::Store(Reg::Quorum(0), 1),
    };
    same(rt, &claim.next(table.layout()), &announcing);
}

// Consumer 0 stops before it announces itself. Consumer 1 begins then, and comes to announce consumer 0, too. The hub
// takes both seats back with their claims unfinished.
#[test]
fn another_goes_on_where_one_stopped(rt: HostRuntime) {
    let (table, mut hub) = new_table(&rt, rt.alloc(), one_pair(&rt, 2), 1);
    let mut a = new_seat(&rt, &table, &mut hub);
    let mut b = new_seat(&rt, &table, &mut hub);
    assert!(rt; matches!(table.enroll(&mut hub), Err(AllGiven)));
    comes_to_announce(&rt, &table, &mut a, 3);
    comes_to_announce(&rt, &table, &mut b, 1);
    table.take_in(&mut hub, a);
    table.take_in(&mut hub, b);
    same(&rt, &hub.out(), &0);
    table.close(hub);
}

/// Whether all claims on a cell have ended, and name one winner, if any. A loser names another consumer.
fn name_one_winner(ends: &[Stage]) -> bool {
    let mut winner = None;
    for (consumer, end) in ends.iter().enumerate() {
        let named = match *end {
            Stage::Going => return false,
            Stage::Won => consumer,
            Stage::Lost(other) if other as usize == consumer => return false,
            Stage::Lost(other) => other as usize,
            Stage::Undecided => continue,
        };
        if winner.is_some() && winner != Some(named) {
            return false;
        }
        winner = Some(named);
    }
    true
}

#[test]
fn two_threads_claim_a_hundred_cells(rt: HostRuntime) {
    let (mine, theirs) = claimed_by_two(&rt);
    for cell in 0..CELLS as usize {
        let is_one = name_one_winner(&[mine[cell], theirs[cell]]);
        same_at(&rt, &is_one, &true, &cell);
    }
}
