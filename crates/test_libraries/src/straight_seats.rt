//! Claims that go straight on shared words, and the rest of each by single steps.
ghost use Rattle.std.specs.Prelude.{◌≡◌, ◌<◌, []};
ghost use Rattle.mb_shared_claims.specs.Vocabulary.{name_of};

use crate::claims::one_pair;
use crate::compare::same_at;
use crate::shared_claims::{new_seat, new_table, step_on};
use mb_claim::{Claim, Stage};
use mb_shared_claims::{ClaimSeat, SharedClaims};
use std::alloc::Allocator;
use std::process::Abort;
use test_support::Zeros;

/// Makes a claim of a seat that has made no access on cell 0, with random words that are all 0: straight, with the
/// first budget, and then by single steps, with the second. Returns how many accesses it made in either way, and how
/// far the claim has come.
fn straight_and_on<A: Allocator + Drop>(
    table: &SharedClaims<A>,
    seat: &mut ClaimSeat,
    budgets: (u64, u32),
) -> (u64, u32, Stage)
    requires table { (seat.old.table ≡ name_of table.now) × (seat.old.part ≡ []) }
    requires cell { 0 < table.now.cells }
{
    let consumer = seat.consumer();
    let mut rng = Zeros { given: 0 };
    let end = table.straight(seat, 0, &mut rng, budgets.0);
    let straight = budgets.0.wrapping_sub(end.left);
    if end.stage != Stage::Going {
        return (straight, 0, end.stage);
    }
    let mut claim = Claim::standing(table.layout(), consumer, end.object, end.value);
    let made = step_on(table, seat, &mut claim, 0, budgets.1);
    (straight, made, claim.stage())
}

// Straight accesses go on to an object while the budget has 14 left here: 10, and 2 for each of two registers. If
// consumer 0 comes first, it wins in 3 accesses to the conciliator and 4 to the ratifier, and consumer 1 loses to it
// in 1 and 3.
#[test]
fn straight_claims_and_their_rests(rt: HostRuntime) {
    for (first, second, ends) in &[
        (
            (17, 0),
            (15, 0),
            ((7, 0, Stage::Won), (4, 0, Stage::Lost(0))),
        ),
        (
            (16, 4),
            (14, 3),
            ((3, 4, Stage::Won), (1, 3, Stage::Lost(0))),
        ),
    ] {
        let (table, mut hub) = new_table(&rt, rt.alloc(), one_pair(&rt, 2), 1);
        let mut a = new_seat(&rt, &table, &mut hub);
        let mut b = new_seat(&rt, &table, &mut hub);
        let told = (
            straight_and_on(&table, &mut a, *first),
            straight_and_on(&table, &mut b, *second),
        );
        same_at(&rt, &told, ends, &(first, second));
    }
}
