//! The rule of a table, and what its steps change and prove.
ghost use Rattle.std.specs.Prelude.{ℕ};
ghost use Rattle.mb_claim.specs.declared.access.ClaimAccess.{ClaimAccess};

use crate::view::{TableSize, View};
use atomic_table::{Join, Play, Split, TableRule};
use std::marker::{Brand, PhantomData};

/// The rule: words and views together are a state of the claims.
pub struct ClaimsRule;

impl TableRule<(), View, TableSize> for ClaimsRule {
    ghost use Rattle.std.specs.Prelude.{[]};
    ghost use Rattle.mb_shared_claims.specs.declared.view.View.TheVariants.{Issuing};
    ghost use Rattle.mb_shared_claims.specs.Rule.{IsClaimsState};

    ghost holds = { λ size s. IsClaimsState size s.words s.views };

    ghost first = { λ size. Issuing size [] };
}

/// The access that a step makes, by the value that it finds. The proof of a caller picks it.
pub trait AccessSpec {
    ghost access: { ℕ → ClaimAccess };
}

// A call names `Brand`, and the caller's `Invariants.antt` picks the access. The member here is not used.
impl AccessSpec for Brand {
    ghost use Rattle.mb_deciding.specs.declared.access.Act.TheVariants.{Load};
    ghost use Rattle.mb_deciding.specs.declared.access.Reg.TheVariants.{Value};

    ghost access = { λ found. record {
      consumer = 0;
      cell = 0;
      step = record { object = 0; turn = record { act = Load Value found; word = 0 } };
    } };
}

/// A load, a store or an exchange of a claim: one access more in the part of the seat that makes it.
pub struct MakeAccess<W> {
    of: PhantomData<W>,
}

impl<W: AccessSpec> Play<(), View> for MakeAccess<W> {
    ghost use Rattle.mb_shared_claims.specs.ViewSteps.{makes};

    ghost then = { λ s me found now. makes (W.access found) me now };
}

/// The fetch-add on the roster: the hub draws the next number.
pub struct Draws;

impl Play<(), View> for Draws {
    ghost use Rattle.mb_shared_claims.specs.ViewSteps.{draws};

    ghost then = { λ s me found now. draws found me now };
}

/// The split of the hub's view: the number that was drawn is issued, with a seat of its own.
pub struct Issues;

impl Split<View> for Issues {
    ghost use Rattle.mb_shared_claims.specs.ViewSteps.{issued, newcomer};

    ghost left = { issued };

    ghost right = { newcomer };
}

/// The join of a seat's view to the hub's: the hub takes that seat's part, and the seat has none any more.
pub struct TakesIn;

impl Join<View> for TakesIn {
    ghost use Rattle.mb_shared_claims.specs.declared.view.View.TheVariants.{Spent};
    ghost use Rattle.mb_shared_claims.specs.ViewSteps.{took_in};

    ghost both = { took_in };

    ghost spent = { Spent };
}

/// The load after the join: the part goes to its place in the roll. A join proves nothing, so this load is needed to
/// prove that the number was out.
pub struct Settles;

impl Play<(), View> for Settles {
    ghost use Rattle.mb_shared_claims.specs.ViewSteps.{settles};

    ghost then = { λ s me found now. settles me now };
}
