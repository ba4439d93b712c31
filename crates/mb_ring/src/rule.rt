//! The rule of a ring, and what its steps tell.
use crate::lists::AnyList;
use crate::view::View;
use atomic_table::{Join, Play, Split, TableRule};
use std::marker::{Brand, PhantomData};

/// Words, slots and views agree with one history (`specs/Rule.antt`).
pub struct RingRule;

impl<T> TableRule<Option<T>, View<T>, ()> for RingRule {
    ghost use Rattle.mb_ring.specs.Passes.{new_hub};
    ghost use Rattle.mb_ring.specs.Rule.{Keeps};

    ghost holds = { λ _. Keeps };

    ghost first = { λ _. new_hub };
}

/// A value that a proof picks where a position is drawn.
pub trait Value<T> {
    ghost use Rattle.std.specs.Prelude.{Option};

    ghost value: { Option T };
}

// A call names `Brand`, and the caller's `Invariants.antt` picks the member. Those here are not used.
impl<T> Value<T> for Brand {
    ghost use Rattle.std.specs.Prelude.{None};

    ghost value = { None };
}

/// A position that a proof picks where its slot's word is loaded.
pub trait Position {
    ghost use Rattle.std.specs.Prelude.{ℕ};

    ghost position: { ℕ };
}

impl Position for Brand {
    ghost position = { 0 };
}

/// What a step does to the duty of its pass.
pub trait Effect {
    ghost use Rattle.mb_segment.specs.declared.view.Duty.{Duty};

    ghost of: { Duty → Duty };
}

/// The exchange that draws a position.
pub struct Draws<X, F> {
    of: PhantomData<(X, F)>,
}

impl<T, X: Value<T>, F: Effect> Play<Option<T>, View<T>> for Draws<X, F> {
    ghost use Rattle.mb_ring.specs.Steps.{drawing_picked};

    ghost then = { drawing_picked F.of X.value };
}

/// The exchange that claims a position.
pub struct Claims<F> {
    of: PhantomData<F>,
}

impl<T, F: Effect> Play<Option<T>, View<T>> for Claims<F> {
    ghost use Rattle.mb_ring.specs.Steps.{claiming};

    ghost then = { claiming F.of };
}

/// The store that marks a position, or says that it is read.
pub struct Ends;

impl<T> Play<Option<T>, View<T>> for Ends {
    ghost use Rattle.mb_ring.specs.Steps.{ending};

    ghost then = { ending };
}

/// The exchange that cuts the ring.
pub struct Cuts;

impl<T> Play<Option<T>, View<T>> for Cuts {
    ghost use Rattle.mb_ring.specs.Moves.{did_cut, owes_both};
    ghost use Rattle.mb_ring.specs.Steps.{exchanging};

    ghost then = { exchanging (λ v. owes_both (did_cut v)) };
}

/// An exchange on a list that gives and takes no token.
pub struct Exchanges<Q, F> {
    of: PhantomData<(Q, F)>,
}

impl<T, Q: AnyList, F: Effect> Play<Option<T>, View<T>> for Exchanges<Q, F> {
    ghost use Rattle.mb_ring.specs.Moves.{with_duty};
    ghost use Rattle.mb_ring.specs.Steps.{exchanging};

    ghost then = { exchanging (with_duty Q.want F.of) };
}

/// The exchange that gives a token of a list.
pub struct Gives<Q, F> {
    of: PhantomData<(Q, F)>,
}

impl<T, Q: AnyList, F: Effect> Play<Option<T>, View<T>> for Gives<Q, F> {
    ghost use Rattle.mb_ring.specs.Moves.{gives_token, with_duty};
    ghost use Rattle.mb_ring.specs.Steps.{exchanging};

    ghost then = { exchanging (λ v. with_duty Q.want F.of (gives_token Q.want v)) };
}

/// The exchange that takes a token of a list.
pub struct Takes<Q, F> {
    of: PhantomData<(Q, F)>,
}

impl<T, Q: AnyList, F: Effect> Play<Option<T>, View<T>> for Takes<Q, F> {
    ghost use Rattle.mb_ring.specs.Moves.{takes_token, with_duty};
    ghost use Rattle.mb_ring.specs.Steps.{exchanging};

    ghost then = { exchanging (λ v. with_duty Q.want F.of (takes_token Q.want v)) };
}

/// A load of a list that changes what is owed, whatever it finds.
pub struct Always<Q, F> {
    of: PhantomData<(Q, F)>,
}

impl<T, Q: AnyList, F: Effect> Play<Option<T>, View<T>> for Always<Q, F> {
    ghost use Rattle.mb_ring.specs.Moves.{with_duty};
    ghost use Rattle.mb_ring.specs.Steps.{always};

    ghost then = { always (with_duty Q.want F.of) };
}

/// The load of the number drawn, before a draw.
pub struct Asks<F> {
    of: PhantomData<F>,
}

impl<T, F: Effect> Play<Option<T>, View<T>> for Asks<F> {
    ghost use Rattle.mb_ring.specs.Steps.{asking};

    ghost then = { asking F.of };
}

/// The load of a slot's word, before a draw.
pub struct SeesRoom<P> {
    of: PhantomData<P>,
}

impl<T, P: Position> Play<Option<T>, View<T>> for SeesRoom<P> {
    ghost use Rattle.mb_ring.specs.Steps.{seeing_room};

    ghost then = { seeing_room P.position };
}

/// The load of the number claimed, after one of the number drawn.
pub struct Counts<F> {
    of: PhantomData<F>,
}

impl<T, F: Effect> Play<Option<T>, View<T>> for Counts<F> {
    ghost use Rattle.mb_ring.specs.Steps.{counting};

    ghost then = { counting F.of };
}

/// The load of the number drawn that tells whether the ring is cut.
pub struct SeesCut<F, G> {
    of: PhantomData<(F, G)>,
}

impl<T, F: Effect, G: Effect> Play<Option<T>, View<T>> for SeesCut<F, G> {
    ghost use Rattle.mb_ring.specs.Steps.{seeing_cut};

    ghost then = { seeing_cut F.of G.of };
}

/// The load of the number claimed.
pub struct SeesTaken;

impl<T> Play<Option<T>, View<T>> for SeesTaken {
    ghost use Rattle.mb_ring.specs.Steps.{seeing_taken};

    ghost then = { seeing_taken };
}

/// The load of a slot's word, before a claim.
pub struct SeesMark<P> {
    of: PhantomData<P>,
}

impl<T, P: Position> Play<Option<T>, View<T>> for SeesMark<P> {
    ghost use Rattle.mb_ring.specs.Steps.{seeing_mark};

    ghost then = { seeing_mark P.position };
}

/// The load of the number drawn, after one of the number claimed.
pub struct Looks<F, G> {
    of: PhantomData<(F, G)>,
}

impl<T, F: Effect, G: Effect> Play<Option<T>, View<T>> for Looks<F, G> {
    ghost use Rattle.mb_ring.specs.Steps.{looking};

    ghost then = { looking F.of G.of };
}

/// The load of the list that may find that nobody waits without a token.
pub struct NoneWaits<Q, F> {
    of: PhantomData<(Q, F)>,
}

impl<T, Q: AnyList, F: Effect> Play<Option<T>, View<T>> for NoneWaits<Q, F> {
    ghost use Rattle.mb_ring.specs.Steps.{if_none_waits};

    ghost then = { if_none_waits Q.want F.of };
}

/// The hub issues a pass, and takes it back.
pub struct Passes;

impl<T> Split<View<T>> for Passes {
    ghost use Rattle.mb_ring.specs.Moves.{issued};
    ghost use Rattle.mb_ring.specs.Passes.{blank};

    ghost left = { issued };

    ghost right = { λ _. blank };
}

impl<T> Join<View<T>> for Passes {
    ghost use Rattle.mb_ring.specs.Moves.{took_back};
    ghost use Rattle.mb_ring.specs.Passes.{spent};

    ghost both = { took_back };

    ghost spent = { spent };
}
