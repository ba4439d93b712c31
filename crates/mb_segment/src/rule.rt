//! The rule of a segment, and what its steps tell.
use crate::view::View;
use atomic_table::{Join, Play, Split, TableRule};
use std::marker::{Brand, PhantomData};

/// Words, slots and views agree with one history (`specs/Rule.antt`).
pub struct SegmentRule;

impl<T> TableRule<Option<T>, View<T>, ()> for SegmentRule {
    ghost use Rattle.mb_segment.specs.Passes.{new_hub};
    ghost use Rattle.mb_segment.specs.Rule.{Keeps};

    ghost holds = { λ _. Keeps };

    ghost first = { λ _. new_hub };
}

/// A value that a proof picks where a position is drawn.
pub trait Value<T> {
    ghost use Rattle.std.specs.Prelude.{Option};

    ghost value: { Option T };
}

// A call names `Brand`, and the caller's `Invariants.antt` picks the member. Those here are not used.
impl<T> Value<T> for Brand {
    ghost use Rattle.std.specs.Prelude.{None};

    ghost value = { None };
}

/// A position that a proof picks where its state is loaded.
pub trait Position {
    ghost use Rattle.std.specs.Prelude.{ℕ};

    ghost position: { ℕ };
}

impl Position for Brand {
    ghost position = { 0 };
}

/// A name that a proof picks where a pass is issued.
pub trait Name {
    ghost use Rattle.std.specs.Prelude.{ℕ};

    ghost name: { ℕ };
}

impl Name for Brand {
    ghost name = { 0 };
}

/// What a step does to the duty of its pass.
pub trait Effect {
    ghost use Rattle.mb_segment.specs.declared.view.Duty.{Duty};

    ghost of: { Duty → Duty };
}

/// The exchange that draws a position.
pub struct Draws<F, X> {
    of: PhantomData<(F, X)>,
}

impl<T, F: Effect, X: Value<T>> Play<Option<T>, View<T>> for Draws<F, X> {
    ghost use Rattle.mb_segment.specs.Steps.{drawing_picked};

    ghost then = { drawing_picked F.of X.value };
}

/// The exchange that claims a position.
pub struct Claims<F> {
    of: PhantomData<F>,
}

impl<T, F: Effect> Play<Option<T>, View<T>> for Claims<F> {
    ghost use Rattle.mb_segment.specs.Steps.{claiming};

    ghost then = { claiming F.of };
}

/// The store that marks a position, and the load or sum that gives the slot of a claimed one back.
pub struct Ends;

impl<T> Play<Option<T>, View<T>> for Ends {
    ghost use Rattle.mb_segment.specs.Steps.{ending};

    ghost then = { ending };
}

/// The exchange that cuts the segment.
pub struct Cuts;

impl<T> Play<Option<T>, View<T>> for Cuts {
    ghost use Rattle.mb_segment.specs.Moves.{did_cut, owes_all, with_duty};
    ghost use Rattle.mb_segment.specs.Steps.{exchanging};

    ghost then = { exchanging (λ v. with_duty owes_all (did_cut v)) };
}

/// Any other exchange.
pub struct Exchanges<F> {
    of: PhantomData<F>,
}

impl<T, F: Effect> Play<Option<T>, View<T>> for Exchanges<F> {
    ghost use Rattle.mb_segment.specs.Moves.{with_duty};
    ghost use Rattle.mb_segment.specs.Steps.{exchanging};

    ghost then = { exchanging (with_duty F.of) };
}

/// The exchange that gives a token.
pub struct Gives<F> {
    of: PhantomData<F>,
}

impl<T, F: Effect> Play<Option<T>, View<T>> for Gives<F> {
    ghost use Rattle.mb_segment.specs.Moves.{gives_token, with_duty};
    ghost use Rattle.mb_segment.specs.Steps.{exchanging};

    ghost then = { exchanging (λ v. with_duty F.of (gives_token v)) };
}

/// The exchange that takes a token.
pub struct Takes<F> {
    of: PhantomData<F>,
}

impl<T, F: Effect> Play<Option<T>, View<T>> for Takes<F> {
    ghost use Rattle.mb_segment.specs.Moves.{takes_token, with_duty};
    ghost use Rattle.mb_segment.specs.Steps.{exchanging};

    ghost then = { exchanging (λ v. with_duty F.of (takes_token v)) };
}

/// A load that changes what is owed, whatever it finds.
pub struct Always<F> {
    of: PhantomData<F>,
}

impl<T, F: Effect> Play<Option<T>, View<T>> for Always<F> {
    ghost use Rattle.mb_segment.specs.Moves.{with_duty};
    ghost use Rattle.mb_segment.specs.Steps.{always};

    ghost then = { always (λ _. with_duty F.of) };
}

/// The load of the number drawn, before a draw.
pub struct Asks;

impl<T> Play<Option<T>, View<T>> for Asks {
    ghost use Rattle.mb_segment.specs.Steps.{asking};

    ghost then = { asking };
}

/// The load of the number drawn, before a cut.
pub struct SeesCut;

impl<T> Play<Option<T>, View<T>> for SeesCut {
    ghost use Rattle.mb_segment.specs.Steps.{seeing_cut};

    ghost then = { seeing_cut };
}

/// The load of the number claimed.
pub struct SeesTaken;

impl<T> Play<Option<T>, View<T>> for SeesTaken {
    ghost use Rattle.mb_segment.specs.Steps.{seeing_taken};

    ghost then = { seeing_taken };
}

/// The load of the number drawn that the pass learns of, and that of the number claimed.
pub struct LearnsDrawn;

impl<T> Play<Option<T>, View<T>> for LearnsDrawn {
    ghost use Rattle.mb_segment.specs.Steps.{learning_drawn};

    ghost then = { learning_drawn };
}

pub struct LearnsTaken;

impl<T> Play<Option<T>, View<T>> for LearnsTaken {
    ghost use Rattle.mb_segment.specs.Steps.{learning_taken};

    ghost then = { learning_taken };
}

/// The load of a position's state.
pub struct SeesMark<P> {
    of: PhantomData<P>,
}

impl<T, P: Position> Play<Option<T>, View<T>> for SeesMark<P> {
    ghost use Rattle.mb_segment.specs.Steps.{seeing_mark};

    ghost then = { seeing_mark P.position };
}

/// The load of the number drawn, after one of the number claimed.
pub struct Looks<F, G> {
    of: PhantomData<(F, G)>,
}

impl<T, F: Effect, G: Effect> Play<Option<T>, View<T>> for Looks<F, G> {
    ghost use Rattle.mb_segment.specs.Steps.{looking};

    ghost then = { looking F.of G.of };
}

/// The load of the list that may find that nobody waits without a token.
pub struct NoneWaits<F> {
    of: PhantomData<F>,
}

impl<T, F: Effect> Play<Option<T>, View<T>> for NoneWaits<F> {
    ghost use Rattle.mb_segment.specs.Steps.{if_none_waits};

    ghost then = { if_none_waits F.of };
}

/// The hub issues a pass.
pub struct Issues<N> {
    of: PhantomData<N>,
}

impl<T, N: Name> Split<View<T>> for Issues<N> {
    ghost use Rattle.mb_segment.specs.Moves.{issued};
    ghost use Rattle.mb_segment.specs.Passes.{named};

    ghost left = { issued };

    ghost right = { λ _. named N.name };
}

/// The hub takes a pass back.
pub struct TakesBack;

impl<T> Join<View<T>> for TakesBack {
    ghost use Rattle.mb_segment.specs.Moves.{took_back};
    ghost use Rattle.mb_segment.specs.Passes.{spent};

    ghost both = { took_back };

    ghost spent = { spent };
}
