//! The rule of the list, and what each step on it tells.
use crate::home::Homes;
use crate::view::Knows;
use atomic_table::{Join, Play, Split, TableRule};
use std::marker::{Brand, PhantomData};

pub struct ListRule;

impl<T: Drop> TableRule<Homes<T>, Knows<T>, ()> for ListRule {
    ghost use Rattle.mb_channel.specs.Homes.{Keeps, first_view};

    ghost holds = { λ _. Keeps };

    ghost first = { λ _. first_view };
}

pub struct TakesLock;

impl<T: Drop> Play<Homes<T>, Knows<T>> for TakesLock {
    ghost use Rattle.mb_channel.specs.Homes.{takes_lock};

    ghost then = { takes_lock };
}

/// What the step that gives the lock back does to the view. A proof picks it.
pub trait Change<T> {
    ghost use Rattle.mb_channel.specs.declared.view.Knows.{Knows};

    ghost of: { Knows T → Knows T };
}

// A call names `Brand`, and the caller's `Invariants.antt` picks the member. Without a pick the view stays.
impl<T> Change<T> for Brand {
    ghost of = { λ v. v };
}

/// What the pass of an end knows that leaves its segment. A proof picks it.
pub trait Stay<T> {
    ghost use Rattle.mb_segment.specs.declared.view.View.{View};

    ghost knew: { View T };
}

// This one is not used.
impl<T> Stay<T> for Brand {
    ghost use Rattle.mb_segment.specs.Vocabulary.{blank};

    ghost knew = { blank };
}

pub struct GivesLock<F> {
    of: PhantomData<F>,
}

impl<T: Drop, F: Change<T>> Play<Homes<T>, Knows<T>> for GivesLock<F> {
    ghost use Rattle.mb_channel.specs.Homes.{gives_lock};

    ghost then = { gives_lock F.of };
}

/// How many values are told to wait, if it is told. A proof picks it.
pub trait Length {
    ghost use Rattle.std.specs.Prelude.{Option, ℕ};

    ghost told: { Option ℕ };
}

// Without a pick it is not told.
impl Length for Brand {
    ghost use Rattle.std.specs.Prelude.{None};

    ghost told = { None };
}

/// Gives the lock back, and may tell how many values wait.
pub struct GivesLength<N> {
    of: PhantomData<N>,
}

impl<T: Drop, N: Length> Play<Homes<T>, Knows<T>> for GivesLength<N> {
    ghost use Rattle.mb_channel.specs.Lengths.{gives_length};

    ghost then = { gives_length N.told };
}

/// The fates that are told, if any are. A proof picks them.
pub trait Taken<T> {
    ghost use Rattle.std.specs.Prelude.{Option};
    ghost use Rattle.mb_channel.specs.declared.home.Fates.{Fates};

    ghost told: { Option (Fates T) };
}

// Without a pick there are none.
impl<T> Taken<T> for Brand {
    ghost use Rattle.std.specs.Prelude.{None};

    ghost told = { None };
}

/// Gives the lock back, and tells fates or that there are none.
pub struct GivesFates<F> {
    of: PhantomData<F>,
}

impl<T: Drop, F: Taken<T>> Play<Homes<T>, Knows<T>> for GivesFates<F> {
    ghost use Rattle.mb_channel.specs.Fates.{gives_fates};

    ghost then = { gives_fates F.told };
}

/// The name of a new end. A proof picks it.
pub trait Name {
    ghost use Rattle.std.specs.Prelude.{ℕ};

    ghost name: { ℕ };
}

// Without a pick it has none.
impl Name for Brand {
    ghost name = { 0 };
}

pub struct GetsNumber<N> {
    of: PhantomData<N>,
}

impl<T: Drop, N: Name> Play<Homes<T>, Knows<T>> for GetsNumber<N> {
    ghost use Rattle.mb_channel.specs.Tallies.{gets_number};

    ghost then = { gets_number N.name };
}

pub struct Counts;

impl<T: Drop> Play<Homes<T>, Knows<T>> for Counts {
    ghost use Rattle.mb_channel.specs.Homes.{rights};
    ghost use Rattle.mb_channel.specs.Tallies.{counting, counts_more};

    ghost then = { counting rights (λ _. counts_more) };
}

pub struct HiresSender;

impl<T: Drop> Play<Homes<T>, Knows<T>> for HiresSender {
    ghost use Rattle.mb_channel.specs.Tallies.{hiring};

    ghost then = { hiring };
}

pub struct HiresReceiver;

impl<T: Drop> Play<Homes<T>, Knows<T>> for HiresReceiver {
    ghost use Rattle.mb_channel.specs.Homes.{receives};
    ghost use Rattle.mb_channel.specs.Tallies.{counting, hires_receiver};

    ghost then = { counting receives (λ _. hires_receiver) };
}

pub struct RetiresSender;

impl<T: Drop> Play<Homes<T>, Knows<T>> for RetiresSender {
    ghost use Rattle.std.specs.Prelude.{nat_eq};
    ghost use Rattle.mb_channel.specs.Homes.{sends};
    ghost use Rattle.mb_channel.specs.Tallies.{counting, retires_sender};

    ghost then = { counting sends (λ r. retires_sender (nat_eq r 1)) };
}

pub struct RetiresReceiver;

impl<T: Drop> Play<Homes<T>, Knows<T>> for RetiresReceiver {
    ghost use Rattle.mb_channel.specs.Homes.{receives};
    ghost use Rattle.mb_channel.specs.Tallies.{counting, retires_receiver};

    ghost then = { counting receives (λ _. retires_receiver) };
}

pub struct SeesSenders;

impl<T: Drop> Play<Homes<T>, Knows<T>> for SeesSenders {
    ghost use Rattle.mb_channel.specs.Tallies.{sees_senders};

    ghost then = { sees_senders };
}

/// A load of the list's mark, which is 0 once the channel is closed.
pub struct SeesMark;

impl<T: Drop> Play<Homes<T>, Knows<T>> for SeesMark {
    ghost use Rattle.mb_channel.specs.Tallies.{sees_mark};

    ghost then = { sees_mark };
}

pub struct Closes;

impl<T: Drop> Play<Homes<T>, Knows<T>> for Closes {
    ghost use Rattle.mb_channel.specs.Tallies.{closing};

    ghost then = { closing };
}

/// For how many senders and receivers a new end counts.
pub trait Side {
    ghost use Rattle.std.specs.Prelude.{ℕ};

    ghost sends: { ℕ };

    ghost receives: { ℕ };
}

pub struct AsSender;

impl Side for AsSender {
    ghost sends = { 1 };

    ghost receives = { 0 };
}

pub struct AsReceiver;

impl Side for AsReceiver {
    ghost sends = { 0 };

    ghost receives = { 1 };
}

/// An end that neither sends nor receives.
pub struct AsNobody;

impl Side for AsNobody {
    ghost sends = { 0 };

    ghost receives = { 0 };
}

pub struct Splits<S> {
    of: PhantomData<S>,
}

impl<T: Drop, S: Side> Split<Knows<T>> for Splits<S> {
    ghost use Rattle.mb_channel.specs.Homes.{newborn_view, splits_off};

    ghost left = { splits_off S.sends S.receives };

    ghost right = { newborn_view S.sends S.receives };
}

pub struct Ends;

impl<T: Drop> Join<Knows<T>> for Ends {
    ghost use Rattle.mb_channel.specs.Homes.{both, spent_view};

    ghost both = { both };

    ghost spent = { spent_view };
}
