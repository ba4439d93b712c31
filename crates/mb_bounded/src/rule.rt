//! The rule of the desk, and what each step on its lock tells.
use crate::desk::Desk;
use crate::view::Knows;
use atomic_table::{Play, Split, TableRule};
use mb_ring::Ring;
use std::alloc::Global;
use std::marker::PhantomData;

/// While the lock is free, the desk is there, and its numbers are those of the ends (`specs/Desks.antt`).
pub struct DeskRule;

impl<T: Drop> TableRule<Option<Desk<T>>, Knows<T>, Ring<T, Global>> for DeskRule {
    ghost use Rattle.mb_bounded.specs.Desks.{Keeps, first_view};

    ghost holds = { Keeps };

    ghost first = { first_view };
}

/// An exchange that takes the lock, if it is free.
pub struct TakesLock;

impl<T: Drop> Play<Option<Desk<T>>, Knows<T>> for TakesLock {
    ghost use Rattle.mb_bounded.specs.Desks.{takes_lock};

    ghost then = { takes_lock };
}

/// A store that gives it back.
pub struct GivesLock;

impl<T: Drop> Play<Option<Desk<T>>, Knows<T>> for GivesLock {
    ghost use Rattle.mb_bounded.specs.Desks.{gives_lock};

    ghost then = { gives_lock };
}

/// On which side of the channel an end is.
pub trait Side {
    ghost use Rattle.std.specs.Prelude.{ℕ, false, true, ◌≡◌};

    /// For how many senders and receivers it counts.
    ghost sends: { ℕ };

    ghost receives: { ℕ };

    fn is_sender() -> bool
        ensures sender { result ≡ true → (sends ≡ 1) × (receives ≡ 0) }
        ensures receiver { result ≡ false → (sends ≡ 0) × (receives ≡ 1) };
}

pub struct AsSender;

impl Side for AsSender {
    ghost sends = { 1 };

    ghost receives = { 0 };

    fn is_sender() -> bool {
        true
    }
}

pub struct AsReceiver;

impl Side for AsReceiver {
    ghost sends = { 0 };

    ghost receives = { 1 };

    fn is_sender() -> bool {
        false
    }
}

/// An end of this side is split off.
pub struct Splits<S> {
    of: PhantomData<S>,
}

impl<T: Drop, S: Side> Split<Knows<T>> for Splits<S> {
    ghost use Rattle.mb_bounded.specs.Desks.{newcomer, splits_off};

    ghost left = { splits_off S.sends S.receives };

    ghost right = { λ v. newcomer v.ring S.sends S.receives };
}
