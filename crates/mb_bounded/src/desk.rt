//! The desk: the hub that issues the ends' passes, and how many ends there are.
ghost use Rattle.std.specs.Prelude.{◌+◌, ◌≤◌};

use crate::rule::Side;
use mb_ring::{Hub, Pass, Ring};
use std::alloc::Global;

#[derive(Drop)]
pub struct Desk<T> {
    pub(crate) hub: Hub<T>,
    /// How many ends were ever made.
    pub(crate) made: u64,
    /// How many of them may send, and how many may receive.
    pub(crate) senders: u64,
    pub(crate) receivers: u64,
    ghost few: { senders + receivers ≤ made },
}

impl<T: Drop> Desk<T> {
    ghost use Rattle.std.specs.Prelude.{false, true, IfNone, IfSome, ◌<◌, ◌≡◌};
    ghost use Rattle.mb_bounded.specs.Desks.{IsDeskOf, IsNewPass};

    /// Issues the pass of one more end. It is `None` if 2^64 - 1 ends were made.
    pub(crate) fn hire<S: Side>(&mut self, ring: &Ring<T, Global>) -> Option<Pass<T>>
        requires ring { IsDeskOf ring.now self.old }
        ensures ring { IsDeskOf ring.now self.new }
        ensures pass { IfSome result (λ p. IsNewPass ring.now p) }
        ensures more { IfSome result (λ _. (self.new.senders ≡ self.old.senders + S.sends)
            × (self.new.receivers ≡ self.old.receivers + S.receives)) }
        ensures none { IfNone result (self.new ≡ self.old) }
    {
        self.made = self.made.checked_add(1)?;
        if S::is_sender() {
            self.senders += 1;
        } else {
            self.receivers += 1;
        }
        Some(ring.issue(&mut self.hub))
    }

    /// Counts for one end less. It tells whether none of its side is left.
    pub(crate) fn retire<S: Side>(&mut self) -> bool
        requires some { (S.sends ≤ self.old.senders) × (S.receives ≤ self.old.receivers) }
        ensures same { (self.new.hub ≡ self.old.hub) × (self.new.made ≡ self.old.made) }
        ensures less { (self.new.senders + S.sends ≡ self.old.senders)
            × (self.new.receivers + S.receives ≡ self.old.receivers) }
        ensures last { result ≡ true → (S.sends ≡ 1 → self.new.senders ≡ 0)
            × (S.receives ≡ 1 → self.new.receivers ≡ 0) }
        ensures others { result ≡ false → (S.sends ≡ 1 → 0 < self.new.senders)
            × (S.receives ≡ 1 → 0 < self.new.receivers) }
    {
        if S::is_sender() {
            self.senders -= 1;
            self.senders == 0
        } else {
            self.receivers -= 1;
            self.receivers == 0
        }
    }
}
