//! The calls of receivers that never wait.
ghost use Rattle.std.specs.Prelude.{Some, [], false, true, ◌+◌, ◌<◌, ◌∷◌, ◌≡◌, ◌≤◌};
ghost use Rattle.mb_segment.specs.{Becomes, IsStill, MayTake, Member, Nothing, OfLeave, OfLook, OfRest, Reads, SawAllTaken, bare, done};
ghost use Rattle.mb_segment.specs.{ended, enters, falls_asleep, found_empty, held_by, leaves, leaves_with_token, looked, marked_to, spot, takes_token, told, took};
ghost use Rattle.mb_segment.specs.{view_in, wakes_up, with_duty};

use crate::answers::{Leave, Look, Rest};
use crate::list::{LIST, LISTED};
use crate::rule::Ends;
use crate::segment::{Pass, Segment};
use crate::words::{CUT, state_of};
use std::alloc::Allocator;
use std::marker::Brand;

impl<T: Drop, A: Allocator + Drop> Segment<T, A> {
    /// Looks for the first value that waits. A look that finds nothing pays one look that is owed, and the pass counts it.
    /// At that moment nothing waits (`laws::empty_is_true`). Three accesses at most.
    pub fn look(&self, pass: &mut Pass<T>) -> Look
        requires segment { pass.old.seat.table_id ≡ self.now.table.shared.table_id }
        ensures pass { IsStill pass.old pass.new }
        ensures held { held_by pass.new ≡ held_by pass.old }
        ensures mark { marked_to (view_in pass.old) ≤ marked_to (view_in pass.new) }
        ensures found { found_empty (view_in pass.old) ≤ found_empty (view_in pass.new) }
        ensures tokens { (view_in pass.new).tokens ≡ (view_in pass.old).tokens }
        ensures answer { OfLook result
            (λ at. (at < self.now.size) × ((view_in pass.new).sight.ripe ≡ Some at)
            × (bare (view_in pass.new) ≡ bare (view_in pass.old)))
            (bare (view_in pass.new) ≡ bare (view_in pass.old))
            ((bare (view_in pass.new) ≡ with_duty looked (bare (view_in pass.old)))
            × SawAllTaken (view_in pass.new)
            × (found_empty (view_in pass.new) ≡ found_empty (view_in pass.old) + 1)
            × ((view_in pass.new).sight.ripe ≡ (view_in pass.old).sight.ripe))
            (bare (view_in pass.new) ≡ told (with_duty looked (bare (view_in pass.old)))) }
    {
        let first = self.load_taken(pass);
        if first < self.size && self.load_mark::<Brand>(pass, first) != 0 {
            return Look::Ready(first);
        }
        let drawn = self.load_drawn(pass);
        if drawn % CUT > first {
            Look::Yield
        } else if drawn < self.size {
            Look::Empty
        } else {
            Look::Over
        }
    }

    /// The same for one in the list. If no value is there yet, it sleeps from then on; if none will ever be, it is about
    /// to leave.
    pub fn look_listed(&self, pass: &mut Pass<T>) -> Look
        requires segment { pass.old.seat.table_id ≡ self.now.table.shared.table_id }
        requires fresh { 0 < (view_in pass.old).duty.fresh }
        ensures pass { IsStill pass.old pass.new }
        ensures held { held_by pass.new ≡ held_by pass.old }
        ensures mark { marked_to (view_in pass.old) ≤ marked_to (view_in pass.new) }
        ensures found { found_empty (view_in pass.old) ≤ found_empty (view_in pass.new) }
        ensures tokens { (view_in pass.new).tokens ≡ (view_in pass.old).tokens }
        ensures answer { OfLook result
            (λ at. (at < self.now.size) × ((view_in pass.new).sight.ripe ≡ Some at)
            × (bare (view_in pass.new) ≡ bare (view_in pass.old)))
            (bare (view_in pass.new) ≡ bare (view_in pass.old))
            ((bare (view_in pass.new) ≡ with_duty falls_asleep (bare (view_in pass.old)))
            × SawAllTaken (view_in pass.new)
            × (found_empty (view_in pass.new) ≡ found_empty (view_in pass.old) + 1)
            × ((view_in pass.new).sight.ripe ≡ (view_in pass.old).sight.ripe))
            (bare (view_in pass.new) ≡ told (with_duty done (bare (view_in pass.old)))) }
    {
        let first = self.load_taken(pass);
        if first < self.size && self.load_mark::<Brand>(pass, first) != 0 {
            return Look::Ready(first);
        }
        let drawn = self.load_drawn_listed(pass);
        if drawn % CUT > first {
            Look::Yield
        } else if drawn < self.size {
            Look::Empty
        } else {
            Look::Over
        }
    }

    /// Claims the position that a look found. False if another pass was first. It pays one look that is owed. The pass
    /// has to read the value. One access.
    pub fn claim(&self, pass: &mut Pass<T>, at: u64) -> bool
        requires segment { pass.old.seat.table_id ≡ self.now.table.shared.table_id }
        requires member { (view_in pass.old).role ≡ Member }
        requires idle { ((view_in pass.old).half ≡ Nothing) × (held_by pass.old ≡ []) }
        requires ripe { (view_in pass.old).sight.ripe ≡ Some at }
        requires within { at < self.now.size }
        ensures pass { IsStill pass.old pass.new }
        ensures claimed { result ≡ true → (x : T)
            × (view_in pass.new ≡ with_duty looked (took at x (view_in pass.old)))
            × (held_by pass.new ≡ (at, Some x) ∷ []) }
        ensures missed { result ≡ false → Becomes pass.old pass.new (view_in pass.old) }
        ensures may { result ≡ true → MayTake at (view_in pass.old) }
    {
        self.claim_from(pass, at, at + 1) == at
    }

    /// The same for one in the list, which is then about to leave.
    pub fn claim_listed(&self, pass: &mut Pass<T>, at: u64) -> bool
        requires segment { pass.old.seat.table_id ≡ self.now.table.shared.table_id }
        requires member { (view_in pass.old).role ≡ Member }
        requires fresh { 0 < (view_in pass.old).duty.fresh }
        requires idle { ((view_in pass.old).half ≡ Nothing) × (held_by pass.old ≡ []) }
        requires ripe { (view_in pass.old).sight.ripe ≡ Some at }
        requires within { at < self.now.size }
        ensures pass { IsStill pass.old pass.new }
        ensures claimed { result ≡ true → (x : T)
            × (view_in pass.new ≡ with_duty done (took at x (view_in pass.old)))
            × (held_by pass.new ≡ (at, Some x) ∷ []) }
        ensures missed { result ≡ false → Becomes pass.old pass.new (view_in pass.old) }
        ensures may { result ≡ true → MayTake at (view_in pass.old) }
    {
        self.claim_listed_from(pass, at, at + 1) == at
    }

    /// Takes the value of the position that the pass claimed. It is the one that was sent there. A pass that has a name
    /// adds it to the state. One access.
    #[inline(always)]
    pub fn read(&self, pass: &mut Pass<T>, at: u64, name: u32) -> T
        requires segment { pass.old.seat.table_id ≡ self.now.table.shared.table_id }
        requires member { (view_in pass.old).role ≡ Member }
        requires claimed { (x : T) × ((view_in pass.old).half ≡ Reads (spot at x))
            × (held_by pass.old ≡ (at, Some x) ∷ []) }
        requires within { at < self.now.size }
        requires name { (view_in pass.old).account.name ≡ name }
        ensures pass { IsStill pass.old pass.new }
        ensures value { (view_in pass.old).half ≡ Reads (spot at result) }
        ensures read { view_in pass.new ≡ ended (view_in pass.old) }
        ensures held { held_by pass.new ≡ [] }
    {
        let value = pass.seat.slot_mut(&self.table.shared, at as usize).take();
        if name == 0 {
            // Nobody uses the slot again, so a load gives it back. A store would take the states' line from the senders.
            self.table.shared.load::<Ends>(&mut pass.seat, LIST);
        } else {
            self.table
                .shared
                .fetch_add::<Ends>(&mut pass.seat, state_of(at), name as u64 * LISTED);
        }
        match value {
            Some(value) => value,
            None => unreachable!(),
        }
    }

    /// Enters the list of those that wait. The pass then owes a look. False if another pass changed the list, or 2^32 - 1
    /// wait. One access at most.
    pub fn enter(&self, pass: &mut Pass<T>) -> bool
        requires segment { pass.old.seat.table_id ≡ self.now.table.shared.table_id }
        requires member { (view_in pass.old).role ≡ Member }
        ensures pass { IsStill pass.old pass.new }
        ensures entered { result ≡ true
            → Becomes pass.old pass.new (with_duty enters (view_in pass.old)) }
        ensures missed { result ≡ false → Becomes pass.old pass.new (view_in pass.old) }
    {
        let seen = self.peek_list();
        match seen.checked_add(LISTED) {
            Some(new) => self.enter_from(pass, seen, new) == seen,
            None => false,
        }
    }

    /// A sleeper takes a token, if one is there. It owes a look then. One access at most.
    pub fn accept(&self, pass: &mut Pass<T>) -> Rest
        requires segment { pass.old.seat.table_id ≡ self.now.table.shared.table_id }
        requires asleep { 0 < (view_in pass.old).duty.asleep }
        ensures pass { IsStill pass.old pass.new }
        ensures answer { OfRest result
            (Becomes pass.old pass.new (with_duty wakes_up (takes_token (view_in pass.old))))
            (Becomes pass.old pass.new (view_in pass.old)) }
    {
        let seen = self.peek_list();
        if seen % LISTED == 0 {
            return Rest::Sleep;
        }
        if self.accept_from(pass, seen, seen - 1) == seen {
            Rest::Woken
        } else {
            Rest::Again
        }
    }

    /// Leaves the list. If each that waits has a token, the pass takes one with it, and owes a wake. One access at most.
    pub fn leave(&self, pass: &mut Pass<T>) -> Leave
        requires segment { pass.old.seat.table_id ≡ self.now.table.shared.table_id }
        requires leaving { 0 < (view_in pass.old).duty.leaving }
        ensures pass { IsStill pass.old pass.new }
        ensures answer { OfLeave result
            (Becomes pass.old pass.new (with_duty leaves (view_in pass.old)))
            (Becomes pass.old pass.new
            (with_duty leaves_with_token (takes_token (view_in pass.old))))
            (Becomes pass.old pass.new (view_in pass.old)) }
    {
        let seen = self.peek_list();
        if seen >= LISTED {
            if self.leave_from(pass, seen, seen - LISTED) == seen {
                return Leave::Left;
            }
        } else if seen > 0 && self.leave_with_token(pass, seen, seen - 1) == seen {
            return Leave::Owes;
        }
        Leave::Again
    }
}
