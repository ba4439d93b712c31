//! The calls of receivers.
ghost use Rattle.std.specs.Prelude.{List, Some, [], false, true, ℕ, ◌%◌, ◌<◌, ◌∷◌, ◌≡◌, ◌≤◌};
ghost use Rattle.mb_ring.specs.{Becomes, Event, IsOver, IsStill, KnowsOver, MayTake, Member, Nothing, OfLook, Reads, Room, SawAllTaken, Values};
ghost use Rattle.mb_ring.specs.{bare, done, ended, falls_asleep, held_by, looked, marked_to, owes_wake, sees_empty, sees_mark, sees_taken};
ghost use Rattle.mb_ring.specs.{spot, told, took, view_in, with_duty};

use crate::ring::{Pass, Ring};
use crate::rule::Ends;
use crate::words::{CUT, word_of};
use mb_segment::Look;
use std::alloc::Allocator;
use std::marker::Brand;

impl<T: Drop, A: Allocator + Drop> Ring<T, A> {
    /// Looks for the first value that waits. If it finds none, it pays one look that is owed, and nothing waited at its
    /// last access ([`crate::laws::looks_are_true`]). All is claimed that the pass had sent or seen marked, in this call
    /// or before. "Over" comes only if the ring was cut, and all is claimed. Each later look of the pass answers "Over"
    /// too. Three accesses at most.
    pub fn look(&self, pass: &mut Pass<T>) -> Look
        requires ring { pass.old.seat.table_id ≡ self.now.table.shared.table_id }
        ensures pass { IsStill pass.old pass.new }
        ensures held { held_by pass.new ≡ held_by pass.old }
        ensures mark { marked_to (view_in pass.old) ≤ marked_to (view_in pass.new) }
        ensures answer { OfLook result
            (λ at. (at < 4611686018427387904)
            × ((view_in pass.new).sight.ripe ≡ Some at)
            × (bare (view_in pass.new) ≡ bare (sees_mark at (view_in pass.old))))
            ((bare (view_in pass.new) ≡ bare (view_in pass.old))
            × ((view_in pass.old).known.taken ≤ (view_in pass.new).sight.low)
            × ((view_in pass.new).sight.low < (view_in pass.new).sight.top))
            ((n : ℕ) × (w : List Event) × (bare (view_in pass.new)
            ≡ bare (sees_empty n w (with_duty Values looked (view_in pass.old))))
            × SawAllTaken (view_in pass.new) × ((view_in pass.old).known.drawn ≤ n))
            (bare (view_in pass.new) ≡ bare (told (with_duty Values looked (view_in pass.old)))) }
        ensures told { KnowsOver (view_in pass.old) → IsOver result }
    {
        let first = self.load_taken(pass);
        let slot = self.slot_of(first);
        if self.load_mark::<Brand>(pass, first, slot) > 2 * (first - slot) {
            return Look::Ready(first);
        }
        let drawn = self.load_drawn(pass);
        if drawn % CUT > first {
            Look::Yield
        } else if drawn < CUT {
            Look::Empty
        } else {
            Look::Over
        }
    }

    /// The same for one in the list. If no value is there yet, it sleeps from then on. If none will ever be, it is about
    /// to leave.
    pub fn look_listed(&self, pass: &mut Pass<T>) -> Look
        requires ring { pass.old.seat.table_id ≡ self.now.table.shared.table_id }
        requires fresh { 0 < (view_in pass.old).duty.values.fresh }
        ensures pass { IsStill pass.old pass.new }
        ensures held { held_by pass.new ≡ held_by pass.old }
        ensures mark { marked_to (view_in pass.old) ≤ marked_to (view_in pass.new) }
        ensures answer { OfLook result
            (λ at. (at < 4611686018427387904)
            × ((view_in pass.new).sight.ripe ≡ Some at)
            × (bare (view_in pass.new) ≡ bare (sees_mark at (view_in pass.old))))
            ((bare (view_in pass.new) ≡ bare (view_in pass.old))
            × ((view_in pass.old).known.taken ≤ (view_in pass.new).sight.low)
            × ((view_in pass.new).sight.low < (view_in pass.new).sight.top))
            ((n : ℕ) × (w : List Event) × (bare (view_in pass.new)
            ≡ bare (sees_empty n w (with_duty Values falls_asleep (view_in pass.old))))
            × SawAllTaken (view_in pass.new) × ((view_in pass.old).known.drawn ≤ n))
            (bare (view_in pass.new) ≡ bare (told (with_duty Values done (view_in pass.old)))) }
        ensures told { KnowsOver (view_in pass.old) → IsOver result }
    {
        let first = self.load_taken(pass);
        let slot = self.slot_of(first);
        if self.load_mark::<Brand>(pass, first, slot) > 2 * (first - slot) {
            return Look::Ready(first);
        }
        let drawn = self.load_drawn_listed(pass);
        if drawn % CUT > first {
            Look::Yield
        } else if drawn < CUT {
            Look::Empty
        } else {
            Look::Over
        }
    }

    /// Claims the position that a look found, and pays one look that is owed. The pass has to read the value, and then
    /// owes a wake to one that waits for room. False only if another pass had claimed the position. One access.
    pub fn claim(&self, pass: &mut Pass<T>, at: u64) -> bool
        requires ring { pass.old.seat.table_id ≡ self.now.table.shared.table_id }
        requires member { (view_in pass.old).role ≡ Member }
        requires idle { ((view_in pass.old).half ≡ Nothing) × (held_by pass.old ≡ []) }
        requires ripe { (view_in pass.old).sight.ripe ≡ Some at }
        requires most { at ≤ 4611686018427387904 }
        ensures pass { IsStill pass.old pass.new }
        ensures claimed { result ≡ true → (x : T)
            × (view_in pass.new
            ≡ with_duty Room owes_wake (with_duty Values looked (took at x (view_in pass.old))))
            × (held_by pass.new ≡ (at % self.now.size, Some x) ∷ []) }
        // It sees a number claimed above `at`.
        ensures missed { result ≡ false → (r : ℕ) × (at < r)
            × Becomes pass.old pass.new (sees_taken r (view_in pass.old)) }
        ensures may { result ≡ true → MayTake (view_in pass.old) }
    {
        self.claim_from(pass, at, at + 1) == at
    }

    /// The same for one in the list, which is then about to leave.
    pub fn claim_listed(&self, pass: &mut Pass<T>, at: u64) -> bool
        requires ring { pass.old.seat.table_id ≡ self.now.table.shared.table_id }
        requires member { (view_in pass.old).role ≡ Member }
        requires fresh { 0 < (view_in pass.old).duty.values.fresh }
        requires idle { ((view_in pass.old).half ≡ Nothing) × (held_by pass.old ≡ []) }
        requires ripe { (view_in pass.old).sight.ripe ≡ Some at }
        requires most { at ≤ 4611686018427387904 }
        ensures pass { IsStill pass.old pass.new }
        ensures claimed { result ≡ true → (x : T)
            × (view_in pass.new
            ≡ with_duty Room owes_wake (with_duty Values done (took at x (view_in pass.old))))
            × (held_by pass.new ≡ (at % self.now.size, Some x) ∷ []) }
        // It sees a number claimed above `at`.
        ensures missed { result ≡ false → (r : ℕ) × (at < r)
            × Becomes pass.old pass.new (sees_taken r (view_in pass.old)) }
        ensures may { result ≡ true → MayTake (view_in pass.old) }
    {
        self.claim_listed_from(pass, at, at + 1) == at
    }

    /// Takes the value of the position that the pass claimed. It is the one that was sent there. The slot is then free for
    /// the position of the next lap. One access.
    pub fn read(&self, pass: &mut Pass<T>, at: u64) -> T
        requires ring { pass.old.seat.table_id ≡ self.now.table.shared.table_id }
        requires member { (view_in pass.old).role ≡ Member }
        requires claimed { (x : T) × ((view_in pass.old).half ≡ Reads (spot at x))
            × (held_by pass.old ≡ (at % self.now.size, Some x) ∷ []) }
        requires most { at ≤ 4611686018427387904 }
        ensures pass { IsStill pass.old pass.new }
        ensures value { (view_in pass.old).half ≡ Reads (spot at result) }
        ensures read { view_in pass.new ≡ ended (view_in pass.old) }
        ensures held { held_by pass.new ≡ [] }
    {
        let slot = self.slot_of(at);
        let value = pass.seat.slot_mut(&self.table.shared, slot as usize).take();
        self.table
            .shared
            .store::<Ends>(&mut pass.seat, word_of(slot), 2 * (at - slot + self.size));
        match value {
            Some(value) => value,
            None => unreachable!(),
        }
    }
}
