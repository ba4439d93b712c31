//! The draw of a sender that waits for room.
ghost use Rattle.std.specs.Prelude.{List, None, [], true, ℕ, ◌%◌, ◌+◌, ◌<◌, ◌∷◌, ◌≡◌, ◌≤◌};
ghost use Rattle.mb_ring.specs.{Event, FoundCut, IsClosed, IsStill, KnowsCut, MaySend, Member, Nothing, OfDraw, Room, SawAllGot, Values, bare};
ghost use Rattle.mb_ring.specs.{done, done_with_all, drew, falls_asleep, held_by, owes_wake, sees_full, view_in, with_duty};

use crate::answers::Draw;
use crate::ring::{Pass, Ring};
use crate::words::{CUT, MOST};
use std::alloc::Allocator;
use std::marker::Brand;

impl<T: Drop, A: Allocator + Drop> Ring<T, A> {
    /// Draws the next position as [`Ring::draw`], for one in the list of those that wait for room. If the ring is full, it
    /// sleeps from then on. If the position is drawn, it is about to leave. So it is if the ring is cut, and then it owes
    /// a token to each that waits for room. Four accesses at most.
    pub fn draw_listed(&self, pass: &mut Pass<T>, value: &T) -> Draw
        requires ring { pass.old.seat.table_id ≡ self.now.table.shared.table_id }
        requires member { (view_in pass.old).role ≡ Member }
        requires fresh { 0 < (view_in pass.old).duty.room.fresh }
        requires idle { ((view_in pass.old).half ≡ Nothing) × (held_by pass.old ≡ []) }
        ensures pass { IsStill pass.old pass.new }
        ensures told { KnowsCut (view_in pass.old) → IsClosed result }
        ensures answer { OfDraw result
            (λ at. (at < 4611686018427387904)
            × (held_by pass.new ≡ (at % self.now.size, None) ∷ [])
            × (bare (view_in pass.new) ≡ bare (with_duty Room done
            (with_duty Values owes_wake (drew at value.now (view_in pass.old)))))
            × MaySend (view_in pass.old))
            ((t : ℕ) × (w : List Event) × (bare (view_in pass.new)
            ≡ bare (sees_full t w (with_duty Room falls_asleep (view_in pass.old))))
            × SawAllGot (view_in pass.new) × (held_by pass.new ≡ [])
            × ((view_in pass.old).known.taken ≤ t)
            × ((view_in pass.old).known.drawn ≤ t + self.now.size))
            (FoundCut self.now.size (with_duty Room done_with_all (view_in pass.old))
            (view_in pass.new) × (held_by pass.new ≡ []))
            ((bare (view_in pass.new) ≡ bare (view_in pass.old)) × (held_by pass.new ≡ [])
            × (4611686018427387904 ≤ (view_in pass.new).sight.top))
            ((bare (view_in pass.new) ≡ bare (view_in pass.old)) × (held_by pass.new ≡ [])
            × ((view_in pass.old).known.drawn ≤ (view_in pass.new).sight.top)
            × (self.now.size ≤ (view_in pass.new).sight.top)
            × ((view_in pass.new).sight.top < (view_in pass.new).sight.low + self.now.size))
            ((bare (view_in pass.new) ≡ bare (view_in pass.old)) × (held_by pass.new ≡ [])) }
    {
        let seen = self.load_to_draw_listed(pass);
        if seen >= CUT {
            return Draw::Closed;
        }
        if seen >= MOST {
            return Draw::Worn;
        }
        let slot = self.slot_of(seen);
        if self.load_room::<Brand>(pass, seen, slot) < 2 * (seen - slot) {
            if self.load_count_listed(pass) + self.size > seen {
                return Draw::Yield;
            }
            return if self.load_before_sleep(pass) < CUT {
                Draw::Full
            } else {
                Draw::Closed
            };
        }
        if self.draw_next_listed::<Brand>(pass, seen, seen + 1, value) == seen {
            Draw::At(seen)
        } else {
            Draw::Again
        }
    }
}
