//! The calls of senders.
ghost use Rattle.std.specs.Prelude.{List, None, Some, [], ℕ, ◌%◌, ◌+◌, ◌<◌, ◌∷◌, ◌≡◌, ◌≤◌};
ghost use Rattle.mb_ring.specs.{Becomes, Event, IsClosed, IsStill, KnowsCut, MaySend, Member, Nothing, OfCut, OfDraw, Room, SawAllGot, Values};
ghost use Rattle.mb_ring.specs.{Writes, bare, did_cut, drew, ended, held_by, looked, owes_both};
ghost use Rattle.mb_ring.specs.{owes_wake, sees_cut, sees_full, spot, view_in, with_duty};

use crate::answers::Draw;
use crate::ring::{Pass, Ring};
use crate::rule::Ends;
use crate::words::{CUT, MOST, word_of};
use mb_segment::Cut;
use std::alloc::Allocator;
use std::marker::Brand;

impl<T: Drop, A: Allocator + Drop> Ring<T, A> {
    /// Draws the next position for this value, which counts as sent from then on, and pays one look for room that is owed.
    /// The pass has to mark the position, and then owes a wake to one that waits for values.
    /// "Full" comes with the number claimed at the last access. At that access, as many values waited as there are slots
    /// ([`crate::laws::looks_are_true`]). All that the pass had received is below that number. If the pass cut the ring,
    /// or was told before that it is cut, or that no value can come, the answer is "Closed". Three accesses at most.
    pub fn draw(&self, pass: &mut Pass<T>, value: &T) -> Draw
        requires ring { pass.old.seat.table_id ≡ self.now.table.shared.table_id }
        requires member { (view_in pass.old).role ≡ Member }
        requires idle { ((view_in pass.old).half ≡ Nothing) × (held_by pass.old ≡ []) }
        ensures pass { IsStill pass.old pass.new }
        ensures told { KnowsCut (view_in pass.old) → IsClosed result }
        ensures answer { OfDraw result
            (λ at. (at < 4611686018427387904)
            × (held_by pass.new ≡ (at % self.now.size, None) ∷ [])
            × (bare (view_in pass.new) ≡ bare (with_duty Room looked
            (with_duty Values owes_wake (drew at value.now (view_in pass.old)))))
            × MaySend (view_in pass.old))
            ((t : ℕ) × (w : List Event) × (bare (view_in pass.new)
            ≡ bare (sees_full t w (with_duty Room looked (view_in pass.old))))
            × SawAllGot (view_in pass.new) × (held_by pass.new ≡ [])
            × ((view_in pass.old).known.taken ≤ t)
            × ((view_in pass.old).known.drawn ≤ t + self.now.size))
            ((bare (view_in pass.new)
            ≡ bare (sees_cut (with_duty Room looked (view_in pass.old))))
            × (held_by pass.new ≡ []))
            ((bare (view_in pass.new) ≡ bare (view_in pass.old)) × (held_by pass.new ≡ [])
            × (4611686018427387904 ≤ (view_in pass.new).sight.top))
            ((bare (view_in pass.new) ≡ bare (view_in pass.old)) × (held_by pass.new ≡ [])
            × ((view_in pass.old).known.drawn ≤ (view_in pass.new).sight.top)
            × (self.now.size ≤ (view_in pass.new).sight.top)
            × ((view_in pass.new).sight.top < (view_in pass.new).sight.low + self.now.size))
            ((bare (view_in pass.new) ≡ bare (view_in pass.old)) × (held_by pass.new ≡ [])) }
    {
        let seen = self.load_to_draw(pass);
        if seen >= CUT {
            return Draw::Closed;
        }
        if seen >= MOST {
            return Draw::Worn;
        }
        let slot = self.slot_of(seen);
        if self.load_room::<Brand>(pass, seen, slot) < 2 * (seen - slot) {
            return if self.load_count(pass) + self.size <= seen {
                Draw::Full
            } else {
                Draw::Yield
            };
        }
        if self.draw_next::<Brand>(pass, seen, seen + 1, value) == seen {
            Draw::At(seen)
        } else {
            Draw::Again
        }
    }

    /// Writes the value that the position was drawn for, and marks the position. One access.
    pub fn mark(&self, pass: &mut Pass<T>, at: u64, value: T)
        requires ring { pass.old.seat.table_id ≡ self.now.table.shared.table_id }
        requires member { (view_in pass.old).role ≡ Member }
        requires drawn { (view_in pass.old).half ≡ Writes (spot at value) }
        requires most { at ≤ 4611686018427387904 }
        requires held { held_by pass.old ≡ (at % self.now.size, None) ∷ [] }
        ensures pass { IsStill pass.old pass.new }
        ensures marked { view_in pass.new ≡ ended (view_in pass.old) }
        ensures held { held_by pass.new ≡ [] }
    {
        let slot = self.slot_of(at);
        *pass.seat.slot_mut(&self.table.shared, slot as usize) = Some(value);
        self.table
            .shared
            .store::<Ends>(&mut pass.seat, word_of(slot), 2 * (at - slot) + 1);
    }

    /// Cuts the ring: no more positions will be drawn. Two accesses at most.
    pub fn cut(&self, pass: &mut Pass<T>) -> Cut
        requires ring { pass.old.seat.table_id ≡ self.now.table.shared.table_id }
        requires member { (view_in pass.old).role ≡ Member }
        ensures pass { IsStill pass.old pass.new }
        ensures answer { OfCut result
            (Becomes pass.old pass.new (owes_both (did_cut (view_in pass.old))))
            (Becomes pass.old pass.new (sees_cut (view_in pass.old)))
            (Becomes pass.old pass.new (view_in pass.old)) }
    {
        let seen = self.load_to_cut(pass);
        if seen >= CUT {
            return Cut::Was;
        }
        if self.cut_from(pass, seen, seen + CUT) == seen {
            Cut::Done
        } else {
            Cut::Again
        }
    }
}
