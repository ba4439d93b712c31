//! How many values wait.
ghost use Rattle.std.specs.Prelude.{true, ◌+◌, ◌<◌, ◌≡◌, ◌≤◌, ◌⊎◌};
ghost use Rattle.mb_ring.specs.{IsFree, IsStill, SawEmpty, SawFull, blinded, calm, found_empty, found_full, marked_to};
ghost use Rattle.mb_ring.specs.{told, view_in};

use crate::ring::{Pass, Ring};
use crate::words::CUT;
use std::alloc::Allocator;
use std::sync::Wait;

impl<T: Drop, A: Allocator + Drop> Ring<T, A> {
    /// How many values wait: the number drawn, less the number claimed that is loaded before and again behind it. At the
    /// load of the number drawn no more waited, and at the load behind it no fewer ([`crate::laws::seen_is_true`]). At 0
    /// none waited, or none ever will. It goes on while others claim.
    pub fn len<R: Wait>(&self, rt: &R, pass: &mut Pass<T>) -> u64
        requires ring { pass.old.seat.table_id ≡ self.now.table.shared.table_id }
        requires free { IsFree pass.old }
        ensures pass { IsStill pass.old pass.new }
        ensures none { result ≡ 0 → (blinded (view_in pass.new) ≡ told (calm (view_in pass.old)))
            ⊎ ((blinded (view_in pass.new) ≡ calm (view_in pass.old))
            × SawEmpty (view_in pass.old) (view_in pass.new)) }
        ensures some { 0 < result → (blinded (view_in pass.new) ≡ calm (view_in pass.old))
            × ((view_in pass.new).sight.low + result ≡ (view_in pass.new).sight.top) }
        ensures full { self.now.size ≤ result
            → SawFull self.now.size (view_in pass.old) (view_in pass.new) }
        ensures cut { (view_in pass.new).sight.cut ≡ (view_in pass.old).sight.cut }
        ensures over { (view_in pass.old).over ≡ true → (view_in pass.new).over ≡ true }
        ensures mark { marked_to (view_in pass.old) ≤ marked_to (view_in pass.new) }
        ensures empty { found_empty (view_in pass.old) ≤ found_empty (view_in pass.new) }
        ensures found { found_full (view_in pass.old) ≤ found_full (view_in pass.new) }
        ensures free { IsFree pass.new }
    {
        for _ in rt.forever() {
            let taken = self.load_taken(pass);
            let drawn = self.load_drawn(pass) % CUT;
            if drawn <= taken {
                return 0;
            }
            if self.load_count(pass) == taken {
                return drawn - taken;
            }
        }
        unreachable!()
    }
}
