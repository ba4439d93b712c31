//! The looks of a receiver before it sleeps.
ghost use Rattle.std.specs.Prelude.{[], ℕ, ◌<◌, ◌≡◌, ◌≤◌};
ghost use Rattle.mb_segment.specs.{IsFree, IsStill, MayTake, OfFound, SawAllTaken, bare, calm, found_empty, got_at};
ghost use Rattle.mb_segment.specs.{held_by, marked_to, told, view_in};

use crate::pauses::pause;
use crate::segment::{Pass, Segment};
use crate::waiting::Found;
use std::alloc::Allocator;
use std::sync::Wait;

/// How many looks have a pause behind them.
const LOOKS: u32 = 10;

impl<T: Drop, A: Allocator + Drop> Segment<T, A> {
    /// Looks a few times before it answers that no value is there, since a sleep and its wake cost more than that.
    pub(crate) fn find_soon<R: Wait>(&self, rt: &R, pass: &mut Pass<T>, name: u32) -> Found<T>
        requires segment { pass.old.seat.table_id ≡ self.now.table.shared.table_id }
        requires free { IsFree pass.old }
        requires name { (view_in pass.old).account.name ≡ name }
        ensures pass { IsStill pass.old pass.new }
        ensures held { held_by pass.new ≡ [] }
        ensures mark { marked_to (view_in pass.old) ≤ marked_to (view_in pass.new) }
        ensures found { found_empty (view_in pass.old) ≤ found_empty (view_in pass.new) }
        ensures answer { OfFound result
            (λ x. (at : ℕ) × (bare (view_in pass.new) ≡ got_at at x (calm (view_in pass.old)))
            × MayTake at (view_in pass.old))
            ((bare (view_in pass.new) ≡ calm (view_in pass.old)) × SawAllTaken (view_in pass.new)
            × (found_empty (view_in pass.old) < found_empty (view_in pass.new)))
            (bare (view_in pass.new) ≡ told (calm (view_in pass.old))) }
    {
        for look in 0..LOOKS {
            match self.find(rt, pass, name) {
                Found::Value(value) => return Found::Value(value),
                Found::Over => return Found::Over,
                Found::Empty => pause(look),
            }
        }
        self.find(rt, pass, name)
    }
}
